ghost use Rattle.std.specs.Prelude.{◌≡◌, ◌≤◌, ◌++◌, length, option_to_list, OnErr, OnOk, IfErr};
ghost use Rattle.std.specs.List.{flat_map};
ghost use Rattle.tri_base.specs.Limits.{text_limit};
ghost use Rattle.cause_effect.specs.Matrices.{declared_names};
ghost use Rattle.cause_effect.specs.Programs.{IsTooLarge, cause_term, declaration_line, effect_text, hold_term, program_of, reset_term};
ghost use Rattle.cause_effect.specs.Inner.Terms.{link_term};

use crate::fault::ProgramFault;
use crate::matrix::{Level, Link, Matrix, Mode};
use std::alloc::Global;
use tri_base::{Name, NoMemory, TEXT_LIMIT, Text, push_bytes};

/// Adds the program of a matrix at the end of a text: a Structured Text program that drives the
/// effects as the matrix says. Where it is refused, the text stays as it was.
pub fn write_program(alloc: Global, matrix: &Matrix, text: &mut Text) -> Result<(), ProgramFault>
    ensures written { OnOk result (text.new.list ≡ text.old.list ++ program_of matrix.now) }
    ensures fits { OnOk result (length (program_of matrix.now) ≤ text_limit) }
    ensures too_large { IfErr result (IsTooLarge (program_of matrix.now)) }
    ensures unchanged { OnErr result (text.new ≡ text.old) }
{
    let mut program = Text::new(alloc);
    push_program(&mut program, matrix).map_err(|_| ProgramFault::NoMemory)?;
    if program.len() > TEXT_LIMIT {
        return Err(ProgramFault::TooLarge {
            bytes: program.len(),
        });
    }
    push_bytes(text, program.bytes()).map_err(|_| ProgramFault::NoMemory)
}

/// Adds the program of a matrix. Where memory fails, a part of it may stand there.
fn push_program(text: &mut Text, matrix: &Matrix) -> Result<(), NoMemory>
    ensures { OnOk result (text.new.list ≡ text.old.list ++ program_of matrix.now) }
{
    push_bytes(text, b"PROGRAM MATRIX\nVAR_EXTERNAL\n")?;
    push_declarations(text, matrix)?;
    push_bytes(text, b"END_VAR\n")?;
    push_effects(text, matrix)?;
    push_bytes(text, b"END_PROGRAM\n")
}

/// Adds the declarations of a matrix's names.
fn push_declarations(text: &mut Text, matrix: &Matrix) -> Result<(), NoMemory>
    ensures { OnOk result
        (text.new.list ≡ text.old.list ++ flat_map declaration_line (declared_names matrix.now)) }
{
    push_cause_names(text, matrix)?;
    push_effect_names(text, matrix)?;
    push_reset_name(text, matrix)
}

/// Adds the declarations of the causes.
fn push_cause_names(text: &mut Text, matrix: &Matrix) -> Result<(), NoMemory>
    ensures { OnOk result
        (text.new.list ≡ text.old.list ++ flat_map (λ c. declaration_line c.0) matrix.now.causes) }
{
    let mut rest = matrix.causes.as_slice();
    'causes: while let Some(((name, _), behind)) = rest.split_first() {
        push_declaration(text, name)?;
        rest = behind;
    }
    Ok(())
}

/// Adds the declarations of the effects.
fn push_effect_names(text: &mut Text, matrix: &Matrix) -> Result<(), NoMemory>
    ensures { OnOk result
        (text.new.list ≡ text.old.list ++ flat_map (λ e. declaration_line e.0) matrix.now.effects) }
{
    let mut rest = matrix.effects.as_slice();
    'effects: while let Some(((name, _), behind)) = rest.split_first() {
        push_declaration(text, name)?;
        rest = behind;
    }
    Ok(())
}

/// Adds the declaration of the reset, where there is one.
fn push_reset_name(text: &mut Text, matrix: &Matrix) -> Result<(), NoMemory>
    ensures { OnOk result (text.new.list ≡ text.old.list
        ++ flat_map declaration_line (option_to_list matrix.now.reset)) }
{
    match &matrix.reset {
        None => Ok(()),
        Some(reset) => push_declaration(text, reset),
    }
}

/// Adds the declaration of a name.
fn push_declaration(text: &mut Text, name: &Name) -> Result<(), NoMemory>
    ensures { OnOk result (text.new.list ≡ text.old.list ++ declaration_line name.now) }
{
    push_bytes(text, name.bytes())?;
    push_bytes(text, b" : BOOL;\n")
}

/// Adds the lines of a matrix's effects.
fn push_effects(text: &mut Text, matrix: &Matrix) -> Result<(), NoMemory>
    ensures { OnOk result (text.new.list ≡ text.old.list
        ++ flat_map (effect_text matrix.now) matrix.now.effects) }
{
    let mut rest = matrix.effects.as_slice();
    'effects: while let Some(((name, mode), behind)) = rest.split_first() {
        push_effect(text, matrix, name, *mode)?;
        rest = behind;
    }
    Ok(())
}

/// Adds the line of an effect.
fn push_effect(text: &mut Text, matrix: &Matrix, name: &Name, mode: Mode) -> Result<(), NoMemory>
    ensures { OnOk result
        (text.new.list ≡ text.old.list ++ effect_text matrix.now (name.now, mode)) }
{
    push_bytes(text, name.bytes())?;
    push_bytes(text, b" := FALSE")?;
    push_causes(text, matrix, name)?;
    push_hold(text, matrix, name, mode)?;
    push_bytes(text, b";\n")
}

/// Adds the causes that are linked to an effect.
fn push_causes(text: &mut Text, matrix: &Matrix, effect: &Name) -> Result<(), NoMemory>
    ensures { OnOk result (text.new.list ≡ text.old.list
        ++ flat_map (link_term matrix.now effect.now) matrix.now.links) }
{
    let links = matrix.links.as_slice();
    for link in links {
        push_link(text, matrix, effect, link)?;
    }
    Ok(())
}

/// Adds the cause of a link, where it leads to an effect.
fn push_link(text: &mut Text, matrix: &Matrix, effect: &Name, link: &Link) -> Result<(), NoMemory>
    ensures { OnOk result
        (text.new.list ≡ text.old.list ++ link_term matrix.now effect.now link.now) }
{
    if link.effect != *effect {
        return Ok(());
    }
    push_cause(text, matrix.level(&link.cause), &link.cause)
}

/// Adds a cause that is linked to an effect.
fn push_cause(text: &mut Text, level: Level, cause: &Name) -> Result<(), NoMemory>
    ensures { OnOk result (text.new.list ≡ text.old.list ++ cause_term level cause.now) }
{
    match level {
        Level::High => push_bytes(text, b" OR ")?,
        Level::Low => push_bytes(text, b" OR NOT ")?,
    }
    push_bytes(text, cause.bytes())
}

/// Adds what keeps an effect TRUE.
fn push_hold(text: &mut Text, matrix: &Matrix, effect: &Name, mode: Mode) -> Result<(), NoMemory>
    ensures { OnOk result
        (text.new.list ≡ text.old.list ++ hold_term mode matrix.now.reset effect.now) }
{
    match mode {
        Mode::Follow => Ok(()),
        Mode::Latch => {
            push_bytes(text, b" OR ")?;
            push_bytes(text, effect.bytes())?;
            push_reset(text, matrix)
        }
    }
}

/// Adds the reset of a latch.
fn push_reset(text: &mut Text, matrix: &Matrix) -> Result<(), NoMemory>
    ensures { OnOk result (text.new.list ≡ text.old.list ++ reset_term matrix.now.reset) }
{
    match &matrix.reset {
        None => Ok(()),
        Some(reset) => {
            push_bytes(text, b" AND NOT ")?;
            push_bytes(text, reset.bytes())
        }
    }
}
