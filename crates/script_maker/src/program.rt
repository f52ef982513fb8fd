ghost use Rattle.std.specs.Prelude.{◌≡◌, ◌<◌, ◌+◌, ◌^◌, ◌++◌, flat_map, codes, OnOk, IfOk};
ghost use Rattle.script_lines.specs.Lines.{ended};
ghost use Rattle.script_maker.specs.Plants.{numbered};
ghost use Rattle.script_maker.specs.Programs.{names_to, declaration, body_line, body_lines, generated_text};
ghost use Rattle.script_maker.specs.Inner.Pieces.{inputs_piece, outputs_piece, body_piece, repeated, end_piece};

use crate::plant::ROW_LENGTH;
use script_lines::Block;
use std::alloc::Global;
use tri_base::{NoMemory, Text, push_bytes, push_number};

// How many letters the comment has.
const COMMENT_LENGTH: u32 = 2544;

/// The program of the generator, of 16,384 bytes.
pub(crate) fn make_program(alloc: Global) -> Result<Block, NoMemory>
    ensures { IfOk result (λ program. program ≡ generated_text) }
{
    let mut text = Text::new(alloc);
    push_program(&mut text)?;
    let mut program = Block::new(alloc);
    program.add(text.bytes())?;
    Ok(program)
}

/// Adds the text of the program.
fn push_program(text: &mut Text) -> Result<(), NoMemory>
    ensures { OnOk result (text.new.list ≡ text.old.list ++ generated_text) }
{
    push_inputs(text)?;
    push_outputs(text)?;
    push_body(text)?;
    push_end(text)
}

/// Adds the lines up to those that declare the inputs.
fn push_inputs(text: &mut Text) -> Result<(), NoMemory>
    ensures { OnOk result (text.new.list ≡ text.old.list ++ inputs_piece) }
{
    push_bytes(text, b"PROGRAM BIG\nVAR_EXTERNAL\n")?;
    push_declaration(text, b"D", 127, b" : BOOL;\n")?;
    push_declaration(text, b"A", 127, b" : INT;\n")
}

/// Adds the lines that declare the outputs and the tags.
fn push_outputs(text: &mut Text) -> Result<(), NoMemory>
    ensures { OnOk result (text.new.list ≡ text.old.list ++ outputs_piece) }
{
    push_declaration(text, b"Q", 127, b" : BOOL;\n")?;
    push_declaration(text, b"V", 127, b" : INT;\nEND_VAR\nVAR\n")?;
    push_declaration(
        text,
        b"T",
        715,
        b" : TON;\nN0, N1, N2, N3 : INT;\nEND_VAR\n",
    )
}

/// Adds a declaration of the names of a letter with the numbers from 0 to `last`.
fn push_declaration(
    text: &mut Text,
    letter: &[u8],
    last: u32,
    behind: &[u8],
) -> Result<(), NoMemory>
    ensures { OnOk result (text.new.list ≡ text.old.list ++
        declaration letter.now last behind.now) }
{
    push_names(text, letter, last)?;
    push_bytes(text, behind)
}

/// Adds the names of a letter with the numbers from 0 to `last`.
fn push_names(text: &mut Text, letter: &[u8], last: u32) -> Result<(), NoMemory>
    ensures { OnOk result (text.new.list ≡ text.old.list ++ names_to letter.now last) }
{
    push_numbered(text, letter, 0)?;
    for number in 0..last {
        push_next(text, letter, number + 1)?;
    }
    Ok(())
}

/// Adds a letter and a number behind a comma and a space.
fn push_next(text: &mut Text, letter: &[u8], number: u32) -> Result<(), NoMemory>
    ensures { OnOk result (text.new.list ≡ text.old.list ++ (codes ", " ++
        numbered letter.now number)) }
{
    push_bytes(text, b", ")?;
    push_numbered(text, letter, number)
}

/// Adds a letter and a number.
pub(crate) fn push_numbered(text: &mut Text, letter: &[u8], number: u32) -> Result<(), NoMemory>
    ensures { OnOk result (text.new.list ≡ text.old.list ++ numbered letter.now number) }
{
    push_bytes(text, letter)?;
    push_number(text, i64::from(number))
}

/// Adds the statements of the rows: timers, and what drives the outputs.
fn push_body(text: &mut Text) -> Result<(), NoMemory>
    ensures { OnOk result (text.new.list ≡ text.old.list ++ body_piece) }
{
    push_lines(text, b"T", b"(IN := D", b", PT := 300);")?;
    push_lines(text, b"Q", b" := T", b".Q;")?;
    push_lines(text, b"V", b" := A", b";")
}

/// Adds a statement for each number of a row.
fn push_lines(text: &mut Text, before: &[u8], between: &[u8], behind: &[u8]) -> Result<(), NoMemory>
    ensures { OnOk result (text.new.list ≡ text.old.list ++
        flat_map ended (body_lines before.now between.now behind.now)) }
{
    for number in 0..ROW_LENGTH {
        push_line(text, before, between, behind, number)?;
    }
    Ok(())
}

/// Adds a statement with one number in two places.
fn push_line(
    text: &mut Text,
    before: &[u8],
    between: &[u8],
    behind: &[u8],
    number: u32,
) -> Result<(), NoMemory>
    ensures { OnOk result (text.new.list ≡ text.old.list ++
        ended (body_line before.now between.now behind.now number)) }
{
    push_numbered(text, before, number)?;
    push_numbered(text, between, number)?;
    push_bytes(text, behind)?;
    push_bytes(text, b"\n")
}

/// Adds the last lines.
fn push_end(text: &mut Text) -> Result<(), NoMemory>
    ensures { OnOk result (text.new.list ≡ text.old.list ++ end_piece) }
{
    push_bytes(text, b"N0 := N0 + 1;\n(*")?;
    push_letters(text, b'x', COMMENT_LENGTH)?;
    push_bytes(text, b"*)\nEND_PROGRAM\n")
}

/// Adds a letter again and again.
fn push_letters(text: &mut Text, letter: u8, count: u32) -> Result<(), NoMemory>
    ensures { OnOk result (text.new.list ≡ text.old.list ++ repeated letter count) }
{
    for done in 0..count {
        push_bytes(text, &[letter])?;
    }
    Ok(())
}
