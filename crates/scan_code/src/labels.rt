//! The conditions of CASE.

ghost use Rattle.std.specs.Prelude.{◌≡◌, fold, map};
ghost use Rattle.scan_machine.specs.declared.instructions.Instr.TheVariants as i;
ghost use Rattle.st_meaning.specs.Expressions.{integer_of};
ghost use Rattle.st_meaning.specs.Statements.{range_of, within, or_within};
ghost use Rattle.scan_code.specs.Inner.Emits.{EmitsTerm};

use crate::code::put;
use crate::expressions::emit_expr;
use crate::own_types::{settled, type_of_expr};
use scan_machine::Instr;
use st_tree::{Expr, Label};
use tag_layout::Layout;
use tri_base::NoMemory;

// Whether the number on top lies in the range of a label.
fn within_instr(label: Label) -> Instr
    ensures { result ≡ i.Within (range_of label).0 (range_of label).1 }
{
    let low = label.low.value();
    match label.high {
        None => Instr::Within(low, low),
        Some(high) => Instr::Within(low, high.value()),
    }
}

// Whether a label holds the selector.
fn emit_within(
    code: &mut Vec<Instr>,
    layout: &Layout,
    selector: &Expr,
    label: Label,
) -> Result<(), NoMemory>
    ensures { let term = within (integer_of layout.now selector.now) (range_of label) in
        EmitsTerm result layout.now code.old.items code.new.items term }
{
    let at = settled(type_of_expr(layout, selector));
    emit_expr(code, layout, selector, at)?;
    put(code, within_instr(label))
}

/// Pushes whether one of the labels holds the selector.
pub(crate) fn emit_labels(
    code: &mut Vec<Instr>,
    layout: &Layout,
    selector: &Expr,
    first: Label,
    more: &[Label],
) -> Result<(), NoMemory>
    ensures { let t = integer_of layout.now selector.now in
        EmitsTerm result layout.now code.old.items code.new.items
        (fold (or_within t) (within t (range_of first)) (map range_of more.now)) }
{
    emit_within(code, layout, selector, first)?;
    for label in more {
        emit_within(code, layout, selector, *label)?;
        put(code, Instr::Or)?;
    }
    Ok(())
}
