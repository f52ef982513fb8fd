//! The instructions of statements. `exit` is where EXIT leads, and `finish` where RETURN does.

ghost use Rattle.std.specs.Prelude.{◌≡◌, length, map};
ghost use Rattle.scan_machine.specs.declared.instructions.Instr.TheVariants as i;
ghost use Rattle.st_tree.specs.Integers.{integer_value};
ghost use Rattle.st_core.specs.Core as core;
ghost use Rattle.st_core.specs.Core.{Name};
ghost use Rattle.st_meaning.specs.Types.{type_of, word_type};
ghost use Rattle.st_meaning.specs.Statements.{step_of, assignment, act_of, acts_of};
ghost use Rattle.code_size.specs.Inner.Parts.{branch_in};
ghost use Rattle.scan_code.specs.Inner.Emits.{Emits, EmitsAct};
ghost use Rattle.scan_code.specs.Inner.Found.{IsFound, word_type_of};
ghost use Rattle.scan_code.specs.Inner.GuardCodes.{EmitsGuard, EmitsGuards, EmitsTail};

use crate::blocks::emit_block_call;
use crate::code::{ahead, push_integer, put};
use crate::expressions::emit_expr;
use crate::found::{Found, element_type, find, store, store_at, word_type};
use crate::labels::emit_labels;
use crate::own_types::{settled, type_of_expr};
use code_size::{behind_else, has_no_turn, size_of_block, size_of_statement, step_of};
use function_blocks::Kind;
use scan_machine::Instr;
use st_tree::{Assignment, Branch, Integer, Statement};
use tag_layout::Layout;
use tri_base::NoMemory;

// A tag, and the numbers through which a loop takes it.
#[derive(Clone, Copy)]
struct Counter {
    tag: Found,
    first: Integer,
    last: Integer,
    step: Option<Integer>,
}

// Goes back to the body of a loop, or behind it after the last number.
fn next_of(counter: Counter, back: usize) -> Instr
    ensures { let kind = word_type_of counter.tag.of in
        let step = step_of counter.step in let last = integer_value counter.last in
        result ≡ i.Next counter.tag.address kind step last back }
{
    Instr::Next {
        address: counter.tag.address,
        kind: word_type(counter.tag.of),
        step: step_of(counter.step),
        last: counter.last.value(),
        back,
    }
}

fn emit_assignment(
    code: &mut Vec<Instr>,
    layout: &Layout,
    a: &Assignment,
    exit: usize,
    finish: usize,
) -> Result<(), NoMemory>
    ensures { let act = assignment layout.now a.now in
        EmitsAct result layout.now code.old.items code.new.items act exit finish }
{
    let tag = find(layout, a.target.name);
    match &a.index {
        None => {
            emit_expr(code, layout, &a.value, word_type(tag.of))?;
            put(code, store(tag))
        }
        Some(index) => {
            let at = settled(type_of_expr(layout, index));
            emit_expr(code, layout, index, at)?;
            emit_expr(code, layout, &a.value, element_type(tag.of))?;
            put(code, store_at(tag))
        }
    }
}

#[cycle(statements)]
fn emit_statement(
    code: &mut Vec<Instr>,
    layout: &Layout,
    s: &Statement,
    exit: usize,
    finish: usize,
) -> Result<(), NoMemory>
    ensures { let act = act_of layout.now s.now in
        EmitsAct result layout.now code.old.items code.new.items act exit finish }
{
    match s {
        Statement::Empty => Ok(()),
        Statement::Assignment(a) => emit_assignment(code, layout, a, exit, finish),
        Statement::BlockCall(call) => emit_block_call(code, layout, call, exit, finish),
        Statement::If {
            first,
            more,
            otherwise,
        } => {
            let end = ahead(code.len(), size_of_statement(s))?;
            emit_branch(code, layout, first, end, exit, finish)?;
            emit_branches(code, layout, more.as_slice(), end, exit, finish)?;
            emit_block(code, layout, behind_else(otherwise), exit, finish)
        }
        Statement::Case {
            selector,
            first,
            more,
            otherwise,
        } => {
            let end = ahead(code.len(), size_of_statement(s))?;
            emit_labels(code, layout, selector, first.first, first.more.as_slice())?;
            emit_tail(code, layout, first.body.as_slice(), end, exit, finish)?;
            let others = more.as_slice();
            for e in others {
                emit_labels(code, layout, selector, e.first, e.more.as_slice())?;
                emit_tail(code, layout, e.body.as_slice(), end, exit, finish)?;
            }
            emit_block(code, layout, behind_else(otherwise), exit, finish)
        }
        Statement::For {
            tag,
            first,
            last,
            step,
            body,
        } => {
            let counter = Counter {
                tag: find(layout, tag.name),
                first: *first,
                last: *last,
                step: *step,
            };
            emit_loop(code, layout, counter, body.as_slice(), exit, finish)
        }
        Statement::Exit(_) => put(code, Instr::Jump(exit)),
        Statement::Return => put(code, Instr::Jump(finish)),
    }
}

/// Does statements in a row.
#[cycle(statements)]
pub(crate) fn emit_block(
    code: &mut Vec<Instr>,
    layout: &Layout,
    statements: &[Statement],
    exit: usize,
    finish: usize,
) -> Result<(), NoMemory>
    ensures { let act = acts_of layout.now statements.now in
        EmitsAct result layout.now code.old.items code.new.items act exit finish }
{
    for s in statements {
        emit_statement(code, layout, s, exit, finish)?;
    }
    Ok(())
}

// The branches of IF. From the end of each a jump leads to `end`.
#[cycle(statements)]
fn emit_branches(
    code: &mut Vec<Instr>,
    layout: &Layout,
    branches: &[Branch],
    end: usize,
    exit: usize,
    finish: usize,
) -> Result<(), NoMemory>
    ensures { let guards = map (branch_in layout.now) branches.now in
        EmitsGuards result layout.now code.old.items code.new.items guards exit finish end }
{
    for b in branches {
        emit_branch(code, layout, b, end, exit, finish)?;
    }
    Ok(())
}

#[cycle(statements)]
fn emit_branch(
    code: &mut Vec<Instr>,
    layout: &Layout,
    b: &Branch,
    end: usize,
    exit: usize,
    finish: usize,
) -> Result<(), NoMemory>
    ensures { let guard = branch_in layout.now b.now in
        EmitsGuard result layout.now code.old.items code.new.items guard exit finish end }
{
    emit_expr(code, layout, &b.condition, Kind::Bool)?;
    emit_tail(code, layout, b.body.as_slice(), end, exit, finish)
}

// What stands behind a condition: a jump past the body, the body, and a jump to the end.
#[cycle(statements)]
fn emit_tail(
    code: &mut Vec<Instr>,
    layout: &Layout,
    statements: &[Statement],
    end: usize,
    exit: usize,
    finish: usize,
) -> Result<(), NoMemory>
    ensures { let body = acts_of layout.now statements.now in
        EmitsTail result layout.now code.old.items code.new.items body exit finish end }
{
    let first = ahead(code.len(), 1)?;
    let jump = ahead(first, size_of_block(statements))?;
    let second = ahead(jump, 1)?;
    put(code, Instr::JumpFalse(second))?;
    emit_block(code, layout, statements, exit, finish)?;
    put(code, Instr::Jump(end))
}

// A loop: the first number is set, and the body stands before a Next that leads back to it.
#[cycle(statements)]
fn emit_loop(
    code: &mut Vec<Instr>,
    layout: &Layout,
    counter: Counter,
    statements: &[Statement],
    exit: usize,
    finish: usize,
) -> Result<(), NoMemory>
    ensures { (n : Name) → IsFound layout.now n counter.tag
        → let kind = word_type (type_of layout.now n) in
        let first = integer_value counter.first in let last = integer_value counter.last in
        let body = acts_of layout.now statements.now in
        let act = core.For n kind first last (step_of counter.step) body in
        EmitsAct result layout.now code.old.items code.new.items act exit finish }
{
    if has_no_turn(counter.first, counter.last, counter.step) {
        return Ok(());
    }
    let back = ahead(code.len(), 2)?;
    let next = ahead(back, size_of_block(statements))?;
    let leave = ahead(next, 1)?;
    put(code, push_integer(counter.first))?;
    put(code, store(counter.tag))?;
    emit_block(code, layout, statements, leave, finish)?;
    put(code, next_of(counter, back))
}
