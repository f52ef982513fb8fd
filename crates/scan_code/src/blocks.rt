//! Calls of function blocks.

ghost use Rattle.std.specs.Prelude.{map};
ghost use Rattle.st_tree.specs.Typing.Statements.{inputs_in};
ghost use Rattle.st_meaning.specs.Types.{type_of};
ghost use Rattle.st_meaning.specs.Statements.{in_order, set_input, given, block_call};
ghost use Rattle.scan_code.specs.Inner.Emits.{EmitsAct};

use crate::code::put;
use crate::expressions::emit_expr;
use crate::fields::find_field;
use crate::found::{block_of, call, find};
use scan_machine::Instr;
use st_tree::{BlockCall, Input, Inputs};
use tag_layout::Layout;
use tri_base::{Name, NoMemory};

// Sets an input of a block.
fn emit_input(
    code: &mut Vec<Instr>,
    layout: &Layout,
    block: Name,
    input: &Input,
    exit: usize,
    finish: usize,
) -> Result<(), NoMemory>
    ensures { let tags = layout.now in
        EmitsAct result tags code.old.items code.new.items
        (set_input block (type_of tags block) (given tags input.now)) exit finish }
{
    let tag = find(layout, block);
    let found = find_field(block_of(tag.of), input.name.name);
    emit_expr(code, layout, &input.value, found.of)?;
    put(code, Instr::Store(tag.address + found.place, found.of))
}

fn emit_inputs(
    code: &mut Vec<Instr>,
    layout: &Layout,
    block: Name,
    inputs: &[Input],
    exit: usize,
    finish: usize,
) -> Result<(), NoMemory>
    ensures { let tags = layout.now in let type = type_of tags block in
        EmitsAct result tags code.old.items code.new.items
        (in_order (map (set_input block type) (map (given tags) inputs.now))) exit finish }
{
    for input in inputs {
        emit_input(code, layout, block, input, exit, finish)?;
    }
    Ok(())
}

// Sets the inputs that are named.
fn emit_named(
    code: &mut Vec<Instr>,
    layout: &Layout,
    block: Name,
    inputs: &Option<Inputs>,
    exit: usize,
    finish: usize,
) -> Result<(), NoMemory>
    ensures { let tags = layout.now in let type = type_of tags block in
        let set = map (set_input block type) (map (given tags) (inputs_in inputs.now)) in
        EmitsAct result tags code.old.items code.new.items (in_order set) exit finish }
{
    match inputs {
        None => Ok(()),
        Some(inputs) => {
            emit_input(code, layout, block, &inputs.first, exit, finish)?;
            emit_inputs(code, layout, block, inputs.more.as_slice(), exit, finish)
        }
    }
}

/// Sets the inputs in order, and steps the block.
pub(crate) fn emit_block_call(
    code: &mut Vec<Instr>,
    layout: &Layout,
    written: &BlockCall,
    exit: usize,
    finish: usize,
) -> Result<(), NoMemory>
    ensures { let act = block_call layout.now written.now in
        EmitsAct result layout.now code.old.items code.new.items act exit finish }
{
    let block = written.block.name;
    emit_named(code, layout, block, &written.inputs, exit, finish)?;
    put(code, call(find(layout, block)))
}
