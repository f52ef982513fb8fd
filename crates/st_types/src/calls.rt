//! Calls of blocks.

ghost use Rattle.std.specs.Prelude.{◌≡◌, [], IfOk, OnOk};
ghost use Rattle.std.specs.List.{list_any};
ghost use Rattle.std.specs.Str.{bytes_eq};
ghost use Rattle.indexmap.specs.IndexSet.{insert_key};
ghost use Rattle.tri_base.specs.Inner.NameFields.{same_name};
ghost use Rattle.st_tree.specs.Listed.{inputs_of};
ghost use Rattle.st_tree.specs.Typing.Faults.{first_of};
ghost use Rattle.st_tree.specs.Typing.Statements.{inputs_faults};
ghost use Rattle.st_types.specs.Inner.Finds.{Finds};
ghost use Rattle.st_types.specs.Inner.Parts.{input_faults, call_faults};

use crate::first::{fault_if, soonest};
use crate::tags::DeclaredTags;
use crate::values::{unknown_name, value_fault, wrong_name};
use function_blocks::{BlockKind, input_named};
use indexmap::IndexSet;
use st_tree::{BlockCall, DeclaredType, Input, Inputs};
use std::alloc::Global;
use tri_base::{Name, NoMemory, TypeCause, TypeFault};

// An input of a block, which may be named before.
#[tactic(auto, using(crate::proofs::Firsts::first_of_append))]
fn input_fault(
    tags: &DeclaredTags,
    block: BlockKind,
    again: bool,
    input: &Input,
) -> Option<TypeFault>
    ensures { result ≡ first_of (input_faults tags.now block again input.now) }
{
    match input_named(block, input.name.name.bytes()) {
        Some(kind) => soonest(
            fault_if(again, input.name.place, TypeCause::Twice),
            value_fault(tags, kind, &input.value),
        ),
        None => fault_if(true, input.name.place, TypeCause::BadField),
    }
}

// Adds a name to those before it, and tells whether it was among them.
fn note_name(named: &mut IndexSet<Name>, name: Name) -> Result<bool, NoMemory>
    ensures again { IfOk result (λ again. again ≡ list_any (bytes_eq name) named.old.keys) }
    ensures kept { OnOk result (named.new.keys ≡ insert_key same_name named.old.keys name) }
{
    let new = named.insert(name)?;
    Ok(!new)
}

// The inputs of a call.
fn inputs_fault(
    alloc: Global,
    tags: &DeclaredTags,
    block: BlockKind,
    inputs: &Inputs,
) -> Result<Option<TypeFault>, NoMemory>
    ensures { Finds (inputs_faults tags.now block [] (inputs_of inputs.now)) result }
{
    let mut fault = input_fault(tags, block, false, &inputs.first);
    let mut named = IndexSet::new(alloc);
    note_name(&mut named, inputs.first.name.name)?;
    for input in inputs.more.as_slice() {
        let again = note_name(&mut named, input.name.name)?;
        fault = soonest(fault, input_fault(tags, block, again, input));
    }
    Ok(fault)
}

/// A call of a block.
pub fn call_fault(
    alloc: Global,
    tags: &DeclaredTags,
    call: &BlockCall,
) -> Result<Option<TypeFault>, NoMemory>
    ensures { Finds (call_faults tags.now call.now) result }
{
    let Some(tag) = tags.named(&call.block.name) else {
        return Ok(unknown_name(call.block));
    };
    match (tag.declared, &call.inputs) {
        (DeclaredType::Block(_), None) => Ok(None),
        (DeclaredType::Block(block), Some(inputs)) => inputs_fault(alloc, tags, block, inputs),
        _ => Ok(wrong_name(call.block)),
    }
}
