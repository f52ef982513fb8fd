//! Calls of blocks.

ghost use Rattle.std.specs.Prelude.{◌≡◌, List, Option, map};
ghost use Rattle.st_tree.specs.declared.declaration.DeclaredType.{DeclaredType};
ghost use Rattle.st_tree.specs.declared.tag.Tag.{Tag};
ghost use Rattle.st_tree.specs.Typing.Statements.{inputs_in};
ghost use Rattle.st_core.specs.Core.{Name};
ghost use Rattle.st_core.specs.Codes.{size_of};
ghost use Rattle.st_meaning.specs.Statements.{in_order, set_input, given, block_call};
ghost use Rattle.code_size.specs.Limits.{limited};

use crate::expression_costs::cost_of_expr;
use crate::limits::plus;
use st_tree::{BlockCall, Input, Inputs};

fn size_of_input(input: &Input) -> usize
    ensures { (tags : List Tag) → (n : Name) → (type : Option DeclaredType)
        → result ≡ limited (size_of (set_input n type (given tags input.now))) }
{
    plus(cost_of_expr(&input.value), 1)
}

fn size_of_more(inputs: &[Input]) -> usize
    ensures { (tags : List Tag) → (n : Name) → (type : Option DeclaredType)
        → let set = map (set_input n type) (map (given tags) inputs.now) in
        result ≡ limited (size_of (in_order set)) }
{
    let mut size = 0;
    for input in inputs {
        size = plus(size, size_of_input(input));
    }
    size
}

// The inputs that are named.
fn size_of_inputs(inputs: &Option<Inputs>) -> usize
    ensures { (tags : List Tag) → (n : Name) → (type : Option DeclaredType)
        → let set = map (set_input n type) (map (given tags) (inputs_in inputs.now)) in
        result ≡ limited (size_of (in_order set)) }
{
    match inputs {
        None => 0,
        Some(inputs) => plus(
            size_of_input(&inputs.first),
            size_of_more(inputs.more.as_slice()),
        ),
    }
}

/// How many instructions a call has, which is also its cost.
pub(crate) fn size_of_block_call(call: &BlockCall) -> usize
    ensures { (tags : List Tag) → result ≡ limited (size_of (block_call tags call.now)) }
{
    plus(size_of_inputs(&call.inputs), 1)
}
