//! Whole programs.

ghost use Rattle.std.specs.Prelude.{IfOk, ◌≡◌};
ghost use Rattle.st_tree.specs.Typing.Programs.{first_typing_fault};
ghost use Rattle.st_types.specs.Checks.{Checks};

use crate::declarations::{blocks_fault, names_fault};
use crate::fault::CheckFault;
use crate::first::soonest;
use crate::statements::statements_fault;
use crate::tags::declared_tags;
use chassis::Chassis;
use st_tree::{Tree, Typed};
use std::alloc::Global;
use tri_base::{NoMemory, TypeFault};

// The first typing rule that a program breaks.
fn first_fault(alloc: Global, chassis: &Chassis, tree: &Tree) -> Result<Option<TypeFault>, NoMemory>
    ensures { IfOk result (λ found. found ≡ first_typing_fault chassis.now tree.now) }
{
    let tags = declared_tags(alloc, tree)?;
    let names = names_fault(chassis, &tags);
    let declarations = soonest(names, blocks_fault(tree.blocks.as_slice()));
    let statements = statements_fault(alloc, chassis, &tags, &[], tree.statements.as_slice())?;
    Ok(soonest(declarations, statements))
}

/// The tree as a well-typed program over the points of a chassis, which are copied. A refusal drops
/// the tree, and tells the first typing rule that it breaks: that with the least byte place and, at
/// one place, the first in the order of `TypeCause`.
pub fn check(alloc: Global, tree: Tree, chassis: &Chassis) -> Result<Typed, CheckFault>
    ensures { Checks chassis.now tree result }
{
    let Ok(fault) = first_fault(alloc, chassis, &tree) else {
        return Err(CheckFault::NoMemory);
    };
    if let Some(fault) = fault {
        return Err(CheckFault::Fault(fault));
    }
    let Ok(points) = Vec::from_slice(alloc, chassis.points()) else {
        return Err(CheckFault::NoMemory);
    };
    Ok(Typed::of(tree, points))
}
