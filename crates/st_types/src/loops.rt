//! The tags and the numbers of FOR.

ghost use Rattle.std.specs.Prelude.{◌≡◌};
ghost use Rattle.st_tree.specs.Typing.Faults.{first_of};
ghost use Rattle.st_tree.specs.Typing.Statements.{step_faults, bounds_faults};
ghost use Rattle.st_types.specs.Inner.Parts.{scope, for_faults};

use crate::assignments::setting_fault;
use crate::first::{fault_if, soonest};
use crate::literals::range_fault;
use crate::tags::DeclaredTags;
use crate::values::{unknown_name, wrong_name};
use chassis::Chassis;
use function_blocks::Kind;
use st_tree::{DeclaredType, Integer, PlacedName};
use tri_base::{Name, TypeCause, TypeFault};

#[tactic(auto, using(crate::proofs::Firsts::first_of_append))]
fn step_fault(kind: Kind, step: Option<Integer>) -> Option<TypeFault>
    ensures { result ≡ first_of (step_faults kind step) }
{
    let Some(step) = step else {
        return None;
    };
    soonest(
        fault_if(step.value() == 0, step.first_place(), TypeCause::ZeroStep),
        range_fault(kind, step),
    )
}

// The numbers of a loop that counts with a tag of this type.
fn bounds_fault(
    kind: Kind,
    first: Integer,
    last: Integer,
    step: Option<Integer>,
) -> Option<TypeFault>
    ensures { result ≡ first_of (bounds_faults kind first last step) }
{
    let ends = soonest(range_fault(kind, first), range_fault(kind, last));
    soonest(ends, step_fault(kind, step))
}

/// The tag and the numbers of a loop.
#[tactic(auto, using(crate::proofs::Firsts::first_of_append))]
pub fn for_fault(
    chassis: &Chassis,
    tags: &DeclaredTags,
    loops: &[Name],
    name: PlacedName,
    first: Integer,
    last: Integer,
    step: Option<Integer>,
) -> Option<TypeFault>
    ensures { let s = scope chassis.now tags.now in
        result ≡ first_of (for_faults s loops.now name first last step) }
{
    let Some(tag) = tags.named(&name.name) else {
        return unknown_name(name);
    };
    let kind = match tag.declared {
        DeclaredType::Simple(Kind::Int) => Kind::Int,
        DeclaredType::Simple(Kind::Dint) => Kind::Dint,
        _ => return wrong_name(name),
    };
    soonest(
        setting_fault(chassis, loops, name, tag),
        bounds_fault(kind, first, last, step),
    )
}
