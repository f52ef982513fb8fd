//! Assignments.

ghost use Rattle.std.specs.Prelude.{◌≡◌};
ghost use Rattle.st_tree.specs.Typing.Faults.{first_of};
ghost use Rattle.st_tree.specs.Typing.Statements.{in_loop, setting_faults, assignment_faults};

use crate::first::{fault_if, soonest};
use crate::points::is_input_point;
use crate::tags::DeclaredTags;
use crate::values::{integer_fault, unknown_name, value_fault, wrong_name};
use chassis::Chassis;
use st_tree::{Assignment, DeclaredType, PlacedName, Tag};
use tri_base::{Name, TypeCause, TypeFault};

// Whether a loop around counts with the tag of a name.
fn is_counted(loops: &[Name], name: &Name) -> bool
    ensures { result ≡ in_loop loops.now name.now }
{
    loops.contains(name)
}

/// A tag of one word that is set, by an assignment or a loop.
#[tactic(auto, using(crate::proofs::Firsts::first_of_append))]
pub fn setting_fault(
    chassis: &Chassis,
    loops: &[Name],
    name: PlacedName,
    tag: Tag,
) -> Option<TypeFault>
    ensures { result ≡ first_of (setting_faults chassis.now loops.now name tag) }
{
    let input = tag.external && is_input_point(chassis, &tag.name);
    soonest(
        fault_if(input, name.place, TypeCause::NotAssignable),
        fault_if(
            is_counted(loops, &name.name),
            name.place,
            TypeCause::LoopTag,
        ),
    )
}

/// name := value, or name[index] := value
#[tactic(auto, using(crate::proofs::Firsts::first_of_append))]
pub fn assignment_fault(
    chassis: &Chassis,
    tags: &DeclaredTags,
    loops: &[Name],
    a: &Assignment,
) -> Option<TypeFault>
    ensures { result ≡ first_of (assignment_faults chassis.now tags.now loops.now a.now) }
{
    let Some(tag) = tags.named(&a.target.name) else {
        return unknown_name(a.target);
    };
    match (&a.index, tag.declared) {
        (None, DeclaredType::Simple(kind)) => soonest(
            setting_fault(chassis, loops, a.target, tag),
            value_fault(tags, kind, &a.value),
        ),
        (Some(index), DeclaredType::Array { element, .. }) => soonest(
            integer_fault(tags, index),
            value_fault(tags, element, &a.value),
        ),
        _ => wrong_name(a.target),
    }
}
