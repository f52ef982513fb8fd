//! Declarations.

ghost use Rattle.std.specs.Prelude.{◌≡◌, [], int_lt};
ghost use Rattle.std.specs.List.{flat_map};
ghost use Rattle.st_tree.specs.Integers.{integer_value};
ghost use Rattle.st_tree.specs.Typing.Declarations as spec;
ghost use Rattle.st_tree.specs.Typing.Faults.{first_of};

use crate::first::{fault_if, soonest};
use crate::literals::range_fault;
use crate::points::{kind_of_point, point_named};
use crate::tags::DeclaredTags;
use chassis::Chassis;
use function_blocks::Kind;
use st_tree::{Block, Constant, Declaration, DeclaredType, Integer, Tag};
use tri_base::{TypeCause, TypeFault};

// A name that isn't declared before.
fn new_name_fault(chassis: &Chassis, tag: &Tag) -> Option<TypeFault>
    ensures { result ≡ first_of (spec.new_name_faults chassis.now tag.now) }
{
    if !tag.external {
        return None;
    }
    let Some(point) = point_named(chassis, &tag.name) else {
        return fault_if(true, tag.place, TypeCause::NoSuchPoint);
    };
    match tag.declared {
        DeclaredType::Simple(own) => fault_if(
            kind_of_point(point.kind) != own,
            tag.place,
            TypeCause::PointKind,
        ),
        DeclaredType::Array { .. } | DeclaredType::Block(_) => {
            fault_if(true, tag.place, TypeCause::PointKind)
        }
    }
}

// A name that may be declared before.
fn name_fault(chassis: &Chassis, again: bool, tag: &Tag) -> Option<TypeFault>
    ensures { result ≡ first_of (spec.name_faults chassis.now again tag.now) }
{
    if again {
        fault_if(true, tag.place, TypeCause::Twice)
    } else {
        new_name_fault(chassis, tag)
    }
}

/// The names of all tags.
pub fn names_fault(chassis: &Chassis, tags: &DeclaredTags) -> Option<TypeFault>
    ensures { result ≡ first_of (spec.names_faults chassis.now [] tags.now) }
{
    let mut fault = None;
    for (at, tag) in tags.items().iter().enumerate() {
        let again = tags.is_again(at, &tag.name);
        fault = soonest(fault, name_fault(chassis, again, tag));
    }
    fault
}

// A constant for one word.
fn word_fault(kind: Kind, constant: Constant) -> Option<TypeFault>
    ensures { result ≡ first_of (spec.word_faults kind constant) }
{
    match (kind, constant) {
        (Kind::Bool, Constant::Integer(integer)) => {
            fault_if(true, integer.first_place(), TypeCause::WrongType)
        }
        (Kind::Bool, Constant::Truth(_, _)) => None,
        (_, Constant::Integer(integer)) => range_fault(kind, integer),
        (_, Constant::Truth(_, place)) => fault_if(true, place, TypeCause::WrongType),
    }
}

// A first value.
fn constant_fault(declared: DeclaredType, constant: Option<Constant>) -> Option<TypeFault>
    ensures { result ≡ first_of (spec.constant_faults declared constant) }
{
    let Some(constant) = constant else {
        return None;
    };
    match declared {
        DeclaredType::Simple(kind) => word_fault(kind, constant),
        DeclaredType::Array { element, .. } => word_fault(element, constant),
        DeclaredType::Block(_) => {
            let place = match constant {
                Constant::Integer(integer) => integer.first_place(),
                Constant::Truth(_, place) => place,
            };
            fault_if(true, place, TypeCause::WrongType)
        }
    }
}

// Whether a written number is less than another.
fn is_below(integer: Integer, other: Integer) -> bool
    ensures { result ≡ int_lt (integer_value integer) (integer_value other) }
{
    integer.value() < other.value()
}

// The bounds of an array.
fn bound_fault(declared: DeclaredType) -> Option<TypeFault>
    ensures { result ≡ first_of (spec.bound_faults declared) }
{
    let DeclaredType::Array { low, high, .. } = declared else {
        return None;
    };
    let ends = soonest(range_fault(Kind::Dint, low), range_fault(Kind::Dint, high));
    soonest(
        ends,
        fault_if(is_below(high, low), high.place, TypeCause::LiteralRange),
    )
}

// The bounds and the first value of a declaration.
#[tactic(auto, using(crate::proofs::Firsts::first_of_append))]
fn declaration_fault(d: &Declaration) -> Option<TypeFault>
    ensures { result ≡ first_of (spec.declaration_faults d.now) }
{
    soonest(
        bound_fault(d.declared),
        constant_fault(d.declared, d.constant),
    )
}

fn declarations_fault(declarations: &[Declaration]) -> Option<TypeFault>
    ensures { result ≡ first_of (flat_map spec.declaration_faults declarations.now) }
{
    let mut fault = None;
    for d in declarations {
        fault = soonest(fault, declaration_fault(d));
    }
    fault
}

fn block_fault(block: &Block) -> Option<TypeFault>
    ensures { result ≡ first_of (spec.block_faults block.now) }
{
    match block {
        Block::Plain(declarations) => declarations_fault(declarations.as_slice()),
        Block::External(_) => None,
    }
}

/// The bounds and the first values of all declarations.
pub fn blocks_fault(blocks: &[Block]) -> Option<TypeFault>
    ensures { result ≡ first_of (flat_map spec.block_faults blocks.now) }
{
    let mut fault = None;
    for block in blocks {
        fault = soonest(fault, block_fault(block));
    }
    fault
}
