//! Expressions at places that ask for a type, and names of another sort than asked for.

ghost use Rattle.std.specs.Prelude.{◌≡◌};
ghost use Rattle.st_tree.specs.Typing.Faults.{first_of};
ghost use Rattle.st_tree.specs.Typing.Statements.{value_faults, integer_faults, unknown_faults, wrong_faults};

use crate::expressions::type_expression;
use crate::first::fault_if;
use crate::tags::DeclaredTags;
use function_blocks::Kind;
use st_tree::{Expr, PlacedName};
use tri_base::{TypeCause, TypeFault};

/// An expression at a place that asks for a type.
#[tactic(auto, using(crate::proofs::Kept::kept_asked))]
pub fn value_fault(tags: &DeclaredTags, kind: Kind, e: &Expr) -> Option<TypeFault>
    ensures { result ≡ first_of (value_faults tags.now kind e.now) }
{
    type_expression(tags, e).asked(kind).fault()
}

/// An expression at a place that asks for an integer of either type.
#[tactic(auto, using(crate::proofs::Kept::kept_integer))]
pub fn integer_fault(tags: &DeclaredTags, e: &Expr) -> Option<TypeFault>
    ensures { result ≡ first_of (integer_faults tags.now e.now) }
{
    type_expression(tags, e).as_integer().fault()
}

/// A name that isn't declared.
pub fn unknown_name(name: PlacedName) -> Option<TypeFault>
    ensures { result ≡ first_of (unknown_faults name) }
{
    fault_if(true, name.place, TypeCause::UnknownName)
}

/// A tag of another sort than asked for.
pub fn wrong_name(name: PlacedName) -> Option<TypeFault>
    ensures { result ≡ first_of (wrong_faults name) }
{
    fault_if(true, name.place, TypeCause::WrongType)
}
