//! The ranges of literals.

ghost use Rattle.std.specs.Prelude.{◌≡◌};
ghost use Rattle.st_tree.specs.Typing.Faults.{first_of};
ghost use Rattle.st_tree.specs.Typing.Literals.{holds, range_faults};

use crate::first::fault_if;
use function_blocks::Kind;
use st_tree::Integer;
use tri_base::{TypeCause, TypeFault};

// Whether a number lies in the range of a type.
fn holds(kind: Kind, value: i64) -> bool
    ensures { result ≡ holds kind value }
{
    match kind {
        Kind::Bool => 0 <= value && value <= 1,
        Kind::Int => i64::from(i16::MIN) <= value && value <= i64::from(i16::MAX),
        Kind::Dint => i64::from(i32::MIN) <= value && value <= i64::from(i32::MAX),
    }
}

/// A literal of a type.
pub fn range_fault(kind: Kind, literal: Integer) -> Option<TypeFault>
    ensures { result ≡ first_of (range_faults kind literal) }
{
    fault_if(
        !holds(kind, literal.value()),
        literal.place,
        TypeCause::LiteralRange,
    )
}
