//! Which of several broken rules is the first.

ghost use Rattle.std.specs.Prelude.{◌≡◌};
ghost use Rattle.st_tree.specs.Typing.Faults as faults;
ghost use Rattle.st_types.specs.Inner.Firsts.{soonest};

use tri_base::{TypeCause, TypeFault};

// The order of the rules at one place.
fn rank(cause: TypeCause) -> u8
    ensures { result ≡ faults.rank cause }
{
    match cause {
        TypeCause::UnknownName => 0,
        TypeCause::Twice => 1,
        TypeCause::NoSuchPoint => 2,
        TypeCause::PointKind => 3,
        TypeCause::WrongType => 4,
        TypeCause::NotAssignable => 5,
        TypeCause::BadField => 6,
        TypeCause::ArgumentCount => 7,
        TypeCause::ZeroStep => 8,
        TypeCause::LoopTag => 9,
        TypeCause::ExitOutside => 10,
        TypeCause::LiteralRange => 11,
    }
}

// Whether a fault stands at a lesser place, or at the same place by an earlier rule.
fn goes_before(fault: TypeFault, other: TypeFault) -> bool
    ensures { result ≡ faults.goes_before fault other }
{
    fault.place < other.place || fault.place == other.place && rank(fault.cause) < rank(other.cause)
}

/// The first of what two parts break.
pub fn soonest(fault: Option<TypeFault>, other: Option<TypeFault>) -> Option<TypeFault>
    ensures { result ≡ soonest fault other }
{
    match (fault, other) {
        (Some(fault), Some(other)) => Some(if goes_before(other, fault) {
            other
        } else {
            fault
        }),
        (Some(fault), None) => Some(fault),
        (None, other) => other,
    }
}

/// A rule that is broken where the test holds.
pub fn fault_if(test: bool, place: usize, cause: TypeCause) -> Option<TypeFault>
    ensures { result ≡ faults.first_of (faults.fault_if test place cause) }
{
    if test {
        Some(TypeFault { place, cause })
    } else {
        None
    }
}
