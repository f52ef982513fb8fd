//! What the checker keeps of an expression.

ghost use Rattle.std.specs.Prelude.{◌≡◌};
ghost use Rattle.st_types.specs.Inner.Summaries as spec;

use crate::first::soonest;
use crate::literals::range_fault;
use function_blocks::Kind;
use st_tree::Integer;
use tri_base::{TypeCause, TypeFault};

/// The first literal of an expression that lies outside INT, and outside DINT.
#[derive(Clone, Copy, Debug, PartialEq, Eq)]
pub struct Misfits {
    pub int: Option<TypeFault>,
    pub dint: Option<TypeFault>,
}

/// What is found of an expression: the first rule that it breaks, its type, or that it has no
/// integers but literals, whose type is still open.
#[derive(Clone, Copy, Debug, PartialEq, Eq)]
pub enum Finding {
    Faulty(TypeFault),
    Typed(Kind),
    Free(Misfits),
}

/// An expression: the place of its first token, and what is found.
#[derive(Clone, Copy, Debug, PartialEq, Eq)]
pub struct Checked {
    pub first: usize,
    pub finding: Finding,
}

/// A primary: a number token, or anything else.
#[derive(Clone, Copy, Debug, PartialEq, Eq)]
pub enum CheckedPrimary {
    NumberToken(u32, usize),
    Other(Checked),
}

impl Finding {
    /// The first rule that is broken.
    pub fn fault(self) -> Option<TypeFault>
        ensures { result ≡ spec.fault_of self }
    {
        match self {
            Finding::Faulty(fault) => Some(fault),
            Finding::Typed(_) | Finding::Free(_) => None,
        }
    }

    /// The type that it has, if it has one.
    pub fn kind(self) -> Option<Kind>
        ensures { result ≡ spec.kind_of self }
    {
        match self {
            Finding::Typed(kind) => Some(kind),
            Finding::Faulty(_) | Finding::Free(_) => None,
        }
    }
}

impl Checked {
    /// The first rule that the expression breaks.
    pub fn fault(self) -> Option<TypeFault>
        ensures { result ≡ spec.fault_of self.finding }
    {
        self.finding.fault()
    }

    /// The expression at a place that asks for a type.
    pub fn asked(self, kind: Kind) -> Finding
        ensures { result ≡ spec.asked kind self }
    {
        match (self.finding, kind) {
            (Finding::Faulty(fault), _) => Finding::Faulty(fault),
            (Finding::Typed(own), _) => {
                if own == kind {
                    Finding::Typed(own)
                } else {
                    wrong_type(self.first)
                }
            }
            (Finding::Free(_), Kind::Bool) => wrong_type(self.first),
            (Finding::Free(misfits), Kind::Int) => unless(misfits.int, Finding::Typed(Kind::Int)),
            (Finding::Free(misfits), Kind::Dint) => {
                unless(misfits.dint, Finding::Typed(Kind::Dint))
            }
        }
    }

    /// The expression at a place that asks for an integer of either type.
    pub fn as_integer(self) -> Finding
        ensures { result ≡ spec.as_integer self }
    {
        match self.finding {
            Finding::Typed(Kind::Bool) => wrong_type(self.first),
            Finding::Free(misfits) => unless(misfits.dint, Finding::Typed(Kind::Dint)),
            found => found,
        }
    }
}

/// A rule that is looked at only where there is no fault before it.
pub fn unless(fault: Option<TypeFault>, rule: Finding) -> Finding
    ensures { result ≡ spec.unless fault rule }
{
    match fault {
        Some(fault) => Finding::Faulty(fault),
        None => rule,
    }
}

/// A rule that is broken at a place.
pub fn broken(place: usize, cause: TypeCause) -> Finding
    ensures { result ≡ spec.broken place cause }
{
    Finding::Faulty(TypeFault { place, cause })
}

/// Another type than asked for.
pub fn wrong_type(place: usize) -> Finding
    ensures { result ≡ spec.wrong_type place }
{
    broken(place, TypeCause::WrongType)
}

/// What two parts break first.
pub fn fault_of_two(left: Checked, right: Checked) -> Option<TypeFault>
    ensures { result ≡ spec.fault_of_two left right }
{
    soonest(left.fault(), right.fault())
}

/// A literal alone.
pub fn literal(integer: Integer) -> Finding
    ensures { result ≡ spec.literal integer }
{
    Finding::Free(Misfits {
        int: range_fault(Kind::Int, integer),
        dint: range_fault(Kind::Dint, integer),
    })
}
