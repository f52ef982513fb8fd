//! Operands that stand together.

ghost use Rattle.std.specs.Prelude.{◌≡◌};
ghost use Rattle.st_types.specs.Inner.Summaries as spec;

use crate::finding::{
    Checked, CheckedPrimary, Finding, Misfits, fault_of_two, literal, unless, wrong_type,
};
use crate::first::soonest;
use function_blocks::Kind;
use st_tree::{Integer, Sign};

/// Integers from the left: the place of the first that is unlike those before it; or the type that
/// they have, if one of them has a type, and what is known of the literals among them.
#[derive(Clone, Copy, Debug, PartialEq, Eq)]
pub enum Joint {
    Unlike(usize),
    Alike(Option<Kind>, Misfits),
}

impl Joint {
    fn start() -> Joint
        ensures { result ≡ spec.start }
    {
        Joint::Alike(
            None,
            Misfits {
                int: None,
                dint: None,
            },
        )
    }

    /// With one part more.
    fn with(self, part: Checked) -> Joint
        ensures { result ≡ spec.joined self part }
    {
        let Joint::Alike(kind, misfits) = self else {
            return self;
        };
        match (part.finding, kind) {
            (Finding::Free(more), _) => Joint::Alike(
                kind,
                Misfits {
                    int: soonest(misfits.int, more.int),
                    dint: soonest(misfits.dint, more.dint),
                },
            ),
            (Finding::Faulty(_), _) => self,
            (Finding::Typed(Kind::Bool), _) => Joint::Unlike(part.first),
            (Finding::Typed(own), None) => Joint::Alike(Some(own), misfits),
            (Finding::Typed(own), Some(kind)) => {
                if own == kind {
                    self
                } else {
                    Joint::Unlike(part.first)
                }
            }
        }
    }

    /// The type that all parts have, which the literals take.
    fn settled(self) -> Finding
        ensures { result ≡ spec.settled self }
    {
        match self {
            Joint::Unlike(place) => wrong_type(place),
            Joint::Alike(None | Some(Kind::Bool), misfits) => Finding::Free(misfits),
            Joint::Alike(Some(Kind::Int), misfits) => {
                unless(misfits.int, Finding::Typed(Kind::Int))
            }
            Joint::Alike(Some(Kind::Dint), misfits) => {
                unless(misfits.dint, Finding::Typed(Kind::Dint))
            }
        }
    }
}

/// One integer.
pub fn integer_of_one(part: Checked) -> Finding
    ensures { result ≡ spec.integer_of_one part }
{
    unless(part.fault(), Joint::start().with(part).settled())
}

/// Two integers of one type.
pub fn integers(left: Checked, right: Checked) -> Finding
    ensures { result ≡ spec.integers left right }
{
    let rule = Joint::start().with(left).with(right).settled();
    unless(fault_of_two(left, right), rule)
}

/// Three integers of one type.
pub fn integers_of_three(a: Checked, b: Checked, c: Checked) -> Finding
    ensures { result ≡ spec.integers_of_three a b c }
{
    let rule = Joint::start().with(a).with(b).with(c).settled();
    unless(soonest(fault_of_two(a, b), c.fault()), rule)
}

/// Two BOOL.
pub fn booleans(left: Checked, right: Checked) -> Finding
    ensures { result ≡ spec.booleans left right }
{
    unless(fault_of_two(left, right), both_bool(left, right))
}

fn both_bool(left: Checked, right: Checked) -> Finding
    ensures { result ≡ spec.both_bool left right }
{
    match left.asked(Kind::Bool) {
        Finding::Faulty(fault) => Finding::Faulty(fault),
        _ => match right.asked(Kind::Bool) {
            Finding::Faulty(fault) => Finding::Faulty(fault),
            _ => Finding::Typed(Kind::Bool),
        },
    }
}

/// Two BOOL, or two integers of one type.
pub fn alike(left: Checked, right: Checked) -> Finding
    ensures { result ≡ spec.alike left right }
{
    if left.finding == Finding::Typed(Kind::Bool) {
        booleans(left, right)
    } else {
        integers(left, right)
    }
}

/// A comparison is BOOL. Literals alone are compared as DINT.
pub fn compared(rule: Finding) -> Finding
    ensures { result ≡ spec.compared rule }
{
    match rule {
        Finding::Faulty(fault) => Finding::Faulty(fault),
        Finding::Typed(_) => Finding::Typed(Kind::Bool),
        Finding::Free(misfits) => unless(misfits.dint, Finding::Typed(Kind::Bool)),
    }
}

/// A primary without a sign.
pub fn unsigned(primary: CheckedPrimary) -> Checked
    ensures { result ≡ spec.unsigned primary }
{
    match primary {
        CheckedPrimary::NumberToken(number, place) => Checked {
            first: place,
            finding: literal(Integer {
                sign: None,
                number,
                place,
            }),
        },
        CheckedPrimary::Other(part) => part,
    }
}

/// A primary behind a minus sign, which stands at this place.
pub fn negated(at: usize, primary: CheckedPrimary) -> Checked
    ensures { result ≡ spec.negated at primary }
{
    let finding = match primary {
        CheckedPrimary::NumberToken(number, place) => literal(Integer {
            sign: Some((Sign::Minus, at)),
            number,
            place,
        }),
        CheckedPrimary::Other(part) => integer_of_one(part),
    };
    Checked { first: at, finding }
}
