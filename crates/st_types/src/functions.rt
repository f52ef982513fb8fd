//! The standard functions of their arguments.

ghost use Rattle.std.specs.Prelude.{◌≡◌};
ghost use Rattle.st_types.specs.Inner.Summaries as spec;

use crate::finding::{Checked, Finding, broken, fault_of_two, unless};
use crate::first::soonest;
use crate::join::{alike, integer_of_one, integers, integers_of_three};
use function_blocks::Kind;
use st_tree::Function;
use tri_base::TypeCause;

/// Another number of arguments.
pub fn wrong_count(place: usize) -> Finding
    ensures { result ≡ spec.wrong_count place }
{
    broken(place, TypeCause::ArgumentCount)
}

// A conversion: it asks for one type and gives the other.
fn converted(from: Kind, to: Kind, a: Checked) -> Finding
    ensures { result ≡ spec.converted from to a }
{
    match a.asked(from) {
        Finding::Faulty(fault) => Finding::Faulty(fault),
        _ => Finding::Typed(to),
    }
}

/// A function of one argument.
pub fn of_one(function: Function, place: usize, a: Checked) -> Finding
    ensures { result ≡ spec.of_one function place a }
{
    match function {
        Function::Abs => integer_of_one(a),
        Function::IntToDint => converted(Kind::Int, Kind::Dint, a),
        Function::DintToInt => converted(Kind::Dint, Kind::Int, a),
        _ => unless(a.fault(), wrong_count(place)),
    }
}

/// A function of two arguments.
pub fn of_two(function: Function, place: usize, a: Checked, b: Checked) -> Finding
    ensures { result ≡ spec.of_two function place a b }
{
    match function {
        Function::Min | Function::Max => integers(a, b),
        _ => unless(fault_of_two(a, b), wrong_count(place)),
    }
}

/// A function of three arguments.
pub fn of_three(function: Function, place: usize, a: Checked, b: Checked, c: Checked) -> Finding
    ensures { result ≡ spec.of_three function place a b c }
{
    match function {
        Function::Limit => integers_of_three(a, b, c),
        Function::Sel => selected(a, b, c),
        _ => unless(soonest(fault_of_two(a, b), c.fault()), wrong_count(place)),
    }
}

// SEL.
fn selected(a: Checked, b: Checked, c: Checked) -> Finding
    ensures { result ≡ spec.selected a b c }
{
    let rule = match a.asked(Kind::Bool) {
        Finding::Faulty(fault) => Finding::Faulty(fault),
        _ => alike(b, c),
    };
    unless(soonest(fault_of_two(a, b), c.fault()), rule)
}
