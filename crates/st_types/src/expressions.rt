//! The types of expressions.

ghost use Rattle.std.specs.Prelude.{◌≡◌};
ghost use Rattle.st_tree.specs.Typing.Expressions.{typing_of, expression_types};
ghost use Rattle.st_tree.specs.Typing.Functions.{called};
ghost use Rattle.st_tree.specs.ExpressionFolds.{fold_exclusive, fold_conjunction, fold_equality, fold_comparison, fold_sum, fold_product, fold_unary, fold_primary};
ghost use Rattle.st_types.specs.Inner.Parts.{arguments_of};
ghost use Rattle.st_types.specs.Inner.Summaries.{checked_of, finding_of, primary_of};

use crate::finding::{Checked, CheckedPrimary, Finding, unless};
use crate::first::soonest;
use crate::functions::{of_one, of_three, of_two, wrong_count};
use crate::join::{alike, booleans, compared, integers, negated, unsigned};
use crate::names::{element_value, field_value, tag_value};
use crate::tags::DeclaredTags;
use function_blocks::Kind;
use st_tree::{
    Arguments, Comparison, Conjunction, Equality, Exclusive, Expr, Function, Primary, Product, Sum,
    Unary,
};

/// The type of a whole expression, or its first fault.
#[cycle(typing)]
pub fn type_expression(tags: &DeclaredTags, e: &Expr) -> Checked
    ensures { result ≡ checked_of (typing_of tags.now e.now) }
{
    let mut left = type_exclusive(tags, &e.first);
    for right in e.more.as_slice() {
        let right = type_exclusive(tags, right);
        left = Checked {
            first: left.first,
            finding: booleans(left, right),
        };
    }
    left
}

#[cycle(typing)]
fn type_exclusive(tags: &DeclaredTags, e: &Exclusive) -> Checked
    ensures { result ≡ checked_of (fold_exclusive (expression_types tags.now) e.now) }
{
    let mut left = type_conjunction(tags, &e.first);
    for right in e.more.as_slice() {
        let right = type_conjunction(tags, right);
        left = Checked {
            first: left.first,
            finding: booleans(left, right),
        };
    }
    left
}

#[cycle(typing)]
fn type_conjunction(tags: &DeclaredTags, e: &Conjunction) -> Checked
    ensures { result ≡ checked_of (fold_conjunction (expression_types tags.now) e.now) }
{
    let mut left = type_equality(tags, &e.first);
    for right in e.more.as_slice() {
        let right = type_equality(tags, right);
        left = Checked {
            first: left.first,
            finding: booleans(left, right),
        };
    }
    left
}

#[cycle(typing)]
fn type_equality(tags: &DeclaredTags, e: &Equality) -> Checked
    ensures { result ≡ checked_of (fold_equality (expression_types tags.now) e.now) }
{
    let mut left = type_comparison(tags, &e.first);
    for right in e.more.as_slice() {
        let right = type_comparison(tags, &right.operand);
        left = Checked {
            first: left.first,
            finding: compared(alike(left, right)),
        };
    }
    left
}

#[cycle(typing)]
fn type_comparison(tags: &DeclaredTags, e: &Comparison) -> Checked
    ensures { result ≡ checked_of (fold_comparison (expression_types tags.now) e.now) }
{
    let mut left = type_sum(tags, &e.first);
    for right in e.more.as_slice() {
        let right = type_sum(tags, &right.operand);
        left = Checked {
            first: left.first,
            finding: compared(integers(left, right)),
        };
    }
    left
}

#[cycle(typing)]
fn type_sum(tags: &DeclaredTags, e: &Sum) -> Checked
    ensures { result ≡ checked_of (fold_sum (expression_types tags.now) e.now) }
{
    let mut left = type_product(tags, &e.first);
    for right in e.more.as_slice() {
        let right = type_product(tags, &right.operand);
        left = Checked {
            first: left.first,
            finding: integers(left, right),
        };
    }
    left
}

#[cycle(typing)]
fn type_product(tags: &DeclaredTags, e: &Product) -> Checked
    ensures { result ≡ checked_of (fold_product (expression_types tags.now) e.now) }
{
    let mut left = type_unary(tags, &e.first);
    for right in e.more.as_slice() {
        let right = type_unary(tags, &right.operand);
        left = Checked {
            first: left.first,
            finding: integers(left, right),
        };
    }
    left
}

#[cycle(typing)]
fn type_unary(tags: &DeclaredTags, e: &Unary) -> Checked
    ensures { result ≡ checked_of (fold_unary (expression_types tags.now) e.now) }
{
    match e {
        Unary::Plain(primary) => unsigned(type_primary(tags, primary)),
        Unary::Minus(place, primary) => negated(*place, type_primary(tags, primary)),
        Unary::Not(place, primary) => Checked {
            first: *place,
            finding: unsigned(type_primary(tags, primary)).asked(Kind::Bool),
        },
    }
}

#[cycle(typing)]
fn type_primary(tags: &DeclaredTags, e: &Primary) -> CheckedPrimary
    ensures { result ≡ primary_of (fold_primary (expression_types tags.now) e.now) }
{
    let (first, finding) = match e {
        Primary::Number(value, place) => return CheckedPrimary::NumberToken(*value, *place),
        Primary::Truth(_, place) => (*place, Finding::Typed(Kind::Bool)),
        Primary::Tag(name) => (name.place, tag_value(*name, tags.named(&name.name))),
        Primary::Field(name, field) => (
            name.place,
            field_value(*name, *field, tags.named(&name.name)),
        ),
        Primary::Element(name, index) => (
            name.place,
            element_value(
                *name,
                type_expression(tags, index.get()),
                tags.named(&name.name),
            ),
        ),
        Primary::Bracketed(place, inside) => (*place, type_expression(tags, inside.get()).finding),
        Primary::Call(function, place, arguments) => {
            (*place, type_call(tags, *function, *place, arguments.get()))
        }
    };
    CheckedPrimary::Other(Checked { first, finding })
}

// A function of its arguments.
#[cycle(typing)]
fn type_call(tags: &DeclaredTags, function: Function, place: usize, e: &Arguments) -> Finding
    ensures { result ≡ finding_of (called function place (arguments_of tags.now e.now)) }
{
    let first = type_expression(tags, &e.first);
    match e.more.as_slice() {
        [] => of_one(function, place, first),
        [second] => of_two(function, place, first, type_expression(tags, second)),
        [second, third] => {
            let second = type_expression(tags, second);
            of_three(function, place, first, second, type_expression(tags, third))
        }
        more => {
            let mut fault = first.fault();
            for argument in more {
                fault = soonest(fault, type_expression(tags, argument).fault());
            }
            unless(fault, wrong_count(place))
        }
    }
}
