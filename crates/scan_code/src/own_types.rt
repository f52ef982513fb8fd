//! The types that expressions have of their own: None where an expression is of literals alone.

ghost use Rattle.std.specs.Prelude.{◌≡◌};
ghost use Rattle.st_meaning.specs.Expressions as meaning;
ghost use Rattle.st_meaning.specs.Expressions.{elaborated, function_own};
ghost use Rattle.code_size.specs.Inner.Ranks.{exclusive_in, conjunction_in, equality_in, comparison_in, sum_in, product_in, unary_in, primary_in, arguments_in};

use crate::fields::field_type_named;
use crate::found::{element_type_named, word_type_named};
use crate::functions::first_own;
use function_blocks::Kind;
use st_tree::{
    Arguments, Comparison, Conjunction, Equality, Exclusive, Expr, Function, Primary, Product, Sum,
    Unary,
};
use tag_layout::Layout;

/// Two operands have the type of that which has one.
pub(crate) fn common(first: Option<Kind>, second: Option<Kind>) -> Option<Kind>
    ensures { result ≡ meaning.common first second }
{
    match first {
        Some(kind) => Some(kind),
        None => second,
    }
}

/// Literals that stand where no type is asked for are DINT.
pub(crate) fn settled(own: Option<Kind>) -> Kind
    ensures { result ≡ meaning.settled own }
{
    match own {
        Some(kind) => kind,
        None => Kind::Dint,
    }
}

/// The type of an expression.
#[cycle(own_types)]
pub(crate) fn type_of_expr(layout: &Layout, e: &Expr) -> Option<Kind>
    ensures { result ≡ (elaborated layout.now e.now).own }
{
    if e.more.as_slice().is_empty() {
        type_of_exclusive(layout, &e.first)
    } else {
        Some(Kind::Bool)
    }
}

#[cycle(own_types)]
fn type_of_exclusive(layout: &Layout, e: &Exclusive) -> Option<Kind>
    ensures { result ≡ (exclusive_in layout.now e.now).own }
{
    if e.more.as_slice().is_empty() {
        type_of_conjunction(layout, &e.first)
    } else {
        Some(Kind::Bool)
    }
}

#[cycle(own_types)]
fn type_of_conjunction(layout: &Layout, e: &Conjunction) -> Option<Kind>
    ensures { result ≡ (conjunction_in layout.now e.now).own }
{
    if e.more.as_slice().is_empty() {
        type_of_equality(layout, &e.first)
    } else {
        Some(Kind::Bool)
    }
}

#[cycle(own_types)]
fn type_of_equality(layout: &Layout, e: &Equality) -> Option<Kind>
    ensures { result ≡ (equality_in layout.now e.now).own }
{
    if e.more.as_slice().is_empty() {
        type_of_comparison(layout, &e.first)
    } else {
        Some(Kind::Bool)
    }
}

#[cycle(own_types)]
pub(crate) fn type_of_comparison(layout: &Layout, e: &Comparison) -> Option<Kind>
    ensures { result ≡ (comparison_in layout.now e.now).own }
{
    if e.more.as_slice().is_empty() {
        type_of_sum(layout, &e.first)
    } else {
        Some(Kind::Bool)
    }
}

#[cycle(own_types)]
pub(crate) fn type_of_sum(layout: &Layout, e: &Sum) -> Option<Kind>
    ensures { result ≡ (sum_in layout.now e.now).own }
{
    let mut own = type_of_product(layout, &e.first);
    let more = e.more.as_slice();
    for x in more {
        own = common(own, type_of_product(layout, &x.operand));
    }
    own
}

#[cycle(own_types)]
fn type_of_product(layout: &Layout, e: &Product) -> Option<Kind>
    ensures { result ≡ (product_in layout.now e.now).own }
{
    let mut own = type_of_unary(layout, &e.first);
    let more = e.more.as_slice();
    for x in more {
        own = common(own, type_of_unary(layout, &x.operand));
    }
    own
}

#[cycle(own_types)]
fn type_of_unary(layout: &Layout, e: &Unary) -> Option<Kind>
    ensures { result ≡ (unary_in layout.now e.now).own }
{
    match e {
        Unary::Plain(primary) => type_of_primary(layout, primary),
        Unary::Minus(_, primary) => type_of_primary(layout, primary),
        Unary::Not(_, _) => Some(Kind::Bool),
    }
}

#[cycle(own_types)]
fn type_of_primary(layout: &Layout, e: &Primary) -> Option<Kind>
    ensures { result ≡ (primary_in layout.now e.now).own }
{
    match e {
        Primary::Number(_, _) => None,
        Primary::Truth(_, _) => Some(Kind::Bool),
        Primary::Tag(tag) => Some(word_type_named(layout, tag.name)),
        Primary::Field(block, field) => Some(field_type_named(layout, block.name, field.name)),
        Primary::Element(array, _) => Some(element_type_named(layout, array.name)),
        Primary::Bracketed(_, inside) => type_of_expr(layout, inside.get()),
        Primary::Call(function, _, arguments) => {
            type_of_call(layout, *function, arguments.get())
        }
    }
}

// A function with its arguments.
#[cycle(own_types)]
fn type_of_call(layout: &Layout, function: Function, e: &Arguments) -> Option<Kind>
    ensures { result ≡ function_own function (arguments_in layout.now e.now) }
{
    let mut own = first_own(function, type_of_expr(layout, &e.first));
    let more = e.more.as_slice();
    for x in more {
        own = common(own, type_of_expr(layout, x));
    }
    own
}
