//! What expressions cost, which is also how many instructions they have. The tags of the program
//! and the type that is asked for make no difference.

ghost use Rattle.std.specs.Prelude.{◌≡◌, List};
ghost use Rattle.function_blocks.specs.declared.kinds.Kind.{Kind};
ghost use Rattle.st_tree.specs.declared.tag.Tag.{Tag};
ghost use Rattle.st_core.specs.Costs.{term_cost};
ghost use Rattle.st_meaning.specs.Expressions.{elaborated, function_term};
ghost use Rattle.code_size.specs.Limits.{limited};
ghost use Rattle.code_size.specs.Inner.Ranks.{exclusive_in, conjunction_in, equality_in, comparison_in, sum_in, product_in, unary_in, primary_in, arguments_in};

use crate::arguments::further_arguments;
use crate::limits::plus;
use st_tree::{
    Arguments, Comparison, Conjunction, Equality, Exclusive, Expr, Function, Primary, Product, Sum,
    Unary,
};

/// What an expression costs.
#[cycle(costs)]
pub(crate) fn cost_of_expr(e: &Expr) -> usize
    ensures { (tags : List Tag) → (asked : Kind)
        → result ≡ limited (term_cost ((elaborated tags e.now).asked asked)) }
{
    let mut cost = cost_of_exclusive(&e.first);
    let more = e.more.as_slice();
    for x in more {
        cost = plus(plus(cost, cost_of_exclusive(x)), 1);
    }
    cost
}

#[cycle(costs)]
fn cost_of_exclusive(e: &Exclusive) -> usize
    ensures { (tags : List Tag) → (asked : Kind)
        → result ≡ limited (term_cost ((exclusive_in tags e.now).asked asked)) }
{
    let mut cost = cost_of_conjunction(&e.first);
    let more = e.more.as_slice();
    for x in more {
        cost = plus(plus(cost, cost_of_conjunction(x)), 1);
    }
    cost
}

#[cycle(costs)]
fn cost_of_conjunction(e: &Conjunction) -> usize
    ensures { (tags : List Tag) → (asked : Kind)
        → result ≡ limited (term_cost ((conjunction_in tags e.now).asked asked)) }
{
    let mut cost = cost_of_equality(&e.first);
    let more = e.more.as_slice();
    for x in more {
        cost = plus(plus(cost, cost_of_equality(x)), 1);
    }
    cost
}

#[cycle(costs)]
fn cost_of_equality(e: &Equality) -> usize
    ensures { (tags : List Tag) → (asked : Kind)
        → result ≡ limited (term_cost ((equality_in tags e.now).asked asked)) }
{
    let mut cost = cost_of_comparison(&e.first);
    let more = e.more.as_slice();
    for x in more {
        cost = plus(plus(cost, cost_of_comparison(&x.operand)), 1);
    }
    cost
}

#[cycle(costs)]
fn cost_of_comparison(e: &Comparison) -> usize
    ensures { (tags : List Tag) → (asked : Kind)
        → result ≡ limited (term_cost ((comparison_in tags e.now).asked asked)) }
{
    let mut cost = cost_of_sum(&e.first);
    let more = e.more.as_slice();
    for x in more {
        cost = plus(plus(cost, cost_of_sum(&x.operand)), 1);
    }
    cost
}

#[cycle(costs)]
fn cost_of_sum(e: &Sum) -> usize
    ensures { (tags : List Tag) → (asked : Kind)
        → result ≡ limited (term_cost ((sum_in tags e.now).asked asked)) }
{
    let mut cost = cost_of_product(&e.first);
    let more = e.more.as_slice();
    for x in more {
        cost = plus(plus(cost, cost_of_product(&x.operand)), 1);
    }
    cost
}

#[cycle(costs)]
fn cost_of_product(e: &Product) -> usize
    ensures { (tags : List Tag) → (asked : Kind)
        → result ≡ limited (term_cost ((product_in tags e.now).asked asked)) }
{
    let mut cost = cost_of_unary(&e.first);
    let more = e.more.as_slice();
    for x in more {
        cost = plus(plus(cost, cost_of_unary(&x.operand)), 1);
    }
    cost
}

#[cycle(costs)]
fn cost_of_unary(e: &Unary) -> usize
    ensures { (tags : List Tag) → (asked : Kind)
        → result ≡ limited (term_cost ((unary_in tags e.now).asked asked)) }
{
    match e {
        Unary::Plain(primary) => cost_of_primary(primary),
        Unary::Minus(_, primary) => plus(cost_of_primary(primary), 1),
        Unary::Not(_, primary) => plus(cost_of_primary(primary), 1),
    }
}

#[cycle(costs)]
fn cost_of_primary(e: &Primary) -> usize
    ensures { (tags : List Tag) → (asked : Kind)
        → result ≡ limited (term_cost ((primary_in tags e.now).asked asked)) }
{
    match e {
        Primary::Number(_, _) => 1,
        Primary::Truth(_, _) => 1,
        Primary::Tag(_) => 1,
        Primary::Field(_, _) => 1,
        Primary::Element(_, index) => plus(cost_of_expr(index.get()), 1),
        Primary::Bracketed(_, inside) => cost_of_expr(inside.get()),
        Primary::Call(function, _, arguments) => cost_of_arguments(*function, arguments.get()),
    }
}

// A function with its arguments; a number where there are too many of them or too few.
#[cycle(costs)]
fn cost_of_arguments(function: Function, e: &Arguments) -> usize
    ensures { (tags : List Tag) → (asked : Kind)
        → result ≡ limited (term_cost (function_term function (arguments_in tags e.now) asked)) }
{
    let mut cost = cost_of_expr(&e.first);
    let more = e.more.as_slice();
    for x in more {
        cost = plus(cost, cost_of_expr(x));
    }
    if more.len() == further_arguments(function) {
        plus(cost, 1)
    } else {
        1
    }
}
