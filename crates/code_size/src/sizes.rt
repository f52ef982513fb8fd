//! How many instructions statements have.

ghost use Rattle.std.specs.Prelude.{◌≡◌, List, map};
ghost use Rattle.st_tree.specs.declared.tag.Tag.{Tag};
ghost use Rattle.st_core.specs.Core.{Term};
ghost use Rattle.st_core.specs.Costs.{term_cost};
ghost use Rattle.st_core.specs.Codes.{size_of};
ghost use Rattle.st_meaning.specs.Statements.{guarded, act_of, acts_of};
ghost use Rattle.code_size.specs.Limits.{limited};
ghost use Rattle.code_size.specs.Inner.Parts.{branch_in, element_in};
ghost use Rattle.code_size.specs.Inner.Guards.{guard_size, guards_size};

use crate::calls::size_of_block_call;
use crate::expression_costs::cost_of_expr;
use crate::labels::cost_of_labels;
use crate::limits::plus;
use crate::loops::has_no_turn;
use crate::statements::{behind_else, size_of_assignment};
use st_tree::{Branch, Element, Statement};

/// How many instructions a statement has, as far as the limit.
#[cycle(sizes)]
pub fn size_of_statement(s: &Statement) -> usize
    ensures { (tags : List Tag) → result ≡ limited (size_of (act_of tags s.now)) }
{
    match s {
        Statement::Empty => 0,
        Statement::Assignment(a) => size_of_assignment(a),
        Statement::BlockCall(call) => size_of_block_call(call),
        Statement::If {
            first,
            more,
            otherwise,
        } => {
            let one = size_of_branch(first);
            let several = plus(one, size_of_branches(more.as_slice()));
            plus(several, size_of_block(behind_else(otherwise)))
        }
        Statement::Case {
            selector,
            first,
            more,
            otherwise,
        } => {
            let cost = cost_of_expr(selector);
            let one = size_of_element(cost, first);
            let several = plus(one, size_of_elements(cost, more.as_slice()));
            plus(several, size_of_block(behind_else(otherwise)))
        }
        Statement::For {
            first,
            last,
            step,
            body,
            ..
        } => {
            if has_no_turn(*first, *last, *step) {
                0
            } else {
                plus(plus(2, size_of_block(body.as_slice())), 1)
            }
        }
        Statement::Exit(_) => 1,
        Statement::Return => 1,
    }
}

/// How many instructions statements in a row have, as far as the limit.
#[cycle(sizes)]
pub fn size_of_block(statements: &[Statement]) -> usize
    ensures { (tags : List Tag) → result ≡ limited (size_of (acts_of tags statements.now)) }
{
    let mut size = 0;
    for s in statements {
        size = plus(size, size_of_statement(s));
    }
    size
}

#[cycle(sizes)]
fn size_of_branches(branches: &[Branch]) -> usize
    ensures { (tags : List Tag)
        → result ≡ limited (guards_size (map (branch_in tags) branches.now)) }
{
    let mut size = 0;
    for b in branches {
        size = plus(size, size_of_branch(b));
    }
    size
}

#[cycle(sizes)]
fn size_of_elements(selector: usize, elements: &[Element]) -> usize
    ensures { (tags : List Tag) → (t : Term) → selector ≡ limited (term_cost t)
        → result ≡ limited (guards_size (map (guarded t) (map (element_in tags) elements.now))) }
{
    let mut size = 0;
    for e in elements {
        size = plus(size, size_of_element(selector, e));
    }
    size
}

#[cycle(sizes)]
fn size_of_branch(b: &Branch) -> usize
    ensures { (tags : List Tag) → result ≡ limited (guard_size (branch_in tags b.now)) }
{
    let test = plus(cost_of_expr(&b.condition), 1);
    plus(plus(test, size_of_block(b.body.as_slice())), 1)
}

#[cycle(sizes)]
fn size_of_element(selector: usize, e: &Element) -> usize
    ensures { (tags : List Tag) → (t : Term) → selector ≡ limited (term_cost t)
        → result ≡ limited (guard_size (guarded t (element_in tags e.now))) }
{
    let test = plus(cost_of_labels(selector, e.more.as_slice()), 1);
    plus(plus(test, size_of_block(e.body.as_slice())), 1)
}
