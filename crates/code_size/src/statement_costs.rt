//! What statements cost.

ghost use Rattle.std.specs.Prelude.{◌≡◌, ◌+◌, ℕ, List, max, map};
ghost use Rattle.st_tree.specs.declared.tag.Tag.{Tag};
ghost use Rattle.st_core.specs.Core.{Term};
ghost use Rattle.st_core.specs.Costs.{term_cost, cost_of};
ghost use Rattle.st_meaning.specs.Statements.{guarded, act_of, acts_of};
ghost use Rattle.code_size.specs.Limits.{limited};
ghost use Rattle.code_size.specs.Inner.Parts.{branch_in, element_in};
ghost use Rattle.code_size.specs.Inner.Paths.{IsPaths, IsWithPath, tests_after, best_after};

use crate::calls::size_of_block_call;
use crate::expression_costs::cost_of_expr;
use crate::labels::cost_of_labels;
use crate::limits::{greater, plus, times};
use crate::loops::{has_no_turn, turn_count};
use crate::paths::{Paths, with_path};
use crate::statements::{behind_else, size_of_assignment};
use st_tree::{Branch, Element, Statement};

/// How many instructions a scan may spend in statements in a row, as far as the limit.
#[cycle(statement_costs)]
pub fn cost_of_block(statements: &[Statement]) -> usize
    ensures { (tags : List Tag) → result ≡ limited (cost_of (acts_of tags statements.now)) }
{
    let mut cost = 0;
    for s in statements {
        cost = plus(cost, cost_of_statement(s));
    }
    cost
}

#[cycle(statement_costs)]
fn cost_of_statement(s: &Statement) -> usize
    ensures { (tags : List Tag) → result ≡ limited (cost_of (act_of tags s.now)) }
{
    match s {
        Statement::Empty => 0,
        Statement::Assignment(a) => size_of_assignment(a),
        Statement::BlockCall(call) => size_of_block_call(call),
        Statement::If {
            first,
            more,
            otherwise,
        } => {
            let none = Paths { tests: 0, best: 0 };
            let one = with_branch(none, first);
            let all = with_branches(one, more.as_slice());
            let others = cost_of_block(behind_else(otherwise));
            greater(all.best, plus(all.tests, others))
        }
        Statement::Case {
            selector,
            first,
            more,
            otherwise,
        } => {
            let cost = cost_of_expr(selector);
            let none = Paths { tests: 0, best: 0 };
            let one = with_element(none, cost, first);
            let all = with_elements(one, cost, more.as_slice());
            let others = cost_of_block(behind_else(otherwise));
            greater(all.best, plus(all.tests, others))
        }
        Statement::For {
            first,
            last,
            step,
            body,
            ..
        } => {
            if has_no_turn(*first, *last, *step) {
                0
            } else {
                let turn = plus(cost_of_block(body.as_slice()), 1);
                plus(2, times(turn_count(*first, *last, *step), turn))
            }
        }
        Statement::Exit(_) => 1,
        Statement::Return => 1,
    }
}

#[cycle(statement_costs)]
fn with_branch(paths: Paths, b: &Branch) -> Paths
    ensures { (tags : List Tag) → (t : ℕ) → (m : ℕ)
        → IsPaths paths t m → IsWithPath result t m (branch_in tags b.now) }
{
    let test = cost_of_expr(&b.condition);
    with_path(paths, test, cost_of_block(b.body.as_slice()))
}

#[cycle(statement_costs)]
fn with_branches(paths: Paths, branches: &[Branch]) -> Paths
    ensures { (tags : List Tag) → (t : ℕ) → (m : ℕ)
        → IsPaths paths t m
        → let gs = map (branch_in tags) branches.now in
        IsPaths result (tests_after t gs) (best_after t m gs) }
{
    let mut all = paths;
    for b in branches {
        all = with_branch(all, b);
    }
    all
}

#[cycle(statement_costs)]
fn with_element(paths: Paths, selector: usize, e: &Element) -> Paths
    ensures { (tags : List Tag) → (u : Term) → (t : ℕ) → (m : ℕ)
        → selector ≡ limited (term_cost u) → IsPaths paths t m
        → IsWithPath result t m (guarded u (element_in tags e.now)) }
{
    let test = cost_of_labels(selector, e.more.as_slice());
    with_path(paths, test, cost_of_block(e.body.as_slice()))
}

#[cycle(statement_costs)]
fn with_elements(paths: Paths, selector: usize, elements: &[Element]) -> Paths
    ensures { (tags : List Tag) → (u : Term) → (t : ℕ) → (m : ℕ)
        → selector ≡ limited (term_cost u) → IsPaths paths t m
        → let gs = map (guarded u) (map (element_in tags) elements.now) in
        IsPaths result (tests_after t gs) (best_after t m gs) }
{
    let mut all = paths;
    for e in elements {
        all = with_element(all, selector, e);
    }
    all
}
