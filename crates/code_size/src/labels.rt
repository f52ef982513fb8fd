//! The tests of CASE.

ghost use Rattle.std.specs.Prelude.{◌≡◌, ℤ, fold, map};
ghost use Rattle.st_core.specs.Core.{Term};
ghost use Rattle.st_core.specs.Costs.{term_cost};
ghost use Rattle.st_meaning.specs.Statements.{range_of, within, or_within};
ghost use Rattle.code_size.specs.Limits.{limited};

use crate::limits::plus;
use st_tree::Label;

/// What the test costs that one of the labels holds the selector, where the selector costs so much.
pub(crate) fn cost_of_labels(selector: usize, more: &[Label]) -> usize
    ensures { (t : Term) → (first : ℤ × ℤ) → selector ≡ limited (term_cost t)
        → let test = fold (or_within t) (within t first) (map range_of more.now) in
        result ≡ limited (term_cost test) }
{
    let one = plus(selector, 1);
    let mut cost = one;
    for _label in more {
        cost = plus(plus(cost, one), 1);
    }
    cost
}
