//! Parts of statements.

ghost use Rattle.std.specs.Prelude.{◌≡◌, List};
ghost use Rattle.st_tree.specs.declared.tag.Tag.{Tag};
ghost use Rattle.st_core.specs.Codes.{size_of};
ghost use Rattle.st_meaning.specs.Statements.{assignment};
ghost use Rattle.code_size.specs.Limits.{limited};
ghost use Rattle.code_size.specs.Inner.Parts.{behind_else};

use crate::expression_costs::cost_of_expr;
use crate::limits::plus;
use sqlite_items::Items;
use st_tree::{Assignment, Statement};

/// Lends the statements behind ELSE; none where no ELSE is written.
pub fn behind_else(otherwise: &Option<Items<Statement>>) -> &[Statement]
    ensures { result.now ≡ behind_else otherwise.now }
{
    match otherwise {
        Some(body) => body.as_slice(),
        None => &[],
    }
}

/// How many instructions an assignment has, which is also its cost.
pub(crate) fn size_of_assignment(a: &Assignment) -> usize
    ensures { (tags : List Tag) → result ≡ limited (size_of (assignment tags a.now)) }
{
    let value = cost_of_expr(&a.value);
    match &a.index {
        None => plus(value, 1),
        Some(index) => plus(plus(cost_of_expr(index), value), 1),
    }
}
