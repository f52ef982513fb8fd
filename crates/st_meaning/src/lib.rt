//! What a program means: its expressions and statements as terms and acts of the core language, a
//! scan, and its cost. There is nothing here that runs.
#![tactic(auto)]

ghost use Rattle.st_meaning.specs.Laws.{StaysLowWhereShallow};
ghost use Rattle.st_meaning.specs.Paths.{CostsDearestPath, LabelsCost};
ghost use Rattle.st_meaning.specs.Worked.{Worked};

/// IF and CASE cost as much as the dearest path through them.
pub fn choices_cost_their_dearest_path()
    ensures { CostsDearestPath }
{}

/// A test of CASE costs, for each of its labels, the selector and 2.
pub fn labels_cost()
    ensures { LabelsCost }
{}

/// Programs worked by hand.
pub fn worked_programs()
    ensures { Worked }
{}

/// Statements that nest no deeper than the limit have room for all operands that wait.
pub fn shallow_statements_stay_low()
    ensures { StaysLowWhereShallow }
{}
