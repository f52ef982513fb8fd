//! What holds of all texts and scans: nothing is called.

ghost use Rattle.std.specs.Prelude.{List, ℕ};
ghost use Rattle.tri_base.specs.declared.point.Point.{Point};
ghost use Rattle.st_build.specs.Laws.{OutputsAreOfWords, ProgramIs, ProgramsHoldValues, ScansAreRuns, WordsHoldValues};

/// Each text is a program that runs, with one tree, or rejected for one reason, and never both.
pub fn each_text_is_judged()
    ensures { (points : List Point) (text : List ℕ) → ProgramIs points text }
{}

/// A scan is the machine's run of the program's code.
pub fn scans_are_runs()
    ensures { ScansAreRuns }
{}

/// The outputs of a scan are those of the words that it leaves.
pub fn outputs_are_of_words()
    ensures { OutputsAreOfWords }
{}

/// Words of a program's memory hold the values that a scan and a download take from them.
pub fn words_hold_values()
    ensures { WordsHoldValues }
{}

/// The first words hold the first values, and those that a download goes on with the kept values
/// and the first ones of the rest.
pub fn programs_hold_values()
    ensures { ProgramsHoldValues }
{}
