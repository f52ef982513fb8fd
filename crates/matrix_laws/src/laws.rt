ghost use Rattle.matrix_laws.specs.Laws.{ProgramsDoSteps};
ghost use Rattle.matrix_laws.specs.Said.{MatricesAreSaid};
ghost use Rattle.matrix_laws.specs.Worked.{WorkedMatrix};

/// The program of each matrix does what the matrix says: its text spells a tree, which is well
/// typed where the matrix fits the points, and each scan of it does a step of the matrix.
pub fn programs_do_steps()
    ensures { ProgramsDoSteps }
{}

/// A matrix that lines spell is what they say, each by itself.
pub fn matrices_are_said()
    ensures { MatricesAreSaid }
{}

/// A matrix worked by hand has the program and the steps that are written.
pub fn worked_matrix()
    ensures { WorkedMatrix }
{}
