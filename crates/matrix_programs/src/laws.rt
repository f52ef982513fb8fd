ghost use Rattle.matrix_programs.specs.Laws.{MatricesRun};

/// The program of each matrix that isn't too large builds over each chassis that the matrix is made
/// for, and each scan of it does a step of the matrix.
pub fn matrices_run()
    ensures { MatricesRun }
{}
