//! The paths through IF and CASE.

ghost use Rattle.std.specs.Prelude.{◌≡◌, ◌+◌, ℕ, max};
ghost use Rattle.code_size.specs.Limits.{limited};
ghost use Rattle.code_size.specs.Inner.Paths.{IsPaths};

use crate::limits::{greater, plus};

/// What the tests before cost, and the dearest path through a branch before.
#[derive(Clone, Copy)]
pub(crate) struct Paths {
    pub tests: usize,
    pub best: usize,
}

/// One path more, through a branch whose test and body cost so much.
pub(crate) fn with_path(paths: Paths, test: usize, body: usize) -> Paths
    ensures { (t : ℕ) → (b : ℕ) → (x : ℕ) → (y : ℕ)
        → IsPaths paths t b → test ≡ limited x → body ≡ limited y
        → IsPaths result (t + x + 1) (max b (t + x + 1 + y + 1)) }
{
    let tests = plus(plus(paths.tests, test), 1);
    let path = plus(plus(tests, body), 1);
    Paths {
        tests,
        best: greater(paths.best, path),
    }
}
