//! What the threads at a box know of it, and what each of their steps does to that. It exists in
//! proofs alone.

ghost use Rattle.std.specs.Prelude.{◌≡◌, ◌++◌, ◌∷◌, []};
ghost use mathlib.Core.List.{IsPrefix};
ghost use Rattle.tribus.specs.Inner.Rules.{log};

use crossbeam_queue::protocol::{Join, Lesson, Outcome, Protocol, Split};
use std::collections::LinkedList;

/// What the holder of a pass may do at the box, and what it did. No value of it is made.
pub struct Log<T> {
    /// It may put.
    pub puts: bool,
    /// It may take.
    pub takes: bool,
    /// What was put, oldest first, where it may put.
    pub sent: LinkedList<T>,
    /// What was taken, oldest first, where it may take.
    pub taken: LinkedList<T>,
    /// What was taken out when both ends were back, oldest first, where it may take.
    pub left: LinkedList<T>,
}

/// The box keeps the order, and loses nothing.
pub struct LinkRule;

impl<T> Protocol<T, Log<T>> for LinkRule {
    ghost use Rattle.std.specs.Prelude.{true, []};
    ghost use Rattle.tribus.specs.Inner.Rules.{log, KeepsOrder};

    ghost holds = { KeepsOrder };

    ghost first = { log true true [] [] [] };
}

/// The first pass is split into that of the end that puts and that of the end that takes; once both
/// are back, they are joined.
pub struct Ends;

impl<T> Split<Log<T>> for Ends {
    ghost use Rattle.std.specs.Prelude.{true, false, []};
    ghost use Rattle.tribus.specs.Inner.Rules.{log};

    ghost left = { λ v. log true false v.sent [] [] };

    ghost right = { λ v. log false true [] v.taken v.left };
}

impl<T> Join<Log<T>> for Ends {
    ghost use Rattle.std.specs.Prelude.{true, false, []};
    ghost use Rattle.tribus.specs.Inner.Rules.{log};

    ghost both = { λ v w. log true true v.sent w.taken w.left };

    ghost spent = { log false false [] [] [] };
}

/// A push adds to what was put.
pub struct Sent;

impl<T> Outcome<T, Log<T>> for Sent {
    ghost then = { λ v x w. w ≡ log v.puts v.takes (v.sent ++ x ∷ []) v.taken v.left };
}

/// A pop adds to what was taken.
pub struct Taken;

impl<T> Outcome<T, Log<T>> for Taken {
    ghost then = { λ v x w. w ≡ log v.puts v.takes v.sent (v.taken ++ x ∷ []) v.left };
}

/// A pop with both ends back adds to what was left, and tells how the lists stand; so does one that
/// finds the box empty.
pub struct Left;

impl<T> Outcome<T, Log<T>> for Left {
    ghost then = { λ v x w. (w ≡ log v.puts v.takes v.sent v.taken (v.left ++ x ∷ []))
        × IsPrefix ((v.taken ++ v.left) ++ x ∷ []) v.sent };
}

impl<T> Lesson<T, Log<T>> for Left {
    ghost fact = { λ v items. v.sent ≡ (v.taken ++ v.left) ++ items };
}
