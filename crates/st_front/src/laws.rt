//! What holds of all texts: nothing is called.

ghost use Rattle.std.specs.Prelude.{List, ℕ};
ghost use Rattle.tri_base.specs.declared.point.Point.{Point};
ghost use Rattle.st_front.specs.Judging.{FrontIs};

/// Each text is a program with one tree, or refused for one reason, and never both.
pub fn each_text_is_judged()
    ensures { (points : List Point) (text : List ℕ) → FrontIs points text }
{}
