//! What holds of all middles.

ghost use Rattle.std.specs.Prelude.{ℤ, pos, Option, Some};
ghost use Rattle.tri_base.specs.declared.leg.Triple.{Triple};
ghost use Rattle.vote_analog.specs.Middle.{LieIn, LiesIn, mid_of};

/// The middle lies in every range that holds 0 and the counts that are there.
pub fn middle_stays_in_range()
    ensures { (low high : ℤ) (counts : Triple (Option ℤ))
        → LiesIn low high (Some (pos 0)) → LieIn low high counts
        → LiesIn low high (Some (mid_of counts)) }
{}
