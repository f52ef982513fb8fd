//! What the vote gives, and what a mark means.

ghost use Rattle.std.specs.Prelude.{◌≡◌, ◌↔◌, Bool, List, ℕ, ℤ, Some, slice_get, slice_index_or};
ghost use Rattle.std.specs.List.{All};
ghost use Rattle.tri_base.specs.Legs.{leg_part};
ghost use Rattle.tri_base.specs.declared.leg.Leg.{Leg};
ghost use Rattle.tri_base.specs.declared.leg.Triple.{Triple};
ghost use Rattle.tri_base.specs.declared.point.Point.{Point};
ghost use Rattle.chassis.specs.Points.{inputs_of};
ghost use Rattle.chassis.specs.Ranges.{Fits};
ghost use Rattle.input_legs.specs.Marks.{mark_count, no_row};
ghost use Rattle.input_legs.specs.Runs.{HasRun, count_after, history_of, marks_after};
ghost use Rattle.input_legs.specs.VotedSheets.{LiesBetweenAnyTwo, read_three, vote_sheet_of};

/// The voted time and each voted value lie between those of any two legs that show readings, so
/// where two legs read the same, that is what is voted, whatever the third leg shows.
pub fn votes_lie_between()
    ensures { (points : List Point) (packets : Triple (List ℤ)) → All Fits points
        → LiesBetweenAnyTwo (read_three points packets) (vote_sheet_of points packets) }
{}

/// A count is a mark exactly where the leg disagreed in five scans in a row, now or before.
pub fn five_in_a_row_are_a_mark()
    ensures { (history : List Bool) → (count_after 0 history ≡ mark_count) ↔ HasRun history }
{}

/// After any scans a leg has a mark at an input exactly where it disagreed there in five of them
/// in a row.
pub fn marks_are_five_in_a_row()
    ensures { (points : List Point) (scans : List (Triple (List ℤ))) (input : ℕ) (point : Point)
        (leg : Leg) → slice_get (inputs_of points) input ≡ Some point
        → (leg_part (slice_index_or (marks_after points scans) input no_row) leg ≡ mark_count)
        ↔ HasRun (history_of points input point scans leg) }
{}
