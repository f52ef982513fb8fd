//! What holds of all drives.

ghost use Rattle.std.specs.Prelude.{◌≡◌, List, ℤ, Option};
ghost use Rattle.std.specs.List.{All, AllZip};
ghost use Rattle.tri_base.specs.declared.leg.Triple.{Triple};
ghost use Rattle.tri_base.specs.declared.point.Point.{Point};
ghost use Rattle.chassis.specs.Points.{outputs_of};
ghost use Rattle.chassis.specs.Ranges.{Fits, IsWithin};
ghost use Rattle.output_voter.specs.CommonDrives.{TwoDrive, vote_drives_of};

/// What two legs drive, one word in its range for each output, is what the field outputs are,
/// whatever the third leg drives.
pub fn two_equal_drives_are_voted()
    ensures { (points : List Point) (words : List ℤ) (drives : Triple (Option (List ℤ)))
        → All Fits points → AllZip IsWithin (outputs_of points) words → TwoDrive words drives
        → vote_drives_of points drives ≡ words }
{}
