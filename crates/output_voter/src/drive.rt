ghost use Rattle.std.specs.Prelude.{◌≡◌, length};
ghost use Rattle.vote_analog.specs.Middle.{IsCount};
ghost use Rattle.chassis.specs.Points.{outputs_of};
ghost use Rattle.chassis.specs.Ranges.{Fits};
ghost use Rattle.output_voter.specs.CommonDrives.{drive_at, whole_drive};
ghost use Rattle.output_voter.specs.Inner.Slices.{slice_in};
ghost use Rattle.output_voter.specs.Lent.{words_in};

use chassis::is_input;
use tri_base::{Point, Words};

/// The words of a drive that has one for each output; None for any other.
pub fn whole_drive<'d>(drive: Option<&'d Words>, outputs: usize) -> Option<&'d [i64]>
    ensures { slice_in result ≡ whole_drive outputs (words_in drive.entry) }
{
    match drive {
        Some(words) if words.len() == outputs => Some(words.items()),
        _ => None,
    }
}

/// The word of a drive at an output, where it is in the point's range.
pub fn drive_at(point: &Point, place: usize, drive: Option<&[i64]>) -> Option<i64>
    ensures word { result ≡ drive_at point.now place (slice_in drive.entry) }
    ensures count { Fits point.now → IsCount result }
{
    let word = *drive?.get(place)?;
    if point.low <= word && word <= point.high {
        return Some(word);
    }
    None
}

/// How many outputs there are.
pub fn output_count(points: &[Point]) -> usize
    ensures { result ≡ length (outputs_of points.now) }
{
    points.iter().filter(|point| !is_input(point.kind)).count()
}
