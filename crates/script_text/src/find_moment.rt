ghost use Rattle.std.specs.Prelude.{◌≡◌, ◌≤◌, nat_le, length, MatchOption};
ghost use Rattle.script_text.specs.Moments.{moment_at};
ghost use Rattle.script_text.specs.Standing.{new_moment};
ghost use Rattle.script_text.specs.Inner.LegParts.{MomentsCount, Rise};

use crate::moment::Moment;

/// What stands below the AT line of a scan; None where there is no such line.
pub(crate) fn find_moment(moments: &[Moment], scan: u32) -> Option<&Moment>
    requires { Rise 0 moments.now }
    ensures { MatchOption result (moment_at scan moments.now ≡
        new_moment scan) (λ m. moment_at scan moments.now ≡ m.now) }
{
    let count = moments_up_to(moments, scan);
    if count == 0 {
        return None;
    }
    let last = &moments[count - 1];
    if last.scan() == scan {
        Some(last)
    } else {
        None
    }
}

/// How many AT lines are of a scan or of one before it.
fn moments_up_to(moments: &[Moment], scan: u32) -> usize
    requires { Rise 0 moments.now }
    ensures bound { result ≤ length moments.now }
    ensures parts { MomentsCount scan moments.now result }
{
    moments.partition_point(
        |m: &Moment| -> bool
            ensures { result ≡ nat_le m.now.scan scan }
        { m.scan() <= scan },
    )
}
