ghost use Rattle.std.specs.Prelude.{◌≡◌, false, length};
ghost use Rattle.leg_workers.specs.Working.{AreAll, HaveWorked, IsDone, IsKept};
ghost use Rattle.leg_workers.specs.Inner.Rows.{AreDoneBelow};

use crate::gate::Gate;
use crate::serving::serve;
use engine_face::Engine;
use leg_core::LegRun;
use std::sync::Wait;
use tribus::Post;

/// Works legs at their posts, one, two or three: it serves one need of each in turn, until each is
/// done. So legs that begin at the same need never wait for each other within one caller. Each leg
/// passes the gate before each of its scans.
pub fn work<E: Engine, G: Gate, R: Wait>(rt: &R, legs: &mut Vec<(LegRun<E>, Post)>, gate: &G)
    ensures { HaveWorked E.meaning legs.old.items legs.new.items }
{
    for _ in rt.forever() {
        if !take_turns(rt, legs, gate) {
            return;
        }
    }
    unreachable!()
}

/// Serves one need of each leg, and tells whether there was one.
fn take_turns<E: Engine, G: Gate, R: Wait>(
    rt: &R,
    legs: &mut Vec<(LegRun<E>, Post)>,
    gate: &G,
) -> bool
    ensures kept { AreAll (IsKept E.meaning) legs.old.items legs.new.items }
    ensures done { result ≡ false → AreDoneBelow (length legs.new.items) legs.new.items }
{
    let mut served = false;
    for i in 0..legs.len() {
        if serve_pair(rt, &mut legs[i], gate) {
            served = true;
        }
    }
    served
}

/// Serves the next need of one of them.
pub(crate) fn serve_pair<E: Engine, G: Gate, R: Wait>(
    rt: &R,
    pair: &mut (LegRun<E>, Post),
    gate: &G,
) -> bool
    ensures kept { IsKept E.meaning pair.old pair.new }
    ensures done { result ≡ false → IsDone pair.new }
{
    let (leg, post) = pair;
    serve(rt, leg, post, gate)
}
