ghost use Rattle.std.specs.Prelude.{◌≡◌};
ghost use Rattle.leg_workers.specs.Working.{IsKept, IsWorked, LegAtPost};
ghost use Rattle.leg_workers.specs.Inner.Promises.{IsPromised};

use crate::gate::Gate;
use crate::working::serve_pair;
use engine_face::Engine;
use leg_core::LegRun;
use std::snapshot::Snapshot;
use std::sync::Wait;
use std::sync::atomic::{AtomicBool, Ordering};
use std::thread::Promise;
use tribus::Post;

/// A leg and its post as they come back from a worker, who may have been told to leave them.
#[derive(Drop)]
pub(crate) struct Back<E: Engine> {
    pub(crate) pair: (LegRun<E>, Post),
    pub(crate) is_worked: bool,
}

/// What a worker promises: the leg and the post that went to it come back worked, or as they were.
pub(crate) struct PairOf<E: Engine> {
    pub(crate) was: Snapshot<(LegRun<E>, Post)>,
}

impl<E: Engine> Drop for PairOf<E> {
    fn drop(self) {
        let PairOf { was: _ } = self;
    }
}

impl<E: Engine> Promise<Back<E>> for PairOf<E> {
    ghost use Rattle.leg_workers.specs.Inner.Promises.{IsPromised};

    ghost kept_by = { λ p r. IsPromised E.meaning p.was.value r.pair r.is_worked };
}

/// Works a leg until it is done, unless it has to stay.
pub(crate) fn on_worker<E: Engine, G: Gate, R: Wait>(
    rt: &R,
    stay: &AtomicBool,
    pair: (LegRun<E>, Post),
    gate: &G,
) -> Back<E>
    ensures { IsPromised E.meaning pair result.pair result.is_worked }
{
    let mut pair = pair;
    if stay.load(Ordering::SeqCst) {
        return Back {
            pair,
            is_worked: false,
        };
    }
    work_pair(rt, &mut pair, gate);
    Back {
        pair,
        is_worked: true,
    }
}

/// Works a leg until it is done.
fn work_pair<E: Engine, G: Gate, R: Wait>(rt: &R, pair: &mut (LegRun<E>, Post), gate: &G)
    ensures { IsWorked E.meaning pair.old pair.new }
{
    for _ in rt.forever() {
        if !serve_pair(rt, pair, gate) {
            return;
        }
    }
    unreachable!()
}

/// What came back, worked or as it was.
pub(crate) fn returned<E: Engine>(back: Back<E>) -> (LegRun<E>, Post)
    ensures { (was : LegAtPost) → IsPromised E.meaning was back.pair back.is_worked
        → IsKept E.meaning was result }
{
    back.pair
}
