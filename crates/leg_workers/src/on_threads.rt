ghost use Rattle.leg_workers.specs.Working.{IsKept, IsWorked};

use crate::gate::Gate;
use crate::standing_in::{work_those, work_three};
use crate::start::{hand_out, join_leg};
use engine_face::Engine;
use leg_core::LegRun;
use std::sync::Wait;
use std::sync::atomic::AtomicBool;
use std::thread;
use std::thread::Threads;
use tri_base::Triple;
use tribus::Post;

/// Works three legs until they are done, each on a thread of its own where one can be started. The
/// caller works the others together, before it joins those that were started.
pub(crate) fn work_on_threads<E: Engine + Send, G: Gate + Sync, R: Threads + Wait + Sync>(
    rt: &R,
    a: (LegRun<E>, Post),
    b: (LegRun<E>, Post),
    c: (LegRun<E>, Post),
    gate: &G,
) -> Triple<(LegRun<E>, Post)>
where
    E::Program: Send,
    ensures a { IsWorked E.meaning a result.a }
    ensures b { IsWorked E.meaning b result.b }
    ensures c { IsWorked E.meaning c result.c }
{
    let legs = work_on_started(rt, a, b, c, gate);
    // One that came back as it was is worked here; the others have no need.
    work_three(rt, legs, gate)
}

/// The same, where a worker may give its leg back as it was.
fn work_on_started<E: Engine + Send, G: Gate + Sync, R: Threads + Wait + Sync>(
    rt: &R,
    a: (LegRun<E>, Post),
    b: (LegRun<E>, Post),
    c: (LegRun<E>, Post),
    gate: &G,
) -> Triple<(LegRun<E>, Post)>
where
    E::Program: Send,
    ensures a { IsKept E.meaning a result.a }
    ensures b { IsKept E.meaning b result.b }
    ensures c { IsKept E.meaning c result.c }
{
    let stay_a = AtomicBool::new(false);
    let stay_b = AtomicBool::new(false);
    let stay_c = AtomicBool::new(false);
    thread::scope(
        thread::scope_env(),
        rt,
        |scope| -> Triple<(LegRun<E>, Post)>
            ensures a { IsKept E.meaning a result.a }
            ensures b { IsKept E.meaning b result.b }
            ensures c { IsKept E.meaning c result.c }
        {
            let a = hand_out(scope, rt, &stay_a, a, gate);
            let b = hand_out(scope, rt, &stay_b, b, gate);
            let c = hand_out(scope, rt, &stay_c, c, gate);
            let mut kept = Triple {
                a: a.kept,
                b: b.kept,
                c: c.kept,
            };
            work_those(rt, &mut kept, gate);
            let a = join_leg(rt, a.worker, kept.a);
            let b = join_leg(rt, b.worker, kept.b);
            let c = join_leg(rt, c.worker, kept.c);
            Triple { a, b, c }
        },
    )
}
