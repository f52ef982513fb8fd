//! The caller, who works the legs for which no worker was started.

ghost use Rattle.std.specs.Prelude.{◌≡◌, false};
ghost use Rattle.leg_workers.specs.Working.{IsDone, IsKept, IsWorked};
ghost use Rattle.leg_workers.specs.Inner.Here.{AreHere, HoldAll, HoldsHere, IsHere};

use crate::gate::Gate;
use crate::working::serve_pair;
use engine_face::Engine;
use leg_core::LegRun;
use std::sync::Wait;
use tri_base::Triple;
use tribus::Post;

/// Works those of three legs that are here: it serves one need of each in turn, until each is done.
pub(crate) fn work_those<E: Engine, G: Gate, R: Wait>(
    rt: &R,
    those: &mut Triple<Option<(LegRun<E>, Post)>>,
    gate: &G,
)
    ensures { AreHere (IsWorked E.meaning) those.old those.new }
{
    for _ in rt.forever() {
        if !serve_those(rt, those, gate) {
            return;
        }
    }
    unreachable!()
}

/// Serves one need of each of those that are here, and tells whether there was one.
pub(crate) fn serve_those<E: Engine, G: Gate, R: Wait>(
    rt: &R,
    those: &mut Triple<Option<(LegRun<E>, Post)>>,
    gate: &G,
) -> bool
    ensures kept { AreHere (IsKept E.meaning) those.old those.new }
    ensures done { result ≡ false → HoldAll IsDone those.new }
{
    let a = serve_here(rt, &mut those.a, gate);
    let b = serve_here(rt, &mut those.b, gate);
    let c = serve_here(rt, &mut those.c, gate);
    a || b || c
}

/// Serves the next need of a leg that is here.
fn serve_here<E: Engine, G: Gate, R: Wait>(
    rt: &R,
    pair: &mut Option<(LegRun<E>, Post)>,
    gate: &G,
) -> bool
    ensures kept { IsHere (IsKept E.meaning) pair.old pair.new }
    ensures done { result ≡ false → HoldsHere IsDone pair.new }
{
    match pair {
        Some(pair) => serve_pair(rt, pair, gate),
        None => false,
    }
}

/// Works three legs: it serves one need of each in turn, until each is done.
pub(crate) fn work_three<E: Engine, G: Gate, R: Wait>(
    rt: &R,
    legs: Triple<(LegRun<E>, Post)>,
    gate: &G,
) -> Triple<(LegRun<E>, Post)>
    ensures a { IsWorked E.meaning legs.a result.a }
    ensures b { IsWorked E.meaning legs.b result.b }
    ensures c { IsWorked E.meaning legs.c result.c }
{
    let Triple {
        mut a,
        mut b,
        mut c,
    } = legs;
    for _ in rt.forever() {
        let served_a = serve_pair(rt, &mut a, gate);
        let served_b = serve_pair(rt, &mut b, gate);
        let served_c = serve_pair(rt, &mut c, gate);
        if !served_a && !served_b && !served_c {
            return Triple { a, b, c };
        }
    }
    unreachable!()
}
