ghost use Rattle.std.specs.Prelude.{◌≡◌, IfOk};
ghost use Rattle.tribus.specs.Posts.{first_posts};
ghost use Rattle.leg_workers.specs.Playing.{PlaysOver};

use crate::gate::Gate;
use crate::on_threads::work_on_threads;
use engine_face::Engine;
use leg_core::LegRun;
use std::alloc::Global;
use std::sync::Wait;
use std::thread::Threads;
use tri_base::{NoMemory, Triple};
use tribus::{Bus, Post, Settled, open_bus};

/// Plays three legs over a bus, each worked by a thread of its own where one can be started, and
/// settles the bus. Without a thread for a leg the caller works it. At NoMemory the bus found none;
/// the legs are let go.
pub fn play_legs<E: Engine + Send, G: Gate + Sync, R: Threads + Wait + Sync>(
    rt: &R,
    alloc: Global,
    legs: Triple<LegRun<E>>,
    gate: &G,
) -> Result<(Triple<LegRun<E>>, Settled), NoMemory>
where
    E::Program: Send,
    ensures { IfOk result (λ r. PlaysOver E.meaning legs r.0 r.1) }
{
    let Triple { a, b, c } = legs;
    match open_bus(alloc) {
        Ok((bus, posts)) => Ok(play_over(rt, bus, posts, a, b, c, gate)),
        Err(error) => {
            let_go(a);
            let_go(b);
            let_go(c);
            Err(error)
        }
    }
}

/// Lets a value go. A leg is large, and its parts need not be looked at where it goes.
pub(crate) fn let_go<T: Drop>(_value: T) {}

/// Plays the legs at the posts of a bus that is new, and settles it.
fn play_over<E: Engine + Send, G: Gate + Sync, R: Threads + Wait + Sync>(
    rt: &R,
    bus: Bus,
    posts: Triple<Post>,
    a: LegRun<E>,
    b: LegRun<E>,
    c: LegRun<E>,
    gate: &G,
) -> (Triple<LegRun<E>>, Settled)
where
    E::Program: Send,
    requires { posts ≡ first_posts bus }
    ensures { PlaysOver E.meaning (record { a = a; b = b; c = c }) result.0 result.1 }
{
    let Triple {
        a: at_a,
        b: at_b,
        c: at_c,
    } = posts;
    let worked = work_on_threads(rt, (a, at_a), (b, at_b), (c, at_c), gate);
    let (a, at_a) = worked.a;
    let (b, at_b) = worked.b;
    let (c, at_c) = worked.c;
    let posts = Triple {
        a: at_a,
        b: at_b,
        c: at_c,
    };
    let settled = bus.settle(rt, posts);
    (Triple { a, b, c }, settled)
}
