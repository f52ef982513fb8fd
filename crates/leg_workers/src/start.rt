//! A worker for a leg, where one can be started.

ghost use Rattle.std.specs.Prelude.{option_map, is_some, ◌||◌, true, ◌≡◌};
ghost use Rattle.leg_workers.specs.Working.{IsKept, LegAtPost};
ghost use Rattle.leg_workers.specs.Inner.Promises.{IsHandedOut};

use crate::gate::Gate;
use crate::worker::{Back, PairOf, on_worker, returned};
use engine_face::Engine;
use leg_core::LegRun;
use std::snapshot::Snapshot;
use std::sync::Wait;
use std::sync::atomic::{AtomicBool, Ordering};
use std::thread::{PromisedHandle, Scope, Threads};
use tribus::Post;

/// The worker that was started for a leg, or the leg handed back.
#[derive(Drop)]
pub(crate) struct HandedOut<E: Engine> {
    pub(crate) worker: Option<PromisedHandle<Back<E>, PairOf<E>>>,
    pub(crate) kept: Option<(LegRun<E>, Post)>,
}

/// Starts a worker for a leg. Where it is refused, the flag tells the closure to give the leg back.
pub(crate) fn hand_out<'s, V, E: Engine + Send + 's, G: Gate + Sync, R: Threads + Wait + Sync>(
    scope: &Scope<'s, V>,
    rt: &'s R,
    stay: &'s AtomicBool,
    pair: (LegRun<E>, Post),
    gate: &'s G,
) -> HandedOut<E>
where
    E::Program: Send + 's,
    ensures { IsHandedOut (IsKept E.meaning) pair
        (option_map (λ h. h.promise.was.value) result.worker) result.kept }
{
    let promise = PairOf {
        was: Snapshot::of(&pair),
    };
    match scope.spawn_with(promise, || on_worker(rt, stay, pair, gate)) {
        Ok(worker) => HandedOut {
            worker: Some(worker),
            kept: None,
        },
        Err(refused) => {
            stay.store(true, Ordering::SeqCst);
            HandedOut {
                worker: None,
                kept: Some(returned((refused.value)())),
            }
        }
    }
}

/// The leg that comes back from its worker, or that was handed back.
pub(crate) fn join_leg<E: Engine, R: Threads>(
    rt: &R,
    worker: Option<PromisedHandle<Back<E>, PairOf<E>>>,
    kept: Option<(LegRun<E>, Post)>,
) -> (LegRun<E>, Post)
    requires { (was : LegAtPost)
        × IsHandedOut (IsKept E.meaning) was (option_map (λ h. h.promise.was.value) worker) kept }
    ensures { (was : LegAtPost)
        → IsHandedOut (IsKept E.meaning) was (option_map (λ h. h.promise.was.value) worker) kept
        → IsKept E.meaning was result }
{
    match (worker, kept) {
        (Some(worker), _) => returned(worker.join(rt)),
        (None, Some(pair)) => pair,
        (None, None) => unreachable!(),
    }
}
