//! A worker for a leg that tells its notes, where one can be started.

ghost use Rattle.std.specs.Prelude.{◌≡◌, option_map};
ghost use Rattle.leg_workers.specs.Inner.Promises.{IsHandedOut};
ghost use Rattle.leg_workers.specs.Inner.Telling.{IsBack, TellerValue};

use crate::gate::Gate;
use crate::telling::Teller;
use engine_face::Engine;
use std::snapshot::Snapshot;
use std::sync::Wait;
use std::sync::atomic::{AtomicBool, Ordering};
use std::thread::{Promise, PromisedHandle, Scope, Threads};

/// What a worker promises: the leg that went to it comes back, and where all its notes are told,
/// it is done.
pub(crate) struct TellerOf<E: Engine> {
    pub(crate) was: Snapshot<Teller<E>>,
}

impl<E: Engine> Drop for TellerOf<E> {
    fn drop(self) {
        let TellerOf { was: _ } = self;
    }
}

impl<E: Engine> Promise<Teller<E>> for TellerOf<E> {
    ghost use Rattle.leg_workers.specs.Inner.Telling.{IsBack};

    ghost kept_by = { λ p r. IsBack E.meaning p.was.value r };
}

/// The worker that was started for a leg, or the leg handed back.
#[derive(Drop)]
pub(crate) struct TellerOut<E: Engine> {
    pub(crate) worker: Option<PromisedHandle<Teller<E>, TellerOf<E>>>,
    pub(crate) kept: Option<Teller<E>>,
}

/// Works a leg until it is done, and tells its notes, unless it has to stay.
fn on_teller<E: Engine, G: Gate, R: Wait>(
    rt: &R,
    stay: &AtomicBool,
    teller: Teller<E>,
    gate: &G,
) -> Teller<E>
    ensures { IsBack E.meaning teller result }
{
    if stay.load(Ordering::SeqCst) {
        return teller;
    }
    let mut teller = teller;
    teller.work(rt, gate);
    teller
}

/// Starts a worker for a leg. Where it is refused, the flag tells the closure to give the leg back.
pub(crate) fn hand_teller<'s, V, E: Engine + Send + 's, G: Gate + Sync, R: Threads + Wait + Sync>(
    scope: &Scope<'s, V>,
    rt: &'s R,
    stay: &'s AtomicBool,
    teller: Teller<E>,
    gate: &'s G,
) -> TellerOut<E>
where
    E::Program: Send + 's,
    ensures { IsHandedOut (IsBack E.meaning) teller
        (option_map (λ h. h.promise.was.value) result.worker) result.kept }
{
    let promise = TellerOf {
        was: Snapshot::of(&teller),
    };
    match scope.spawn_with(promise, || on_teller(rt, stay, teller, gate)) {
        Ok(worker) => TellerOut {
            worker: Some(worker),
            kept: None,
        },
        Err(refused) => {
            stay.store(true, Ordering::SeqCst);
            TellerOut {
                worker: None,
                kept: Some((refused.value)()),
            }
        }
    }
}

/// The leg that comes back from its worker, or that was handed back.
pub(crate) fn join_teller<E: Engine, R: Threads>(
    rt: &R,
    worker: Option<PromisedHandle<Teller<E>, TellerOf<E>>>,
    kept: Option<Teller<E>>,
) -> Teller<E>
    requires { (was : TellerValue) × IsHandedOut (IsBack E.meaning) was
        (option_map (λ h. h.promise.was.value) worker) kept }
    ensures { (was : TellerValue)
        → IsHandedOut (IsBack E.meaning) was (option_map (λ h. h.promise.was.value) worker) kept
        → IsBack E.meaning was result }
{
    match (worker, kept) {
        (Some(worker), _) => worker.join(rt),
        (None, Some(teller)) => teller,
        (None, None) => unreachable!(),
    }
}
