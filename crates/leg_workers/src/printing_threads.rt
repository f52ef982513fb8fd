ghost use Rattle.std.specs.Prelude.{◌≡◌};
ghost use Rattle.leg_workers.specs.Inner.Telling.{AreBack};
ghost use Rattle.leg_workers.specs.Inner.Hearing.{PrintsAll};

use crate::gate::Gate;
use crate::printer::Printer;
use crate::rounds::play_rounds;
use crate::teller_worker::{hand_teller, join_teller};
use crate::telling::Teller;
use engine_face::Engine;
use std::sync::Wait;
use std::sync::atomic::AtomicBool;
use std::thread;
use std::thread::Threads;
use tri_base::Triple;
use tribus::NoteOut;

/// Works three legs until they are done, each on a thread of its own where one can be started, and
/// prints their scans meanwhile. The caller works the others together. A flag tells each worker to
/// give its leg back.
pub(crate) fn tell_threads<E: Engine + Send, G: Gate + Sync, P: Printer, R: Threads + Wait + Sync>(
    rt: &R,
    stay: &Triple<AtomicBool>,
    tellers: Triple<Teller<E>>,
    outs: Triple<NoteOut>,
    gate: &G,
    scans: u32,
    printer: &mut P,
) -> (Triple<Teller<E>>, Triple<NoteOut>)
where
    E::Program: Send,
    ensures tellers { AreBack E.meaning tellers result.0 }
    ensures printed { PrintsAll P.After scans outs result.1 printer.old printer.new }
{
    let Triple { a, b, c } = tellers;
    let (tellers, outs, _printer) = thread::scope(
        thread::scope_env(),
        rt,
        move |scope| -> (Triple<Teller<E>>, Triple<NoteOut>, &mut P)
            ensures tellers { AreBack E.meaning (record { a = a; b = b; c = c }) result.0 }
            ensures same { result.2.ghost_name ≡ printer.entry.ghost_name }
            ensures printed { PrintsAll P.After scans outs result.1 printer.entry.now result.2.now }
        {
            let a = hand_teller(scope, rt, &stay.a, a, gate);
            let b = hand_teller(scope, rt, &stay.b, b, gate);
            let c = hand_teller(scope, rt, &stay.c, c, gate);
            let mut here = Triple {
                a: a.kept,
                b: b.kept,
                c: c.kept,
            };
            let outs = play_rounds(rt, &mut here, outs, gate, scans, printer);
            let a = join_teller(rt, a.worker, here.a);
            let b = join_teller(rt, b.worker, here.b);
            let c = join_teller(rt, c.worker, here.c);
            (Triple { a, b, c }, outs, printer)
        },
    );
    (tellers, outs)
}

/// Flags of three workers, none of which has to stay.
pub(crate) fn all_go() -> Triple<AtomicBool> {
    Triple {
        a: AtomicBool::new(false),
        b: AtomicBool::new(false),
        c: AtomicBool::new(false),
    }
}
