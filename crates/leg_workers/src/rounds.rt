//! The caller, who plays scan by scan: it works the legs for which no worker was started, hears all
//! three, and prints.

ghost use Rattle.std.specs.Prelude.{◌≡◌, true};
ghost use Rattle.tri_base.specs.declared.leg.Triple.{Triple};
ghost use Rattle.tribus.specs.Ends.{End};
ghost use Rattle.tribus.specs.declared.note_link.Told.{Told};
ghost use Rattle.leg_workers.specs.Inner.Here.{AreHere, HoldAll, HoldsHere, IsHere};
ghost use Rattle.leg_workers.specs.Inner.Telling.{IsAtEnd, TellsOn};
ghost use Rattle.leg_workers.specs.Inner.Hearing.{AreOver, HasPrinted, PrintsAll};
ghost use Rattle.leg_workers.specs.Inner.Hearing.{listeners_at, outs_of};

use crate::gate::Gate;
use crate::hearing::{Listener, hear_round};
use crate::pages::Page;
use crate::playing::let_go;
use crate::printer::Printer;
use crate::telling::Teller;
use engine_face::Engine;
use std::sync::Wait;
use tri_base::Triple;
use tribus::NoteOut;

/// Plays scan by scan, and prints each: it plays a scan of those legs that are here, hears a note
/// of each of the three, and hands a scan to the printer where each gave one in every round so far.
/// It ends once it heard of each that there are no more, and those that are here are done.
pub(crate) fn play_rounds<E: Engine, G: Gate, P: Printer, R: Wait>(
    rt: &R,
    here: &mut Triple<Option<Teller<E>>>,
    outs: Triple<NoteOut>,
    gate: &G,
    scans: u32,
    printer: &mut P,
) -> Triple<NoteOut>
    ensures here { AreHere (TellsOn E.meaning) here.old here.new }
    ensures done { HoldAll IsAtEnd here.new }
    ensures printed { PrintsAll P.After scans outs result printer.old printer.new }
{
    let mut ears = listeners(outs);
    let mut page = Page {
        scan: 0,
        scans,
        is_open: true,
    };
    for _ in rt.forever() {
        play_scan(rt, here, gate);
        print_round(rt, &mut ears, &mut page, printer);
        if is_played(&ears, here) {
            return ends_of(ears);
        }
    }
    unreachable!()
}

/// Hears a note of its next scan of each of three legs, and prints them, where each gave one in
/// this round and in those before.
fn print_round<P: Printer, R: Wait>(
    rt: &R,
    ears: &mut Triple<Listener>,
    page: &mut Page,
    printer: &mut P,
)
    ensures limit { page.new.scans ≡ page.old.scans }
    ensures printed { (outs : Triple (End Told)) (first : P)
        → HasPrinted P.After outs ears.old page.old first printer.old
        → HasPrinted P.After outs ears.new page.new first printer.new }
{
    let round = hear_round(rt, ears);
    page.print(printer, &round);
    let_go(round);
}

/// Whether each of three legs has no more notes, and those that are here are done.
fn is_played<E: Engine>(ears: &Triple<Listener>, here: &Triple<Option<Teller<E>>>) -> bool
    ensures over { result ≡ true → AreOver ears.now }
    ensures done { result ≡ true → HoldAll IsAtEnd here.now }
{
    are_over(ears) && are_done(here)
}

/// Listeners that have heard nothing.
fn listeners(outs: Triple<NoteOut>) -> Triple<Listener>
    ensures { result ≡ listeners_at outs }
{
    Triple {
        a: Listener {
            out: outs.a,
            is_over: false,
        },
        b: Listener {
            out: outs.b,
            is_over: false,
        },
        c: Listener {
            out: outs.c,
            is_over: false,
        },
    }
}

/// The ends at which they heard.
fn ends_of(ears: Triple<Listener>) -> Triple<NoteOut>
    ensures { result ≡ outs_of ears }
{
    Triple {
        a: ears.a.out,
        b: ears.b.out,
        c: ears.c.out,
    }
}

/// Whether of each of three legs there are no more notes.
fn are_over(ears: &Triple<Listener>) -> bool
    ensures { result ≡ true → AreOver ears.now }
{
    ears.a.is_over && ears.b.is_over && ears.c.is_over
}

/// Whether each leg that is here is done.
fn are_done<E: Engine>(here: &Triple<Option<Teller<E>>>) -> bool
    ensures { result ≡ true → HoldAll IsAtEnd here.now }
{
    is_done_here(&here.a) && is_done_here(&here.b) && is_done_here(&here.c)
}

/// Whether a leg is done, where it is here.
fn is_done_here<E: Engine>(teller: &Option<Teller<E>>) -> bool
    ensures { result ≡ true → HoldsHere IsAtEnd teller.now }
{
    match teller {
        Some(teller) => teller.is_done(),
        None => true,
    }
}

/// Plays a scan of each leg that is here: one need of each in turn, until none is within a scan.
/// Then each tells its note.
fn play_scan<E: Engine, G: Gate, R: Wait>(rt: &R, here: &mut Triple<Option<Teller<E>>>, gate: &G)
    ensures { AreHere (TellsOn E.meaning) here.old here.new }
{
    serve_scan(rt, here, gate);
    tell_each(rt, here);
}

/// Serves one need of each leg that is here, and then of each that stands within a scan, until none
/// does.
fn serve_scan<E: Engine, G: Gate, R: Wait>(rt: &R, here: &mut Triple<Option<Teller<E>>>, gate: &G)
    ensures { AreHere (TellsOn E.meaning) here.old here.new }
{
    let mut may_begin = true;
    for _ in rt.forever() {
        if !serve_each(rt, here, gate, may_begin) {
            return;
        }
        may_begin = false;
    }
    unreachable!()
}

/// Serves one need of each leg that is here and stands within a scan, or begins one if it may.
/// Whether there was one.
fn serve_each<E: Engine, G: Gate, R: Wait>(
    rt: &R,
    here: &mut Triple<Option<Teller<E>>>,
    gate: &G,
    may_begin: bool,
) -> bool
    ensures { AreHere (TellsOn E.meaning) here.old here.new }
{
    let a = serve_here(rt, &mut here.a, gate, may_begin);
    let b = serve_here(rt, &mut here.b, gate, may_begin);
    let c = serve_here(rt, &mut here.c, gate, may_begin);
    a || b || c
}

/// The same of one leg.
#[tactic(auto, using(crate::proofs::Told::tells_self))]
fn serve_here<E: Engine, G: Gate, R: Wait>(
    rt: &R,
    teller: &mut Option<Teller<E>>,
    gate: &G,
    may_begin: bool,
) -> bool
    ensures { IsHere (TellsOn E.meaning) teller.old teller.new }
{
    let Some(teller) = teller else {
        return false;
    };
    if !may_begin && !teller.is_within() {
        return false;
    }
    teller.serve(rt, gate);
    true
}

/// Each leg that is here tells its next note.
fn tell_each<E: Engine, R: Wait>(rt: &R, here: &mut Triple<Option<Teller<E>>>)
    ensures { AreHere (TellsOn E.meaning) here.old here.new }
{
    tell_here(rt, &mut here.a);
    tell_here(rt, &mut here.b);
    tell_here(rt, &mut here.c);
}

/// The same of one leg.
fn tell_here<E: Engine, R: Wait>(rt: &R, teller: &mut Option<Teller<E>>)
    ensures { IsHere (TellsOn E.meaning) teller.old teller.new }
{
    if let Some(teller) = teller {
        teller.tell_next(rt);
    }
}
