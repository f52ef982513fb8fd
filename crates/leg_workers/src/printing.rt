ghost use Rattle.std.specs.Prelude.{◌≡◌, OnErr, IfOk};
ghost use Rattle.tribus.specs.Posts.{AreAtTheirPlaces};
ghost use Rattle.tribus.specs.Settling.{KeepsLists, LosesNothing};
ghost use Rattle.leg_workers.specs.Printing.{PrintsOver};
ghost use Rattle.leg_workers.specs.Inner.Lines.{AreFronts, AreNotesOf, AreOpen};
ghost use Rattle.leg_workers.specs.Inner.Telling.{legs_of, posts_of, tellers_at, tolds_of};

use crate::gate::Gate;
use crate::playing::let_go;
use crate::printer::Printer;
use crate::printing_threads::{all_go, tell_threads};
use crate::telling::Teller;
use engine_face::Engine;
use leg_core::LegRun;
use std::alloc::Global;
use std::sync::Wait;
use std::thread::Threads;
use tri_base::{NoMemory, Triple};
use tribus::{Bus, NoteIn, NoteLink, NoteOut, Post, Settled, open_bus};

/// Plays three legs over a bus, each worked by a thread of its own where one can be started, and
/// settles the bus; without a thread for a leg the caller works it. While they play it hands the
/// printer each scan of which all three legs made a note, in order. At NoMemory the bus or the
/// links of the notes found none; the legs are let go, and nothing is printed.
pub fn play_printed<E: Engine + Send, G: Gate + Sync, P: Printer, R: Threads + Wait + Sync>(
    rt: &R,
    alloc: Global,
    legs: Triple<LegRun<E>>,
    gate: &G,
    printer: &mut P,
) -> Result<(Triple<LegRun<E>>, Settled), NoMemory>
where
    E::Program: Send,
    ensures played { IfOk result
        (λ r. PrintsOver P.After E.meaning legs r.0 r.1 printer.old printer.new) }
    ensures refused { OnErr result (printer.new ≡ printer.old) }
{
    let Triple { a, b, c } = legs;
    match open_lines(alloc) {
        Ok(lines) => Ok(print_over(rt, lines, Triple { a, b, c }, gate, printer)),
        Err(error) => {
            let_go(a);
            let_go(b);
            let_go(c);
            Err(error)
        }
    }
}

/// A bus, and for each leg a link over which it tells its notes, with all their ends.
#[derive(Drop)]
struct Lines {
    bus: Bus,
    posts: Triple<Post>,
    links: Triple<NoteLink>,
    ins: Triple<NoteIn>,
    outs: Triple<NoteOut>,
}

/// A bus and three links that are new.
fn open_lines(alloc: Global) -> Result<Lines, NoMemory>
    ensures { IfOk result AreOpen }
{
    let (bus, posts) = open_bus(alloc)?;
    let (link_a, in_a, out_a) = NoteLink::make(alloc)?;
    let (link_b, in_b, out_b) = NoteLink::make(alloc)?;
    let (link_c, in_c, out_c) = NoteLink::make(alloc)?;
    Ok(Lines {
        bus,
        posts,
        links: Triple {
            a: link_a,
            b: link_b,
            c: link_c,
        },
        ins: Triple {
            a: in_a,
            b: in_b,
            c: in_c,
        },
        outs: Triple {
            a: out_a,
            b: out_b,
            c: out_c,
        },
    })
}

/// Plays the legs over lines that are new, prints their scans, and settles the bus.
fn print_over<E: Engine + Send, G: Gate + Sync, P: Printer, R: Threads + Wait + Sync>(
    rt: &R,
    lines: Lines,
    legs: Triple<LegRun<E>>,
    gate: &G,
    printer: &mut P,
) -> (Triple<LegRun<E>>, Settled)
where
    E::Program: Send,
    requires { AreOpen lines }
    ensures { PrintsOver P.After E.meaning legs result.0 result.1 printer.old printer.new }
{
    let Lines {
        bus,
        posts,
        links,
        ins,
        outs,
    } = lines;
    let scans = legs.a.scans();
    let tellers = tellers_at(legs, posts, ins);
    let stay = all_go();
    let (tellers, outs) = tell_threads(rt, &stay, tellers, outs, gate, scans, printer);
    settle(rt, bus, links, tellers, outs)
}

/// Three legs at their posts, which have told nothing.
fn tellers_at<E: Engine>(
    legs: Triple<LegRun<E>>,
    posts: Triple<Post>,
    ins: Triple<NoteIn>,
) -> Triple<Teller<E>>
    ensures { result ≡ tellers_at legs posts ins }
{
    Triple {
        a: Teller {
            leg: legs.a,
            post: posts.a,
            told: ins.a,
            is_over: false,
        },
        b: Teller {
            leg: legs.b,
            post: posts.b,
            told: ins.b,
            is_over: false,
        },
        c: Teller {
            leg: legs.c,
            post: posts.c,
            told: ins.c,
            is_over: false,
        },
    }
}

/// Settles the bus and the three links: what was heard on each link is the beginning of what was
/// told.
fn settle<E: Engine, R: Wait>(
    rt: &R,
    bus: Bus,
    links: Triple<NoteLink>,
    tellers: Triple<Teller<E>>,
    outs: Triple<NoteOut>,
) -> (Triple<LegRun<E>>, Settled)
    requires places { AreAtTheirPlaces bus (posts_of tellers) }
    requires links { AreNotesOf links (tolds_of tellers) outs }
    ensures legs { result.0 ≡ legs_of tellers }
    ensures lists { KeepsLists (posts_of tellers) result.1 }
    ensures whole { LosesNothing result.1 }
    ensures fronts { AreFronts outs (tolds_of tellers) }
{
    let Triple { a, b, c } = tellers;
    let (leg_a, post_a, told_a) = apart(a);
    let (leg_b, post_b, told_b) = apart(b);
    let (leg_c, post_c, told_c) = apart(c);
    let _a = links.a.settle(rt, told_a, outs.a);
    let _b = links.b.settle(rt, told_b, outs.b);
    let _c = links.c.settle(rt, told_c, outs.c);
    let posts = Triple {
        a: post_a,
        b: post_b,
        c: post_c,
    };
    let legs = Triple {
        a: leg_a,
        b: leg_b,
        c: leg_c,
    };
    (legs, bus.settle(rt, posts))
}

/// A leg, its post, and the end of its link.
fn apart<E: Engine>(teller: Teller<E>) -> (LegRun<E>, Post, NoteIn)
    ensures { result ≡ (teller.leg, teller.post, teller.told) }
{
    let Teller {
        leg,
        post,
        told,
        is_over: _,
    } = teller;
    (leg, post, told)
}
