//! A leg that is worked at its post, and tells its notes over a link.

ghost use Rattle.std.specs.Prelude.{◌≡◌, ◌⊎◌, true, false, []};
ghost use Rattle.leg_laws.specs.declared.need.Need.TheVariants.{Done};
ghost use Rattle.leg_laws.specs.Configs.{is_starved, need_of};
ghost use Rattle.leg_workers.specs.Inner.Telling.{IsBack, TellerValue, TellsOn};

use crate::gate::Gate;
use crate::serving::serve;
use engine_face::Engine;
use leg_core::LegRun;
use leg_laws::Need;
use std::marker::Model;
use std::sync::Wait;
use tribus::{NoteIn, Post, Told};

/// A leg at its post, and the end of the link over which it tells its notes. Contracts see these,
/// and whether it told that there are no more.
#[derive(Drop)]
pub(crate) struct Teller<E: Engine> {
    pub(crate) leg: LegRun<E>,
    pub(crate) post: Post,
    pub(crate) told: NoteIn,
    pub(crate) is_over: bool,
}

impl<E: Engine> Model for Teller<E> {
    ghost use Rattle.leg_workers.specs.Inner.Telling.{TellerValue};

    ghost Value = { TellerValue };

    ghost view = { λ t. record { leg = t.leg; post = t.post; told = t.told; over = t.is_over } };
}

impl<E: Engine> Teller<E> {
    /// Serves the next need of the leg at its post.
    pub(crate) fn serve<G: Gate, R: Wait>(&mut self, rt: &R, gate: &G)
        ensures { TellsOn E.meaning self.old self.new }
    {
        serve(rt, &mut self.leg, &mut self.post, gate);
    }

    /// Whether the leg's last scan is over.
    pub(crate) fn is_done(&self) -> bool
        ensures { result ≡ true → need_of self.now.leg ≡ Done }
    {
        match self.leg.need() {
            Need::Done => true,
            _ => false,
        }
    }

    /// Whether the leg makes no note any more: it is starved, or done.
    fn makes_no_more(&self) -> bool
        ensures { result ≡ true
            → (is_starved self.now.leg ≡ true) ⊎ (need_of self.now.leg ≡ Done) }
    {
        self.leg.is_starved() || self.is_done()
    }

    /// Whether the leg stands within a scan, and not between two or behind the last one.
    pub(crate) fn is_within(&self) -> bool {
        self.leg.scan_begun().is_none() && !self.is_done()
    }

    /// Tells the leg's next note; where it has none and makes none any more, that there are no
    /// more, once.
    #[tactic(auto, using(crate::proofs::Told::tells_self))]
    pub(crate) fn tell_next<R: Wait>(&mut self, rt: &R)
        ensures { TellsOn E.meaning self.old self.new }
    {
        if self.is_over {
            return;
        }
        match self.leg.take_note() {
            Some(note) => self.told.tell(rt, Told::Scan(note)),
            None => self.tell_over(rt),
        }
    }

    /// Tells that there are no more notes, where the leg makes none any more.
    fn tell_over<R: Wait>(&mut self, rt: &R)
        requires over { self.old.over ≡ false }
        requires none { self.old.leg.notes ≡ [] }
        ensures { TellsOn E.meaning self.old self.new }
    {
        if self.makes_no_more() {
            self.told.tell(rt, Told::Over);
            self.is_over = true;
        }
    }

    /// The same, where the leg doesn't stand within a scan.
    #[tactic(auto, using(crate::proofs::Told::tells_self))]
    fn tell_between<R: Wait>(&mut self, rt: &R)
        ensures { TellsOn E.meaning self.old self.new }
    {
        if !self.is_within() {
            self.tell_next(rt);
        }
    }

    /// Works the leg until it is done, and tells its note of each scan at the scan's end, and in
    /// the end that there are no more.
    pub(crate) fn work<G: Gate, R: Wait>(&mut self, rt: &R, gate: &G)
        ensures { IsBack E.meaning self.old self.new }
    {
        for _ in rt.forever() {
            self.serve(rt, gate);
            self.tell_between(rt);
            if self.is_over && self.is_done() {
                return;
            }
        }
        unreachable!()
    }
}
