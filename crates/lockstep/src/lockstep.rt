use crate::serving::{NotEnabled, can_serve, serve};
use engine_face::Engine;
use leg_core::LegRun;
use leg_packet::Packet;
use std::marker::Model;
use tri_base::{Leg, Triple};

/// The packets that a leg put on its sides, until they are taken.
#[derive(Drop)]
struct BoxPair {
    left: Option<Packet>,
    right: Option<Packet>,
}

/// Three legs and the boxes between them. What was put and taken fits with what the boxes hold.
#[derive(Drop)]
pub struct Lockstep<E: Engine> {
    legs: Triple<LegRun<E>>,
    boxes: Triple<BoxPair>,
}

impl<E: Engine> Model for Lockstep<E> {
    ghost use Rattle.leg_laws.specs.Exchanges.{Exchange};
    ghost use Rattle.leg_laws.specs.Counts.{IsCounted};

    ghost Value = { Exchange };

    ghost view = { λ s. record {
      legs = record { a = s.legs.a; b = s.legs.b; c = s.legs.c };
      boxes = record {
        a = record { left = s.boxes.a.left; right = s.boxes.a.right };
        b = record { left = s.boxes.b.left; right = s.boxes.b.right };
        c = record { left = s.boxes.c.left; right = s.boxes.c.right };
      };
    } };

    ghost invariant = { λ s. IsCounted (record {
      legs = record { a = s.legs.a; b = s.legs.b; c = s.legs.c };
      boxes = record {
        a = record { left = s.boxes.a.left; right = s.boxes.a.right };
        b = record { left = s.boxes.b.left; right = s.boxes.b.right };
        c = record { left = s.boxes.c.left; right = s.boxes.c.right };
      };
    }) };
}

impl<E: Engine> Lockstep<E> {
    ghost use Rattle.std.specs.Prelude.{◌≡◌, ◌↔◌, IfErr, IsNone, IsOk, OnErr, OnOk, true};
    ghost use Rattle.tri_base.specs.Legs.{leg_part};
    ghost use Rattle.leg_laws.specs.Configs.{need_of};
    ghost use Rattle.leg_laws.specs.Exchanges.{AllDone, can_step, first_enabled};
    ghost use Rattle.leg_laws.specs.ExchangeSteps.{ExchangeStep};
    ghost use Rattle.lockstep.specs.Following.{Follows, LeadsTo};
    ghost use Rattle.lockstep.specs.Refusals.{is_put};
    ghost use Rattle.lockstep.specs.Starting.{AreAtStart, no_packets};

    /// Empty boxes between three legs that have not begun. It takes no memory.
    pub fn start(legs: Triple<LegRun<E>>) -> Lockstep<E>
        requires { AreAtStart legs }
        ensures { result ≡ record { legs = legs; boxes = no_packets } }
    {
        Lockstep {
            legs,
            boxes: Triple {
                a: BoxPair {
                    left: None,
                    right: None,
                },
                b: BoxPair {
                    left: None,
                    right: None,
                },
                c: BoxPair {
                    left: None,
                    right: None,
                },
            },
        }
    }

    /// A leg serves its need. It is refused, and nothing changes, exactly where a put finds its box
    /// full, a take finds it empty, or the leg is done.
    pub fn step(&mut self, leg: Leg) -> Result<(), NotEnabled>
        ensures enabled { IsOk result ↔ (can_step self.old leg ≡ true) }
        ensures stepped { OnOk result (ExchangeStep E.meaning self.old leg self.new) }
        ensures refused { IfErr result (λ e.
            (e.need ≡ need_of (leg_part self.old.legs leg)) × (e.full ≡ is_put e.need)) }
        ensures unchanged { OnErr result (self.new ≡ self.old) }
    {
        let Triple { a, b, c } = &mut self.boxes;
        match leg {
            Leg::A => serve(
                &mut self.legs.a,
                &mut a.left,
                &mut a.right,
                &mut c.right,
                &mut b.left,
            ),
            Leg::B => serve(
                &mut self.legs.b,
                &mut b.left,
                &mut b.right,
                &mut a.right,
                &mut c.left,
            ),
            Leg::C => serve(
                &mut self.legs.c,
                &mut c.left,
                &mut c.right,
                &mut b.right,
                &mut a.left,
            ),
        }
    }

    /// The legs take turns by these letters. None where all were stepped; else the place from 0 of
    /// the first whose leg can't step there, and then the legs stand before it.
    pub fn follow(&mut self, letters: &[Leg]) -> Option<usize>
        ensures { Follows E.meaning self.old self.new letters.now result }
    {
        for (place, leg) in letters.iter().enumerate() {
            if self.step(*leg).is_err() {
                return Some(place);
            }
        }
        None
    }

    /// The first of A, B, C whose step is enabled; None exactly where all are done.
    pub fn next_leg(&self) -> Option<Leg>
        ensures first { result ≡ first_enabled self.now }
        ensures none { IsNone result ↔ AllDone self.now }
    {
        let _ = &self.legs;
        if self.can_step(Leg::A) {
            Some(Leg::A)
        } else if self.can_step(Leg::B) {
            Some(Leg::B)
        } else if self.can_step(Leg::C) {
            Some(Leg::C)
        } else {
            None
        }
    }

    /// Step by step, of the legs whose step is enabled the first goes on, until all are done.
    pub fn run(&mut self)
        ensures goes { LeadsTo E.meaning self.old self.new }
        ensures done { AllDone self.new }
    {
        'steps: while let Some(leg) = self.next_leg() {
            if self.step(leg).is_err() {
                unreachable!();
            }
        }
    }

    /// The three legs as they stand, each at its own place.
    pub fn finish(self) -> Triple<LegRun<E>>
        ensures { result ≡ self.legs }
    {
        self.legs
    }

    /// Whether a leg's step is enabled.
    fn can_step(&self, leg: Leg) -> bool
        ensures { result ≡ can_step self.now leg }
    {
        let Triple { a, b, c } = &self.boxes;
        match leg {
            Leg::A => can_serve(&self.legs.a, &a.left, &a.right, &c.right, &b.left),
            Leg::B => can_serve(&self.legs.b, &b.left, &b.right, &a.right, &c.left),
            Leg::C => can_serve(&self.legs.c, &c.left, &c.right, &b.right, &a.left),
        }
    }
}
