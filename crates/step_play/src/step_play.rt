ghost use Rattle.std.specs.Prelude.{◌≡◌, None};
ghost use Rattle.std.specs.List.{All};
ghost use Rattle.chassis.specs.Ranges.{HoldsZero};
ghost use Rattle.play_report.specs.Played.{HavePlayed};
ghost use Rattle.step_play.specs.Stepping.{IsStepped, stuck_letter};

use crate::run::{step_legs, why_not};
use engine_face::Engine;
use leg_core::LegRun;
use plant_script::first_uncalm;
use play_report::{start_legs, write_report};
use script_text::Script;
use std::alloc::Global;
use tri_base::{NoMemory, Text, Triple};

/// A play to its end.
#[derive(Drop)]
pub struct Stepped {
    /// The report.
    pub text: Text,
    /// The first scan that isn't calm, counted from 1; None where all are.
    pub uncalm: Option<u32>,
}

/// Why there is no report.
#[derive(Clone, Copy, Debug, PartialEq, Eq)]
pub enum NotStepped {
    /// The leg of this letter of the schedule, counted from 1, can't step there: it has to put a
    /// packet into a full box, or to take one out of an empty box, or it is done.
    Stuck(u64),
    /// There is no memory.
    NoMemory,
}

/// Plays a script whose text builds by three legs in one thread: they step in the order of the
/// script's schedule, then the first that can, until all are done. The engine and each leg's own
/// are engines over the script's points with one meaning.
pub fn step_script<E: Engine>(
    alloc: Global,
    engine: &E,
    engines: Triple<E>,
    script: &Script,
) -> Result<Stepped, NotStepped>
    requires zeros { All HoldsZero script.now.value.points }
    requires points { E.points engine.now ≡ script.now.value.points }
    requires points_a { E.points engines.a ≡ script.now.value.points }
    requires points_b { E.points engines.b ≡ script.now.value.points }
    requires points_c { E.points engines.c ≡ script.now.value.points }
    requires builds { let v = script.now.value in (E.meaning v.points).builds v.text ≡ None }
    ensures { IsStepped E.meaning script.now.value result }
{
    let Ok(legs) = start_legs(alloc, engines, script) else {
        return Err(NotStepped::NoMemory);
    };
    let (legs, stuck) = step_legs(legs, script);
    let stepped = match why_not(&legs, stuck, script) {
        Some(fault) => Err(fault),
        None => report(alloc, engine, &legs, script),
    };
    // The prover is slow where three legs are dropped at once.
    let Triple { a, b, c } = legs;
    drop(a);
    drop(b);
    drop(c);
    stepped
}

/// The report of legs that have played a script to its end, and the first scan that isn't calm.
fn report<E: Engine>(
    alloc: Global,
    engine: &E,
    legs: &Triple<LegRun<E>>,
    script: &Script,
) -> Result<Stepped, NotStepped>
    requires zeros { All HoldsZero script.now.value.points }
    requires points { E.points engine.now ≡ script.now.value.points }
    requires builds { let v = script.now.value in (E.meaning v.points).builds v.text ≡ None }
    requires goes { stuck_letter E.meaning script.now.value ≡ None }
    requires played { let v = script.now.value in HavePlayed (E.meaning v.points) v legs.now }
    ensures { IsStepped E.meaning script.now.value result }
{
    let Ok(uncalm) = first_uncalm(alloc, script, engine) else {
        return Err(NotStepped::NoMemory);
    };
    let mut text = Text::new(alloc);
    match write_report(alloc, script, legs, uncalm, &mut text) {
        Ok(()) => Ok(Stepped { text, uncalm }),
        Err(NoMemory) => Err(NotStepped::NoMemory),
    }
}
