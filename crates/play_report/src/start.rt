ghost use Rattle.std.specs.Prelude.{◌≡◌, None, IfOk};
ghost use Rattle.leg_laws.specs.ExchangeSteps.{exchange_at_start, leg_at_start};
ghost use Rattle.leg_laws.specs.Plays.{play_of};

use engine_face::Engine;
use leg_core::LegRun;
use plant_script::built;
use script_text::Script;
use std::alloc::Global;
use tri_base::{Leg, NoMemory, Triple};

/// Three legs before the first scan of a script whose text builds. Each has an engine of its own,
/// over the script's points. At NoMemory the engines are dropped.
pub fn start_legs<E: Engine>(
    alloc: Global,
    engines: Triple<E>,
    script: &Script,
) -> Result<Triple<LegRun<E>>, NoMemory>
    requires points_a { E.points engines.a ≡ script.now.value.points }
    requires points_b { E.points engines.b ≡ script.now.value.points }
    requires points_c { E.points engines.c ≡ script.now.value.points }
    requires builds { let v = script.now.value in (E.meaning v.points).builds v.text ≡ None }
    ensures { let v = script.now.value in
        IfOk result (λ legs. legs ≡ (exchange_at_start (E.meaning v.points) (play_of v)).legs) }
{
    let Triple { a, b, c } = engines;
    let a = start_leg(alloc, Leg::A, a, script)?;
    let b = start_leg(alloc, Leg::B, b, script)?;
    let c = start_leg(alloc, Leg::C, c, script)?;
    Ok(Triple { a, b, c })
}

/// A leg before the first scan of a script.
fn start_leg<E: Engine>(
    alloc: Global,
    leg: Leg,
    engine: E,
    script: &Script,
) -> Result<LegRun<E>, NoMemory>
    requires points { E.points engine ≡ script.now.value.points }
    requires builds { let v = script.now.value in (E.meaning v.points).builds v.text ≡ None }
    ensures { let v = script.now.value in
        IfOk result (λ run. run ≡ leg_at_start (E.meaning v.points) (play_of v) leg) }
{
    let program = built(alloc, &engine, script.text())?;
    let chassis = script.chassis().copy(alloc)?;
    let tape = script.tape(alloc, leg)?;
    LegRun::start(alloc, leg, engine, chassis, program, tape)
}
