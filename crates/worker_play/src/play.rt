ghost use Rattle.std.specs.Prelude.{◌≡◌, None, IfOk};
ghost use Rattle.play_report.specs.Played.{HavePlayed};

use engine_face::Engine;
use leg_core::LegRun;
use leg_workers::{Gate, play_legs};
use play_report::{some_leg_starves, start_legs};
use script_text::Script;
use std::alloc::Global;
use std::sync::Wait;
use std::thread::Threads;
use tri_base::{NoMemory, Triple};

/// Plays a script whose text builds by three legs to its end, each worked by a thread of its own
/// where one can be started. Each leg has an engine of its own over the script's points. NoMemory
/// comes too where a leg found none; the legs are let go then.
pub fn play_script<E: Engine + Send, G: Gate + Sync, R: Threads + Wait + Sync>(
    rt: &R,
    alloc: Global,
    engines: Triple<E>,
    script: &Script,
    gate: &G,
) -> Result<Triple<LegRun<E>>, NoMemory>
where
    E::Program: Send,
    requires points_a { E.points engines.a ≡ script.now.value.points }
    requires points_b { E.points engines.b ≡ script.now.value.points }
    requires points_c { E.points engines.c ≡ script.now.value.points }
    requires builds { let v = script.now.value in (E.meaning v.points).builds v.text ≡ None }
    ensures { let v = script.now.value in
        IfOk result (λ legs. HavePlayed (E.meaning v.points) v legs) }
{
    let legs = start_legs(alloc, engines, script)?;
    let (legs, _settled) = play_legs(rt, alloc, legs, gate)?;
    if some_leg_starves(&legs) {
        let Triple { a, b, c } = legs;
        let_go(a);
        let_go(b);
        let_go(c);
        return Err(NoMemory);
    }
    Ok(legs)
}

/// Lets a value go. A leg is large, and its parts need not be looked at where it goes.
fn let_go<T: Drop>(_value: T) {}
