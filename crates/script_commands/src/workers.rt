ghost use Rattle.std.specs.Prelude.{◌≡◌, ◌++◌, None, OnOk};
ghost use Rattle.std.specs.List.{All};
ghost use Rattle.chassis.specs.Ranges.{HoldsZero};
ghost use Rattle.plant_script.specs.FirstRefused.{first_refused_of};
ghost use Rattle.play_report.specs.Played.{HavePlayed};
ghost use Rattle.script_commands.specs.declared.script_command.ScriptCommand.TheVariants.{Play};
ghost use Rattle.script_commands.specs.Outputs.{play_output};
ghost use Rattle.script_commands.specs.Playing.{IsPlayed};

use crate::blocks::check_blocks;
use crate::script_command::{Output, PlayCommand, Refused};
use engine_face::Engine;
use leg_core::LegRun;
use leg_workers::Gate;
use plant_script::{Script, first_uncalm};
use play_report::write_report;
use play_texts::{write_play_events, write_play_replies, write_play_summary};
use std::alloc::Global;
use std::sync::Wait;
use std::thread::Threads;
use tri_base::{NoMemory, Text, Triple};
use worker_play::play_script;

#[tactic(auto, using(crate::proofs::Firsts::text_builds))]
/// What a command writes of a script that three legs play, each on a thread of its own where one
/// can be started; or the first of the script's TEXT and SWAP blocks that the engine doesn't build.
/// The engines are over the script's points, and each leg has one of its own.
pub fn play_workers<E: Engine + Send, G: Gate + Sync, R: Threads + Wait + Sync>(
    rt: &R,
    alloc: Global,
    command: PlayCommand,
    engine: &E,
    engines: Triple<E>,
    script: &Script,
    gate: &G,
) -> Result<Output, Refused>
where
    E::Program: Send,
    requires zeros { All HoldsZero (E.points engine.now) }
    requires points { E.points engine.now ≡ script.now.value.points }
    requires points_a { E.points engines.a ≡ script.now.value.points }
    requires points_b { E.points engines.b ≡ script.now.value.points }
    requires points_c { E.points engines.c ≡ script.now.value.points }
    ensures { IsPlayed (Play command) E.meaning script.now result }
{
    check_blocks(alloc, engine, script)?;
    let Ok(legs) = play_script(rt, alloc, engines, script, gate) else {
        return Err(Refused::NoMemory);
    };
    let output = play_output(alloc, command, engine, script, &legs);
    // The prover is slow where three legs are dropped at once.
    let Triple { a, b, c } = legs;
    drop(a);
    drop(b);
    drop(c);
    output
}

/// What a command writes of legs that have played a script.
fn play_output<E: Engine>(
    alloc: Global,
    command: PlayCommand,
    engine: &E,
    script: &Script,
    legs: &Triple<LegRun<E>>,
) -> Result<Output, Refused>
    requires zeros { All HoldsZero (E.points engine.now) }
    requires points { E.points engine.now ≡ script.now.value.points }
    requires builds { first_refused_of (E.meaning (E.points engine.now)) script.now ≡ None }
    requires played { let v = script.now.value in HavePlayed (E.meaning v.points) v legs.now }
    ensures { IsPlayed (Play command) E.meaning script.now result }
{
    let Ok(uncalm) = first_uncalm(alloc, script, engine) else {
        return Err(Refused::NoMemory);
    };
    let mut text = Text::new(alloc);
    match write_played(alloc, command, script, legs, uncalm, &mut text) {
        Ok(()) => Ok(Output { text, uncalm }),
        Err(NoMemory) => Err(Refused::NoMemory),
    }
}

/// Adds what a command writes of legs that have played a script.
fn write_played<E: Engine>(
    alloc: Global,
    command: PlayCommand,
    script: &Script,
    legs: &Triple<LegRun<E>>,
    uncalm: Option<u32>,
    text: &mut Text,
) -> Result<(), NoMemory>
    requires { let v = script.now.value in HavePlayed (E.meaning v.points) v legs.now }
    ensures { let v = script.now.value in OnOk result
        (text.new.list ≡ text.old.list ++ play_output command (E.meaning v.points) v uncalm) }
{
    match command {
        PlayCommand::Report => write_report(alloc, script, legs, uncalm, text),
        PlayCommand::Summary => write_play_summary(alloc, script, legs, uncalm, text),
        PlayCommand::Events => write_play_events(alloc, script, legs, uncalm, text),
        PlayCommand::Modbus => write_play_replies(alloc, script, legs, uncalm, text),
    }
}
