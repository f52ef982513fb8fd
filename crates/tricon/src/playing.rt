//! What makes an output of the bytes of a script that three threads play.

ghost use Rattle.std.specs.Prelude.{◌≤◌, length};
ghost use Rattle.script_commands.specs.declared.script_command.ScriptCommand.TheVariants.{Play};
ghost use Rattle.tricon.specs.declared.command.Command.TheVariants.{Script};
ghost use Rattle.tricon.specs.CommandRuns.{script_limit};
ghost use Rattle.tricon.specs.Inner.Outcomes.{IsOutcome};

use crate::players::{engine_for, engines_for, script_of, told};
use crate::status::Status;
use leg_workers::Gate;
use script_commands::{Output, PlayCommand, ScriptCommand, play_workers};
use std::alloc::Global;
use std::sync::Wait;
use std::thread::Threads;
use tri_base::Text;

/// What a command of three threads makes of bytes, or the status that tells why there is nothing.
#[tactic(auto, using(crate::proofs::Unspelled::unspelled))]
pub(crate) fn play_outcome<G: Gate + Sync, R: Threads + Wait + Sync>(
    rt: &R,
    alloc: Global,
    command: PlayCommand,
    text: &Text,
    gate: &G,
) -> Result<Output, Status>
    requires { length text.now.list ≤ script_limit }
    ensures { IsOutcome (Script (Play command)) text.now.list result }
{
    let script = script_of(alloc, text)?;
    let Ok(engine) = engine_for(alloc, &script) else {
        return Err(Status::NoMemory);
    };
    let Ok(engines) = engines_for(alloc, &script) else {
        return Err(Status::NoMemory);
    };
    let played = play_workers(rt, alloc, command, &engine, engines, &script, gate);
    told(ScriptCommand::Play(command), text, &script, played)
}
