ghost use Rattle.std.specs.Prelude.{◌≡◌};
ghost use Rattle.script_commands.specs.declared.script_command.ScriptCommand.TheVariants.{Play};
ghost use Rattle.tricon.specs.declared.command.Command.TheVariants.{Script};
ghost use Rattle.tricon.specs.CommandRuns.{IsSilent, ended, stream};
ghost use Rattle.tricon.specs.Inner.Outcomes.{RunsReader};

use crate::players::Player;
use crate::playing::play_outcome;
use crate::status::Status;
use leg_workers::Gate;
use script_commands::PlayCommand;
use std::alloc::Global;
use std::sync::Wait;
use std::thread::Threads;
use tri_io::{ReadAll, Sink, Source, read_all, write_all};

// How many bytes a script or a matrix may have.
const SCRIPT_LIMIT: usize = 1_048_576;

// Reads the source to its end, and writes what the player makes of its bytes.
#[tactic(auto, using(crate::proofs::Runs::all_are_a_front))]
pub(crate) fn run_reader<P: Player, S: Source, K: Sink>(
    alloc: Global,
    player: &P,
    source: &mut S,
    sink: &mut K,
) -> Status
    ensures runs { RunsReader (P.command player.now)
        (stream (S.left source.old) (S.left source.new) (S.faults source.old) (S.faults source.new))
        (stream (K.taken sink.old) (K.taken sink.new) (K.faults sink.old) (K.faults sink.new))
        result }
    ensures silent { IsSilent result → sink.new ≡ sink.old }
{
    let text = match read_all(alloc, source, SCRIPT_LIMIT) {
        Ok(text) => text,
        Err(ReadAll::Failed) => return Status::ReadFault,
        Err(ReadAll::TooLong) => return Status::ScriptTooLong,
        Err(ReadAll::NoMemory) => return Status::NoMemory,
    };
    let output = match player.outcome(alloc, &text) {
        Ok(output) => output,
        Err(status) => return status,
    };
    match write_all(sink, output.text.bytes()) {
        Ok(()) => ended(output.uncalm),
        Err(_) => Status::WriteFault,
    }
}

// Reads the source to its end, and writes what a command of three threads makes of its bytes.
#[tactic(auto, using(crate::proofs::Runs::all_are_a_front))]
pub(crate) fn run_play<G: Gate + Sync, R: Threads + Wait + Sync, S: Source, K: Sink>(
    rt: &R,
    alloc: Global,
    command: PlayCommand,
    source: &mut S,
    sink: &mut K,
    gate: &G,
) -> Status
    ensures runs { RunsReader (Script (Play command))
        (stream (S.left source.old) (S.left source.new) (S.faults source.old) (S.faults source.new))
        (stream (K.taken sink.old) (K.taken sink.new) (K.faults sink.old) (K.faults sink.new))
        result }
    ensures silent { IsSilent result → sink.new ≡ sink.old }
{
    let text = match read_all(alloc, source, SCRIPT_LIMIT) {
        Ok(text) => text,
        Err(ReadAll::Failed) => return Status::ReadFault,
        Err(ReadAll::TooLong) => return Status::ScriptTooLong,
        Err(ReadAll::NoMemory) => return Status::NoMemory,
    };
    let output = match play_outcome(rt, alloc, command, &text, gate) {
        Ok(output) => output,
        Err(status) => return status,
    };
    match write_all(sink, output.text.bytes()) {
        Ok(()) => ended(output.uncalm),
        Err(_) => Status::WriteFault,
    }
}

// The status with which the output is there whole.
fn ended(uncalm: Option<u32>) -> Status
    ensures { result ≡ ended uncalm }
{
    match uncalm {
        None => Status::Done,
        Some(scan) => Status::DoneNotCalm { scan },
    }
}
