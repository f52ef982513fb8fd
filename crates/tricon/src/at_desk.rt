ghost use Rattle.std.specs.Prelude.{◌≡◌, ◌≢◌, ◌<◌, ◌≤◌, ◌⊎◌, ℕ, Some};
ghost use Rattle.tricon.specs.Commands.{bytes_of, command_of};
ghost use Rattle.tricon.specs.CommandRuns.{IsSilent, Runs, stream};

use crate::command::{Command, read_command};
use crate::making::run_make;
use crate::players::{MatrixPlayer, SinglePlayer, StepPlayer};
use crate::running::run_reader;
use crate::status::Status;
use script_commands::ScriptCommand;
use std::alloc::Global;
use tri_base::Text;
use tri_io::{Sink, Source};

/// Does what the words ask: those after the program's name. `solo`, `solo summary`, `check`
/// and `step` read a script from the source and write what they make of it; `matrix` reads a cause
/// and effect matrix and writes its program; `make NUMBER SCANS` writes a generated script and
/// reads nothing. Words that begin with `play` are no command here: `station` takes them.
///
/// Nothing is written before all is made, and then it goes out in pieces of 4,096 bytes.
pub fn desk<S: Source, K: Sink>(
    alloc: Global,
    words: &[Text],
    source: &mut S,
    sink: &mut K,
) -> Status
    ensures runs { Runs (command_of (bytes_of words.now))
        (stream (S.left source.old) (S.left source.new)
        (S.faults source.old) (S.faults source.new))
        (stream (K.taken sink.old) (K.taken sink.new) (K.faults sink.old) (K.faults sink.new))
        result }
    ensures usage_reads_nothing { result ≡ Status.Usage → source.new ≡ source.old }
    ensures silent { IsSilent result → sink.new ≡ sink.old }
    ensures make_reads_nothing { (number scans : ℕ)
        → command_of (bytes_of words.now) ≡ Some (Command.Make number scans)
        → source.new ≡ source.old }
{
    match read_command(words) {
        None => Status::Usage,
        Some(Command::Script(ScriptCommand::Single(command))) => {
            run_reader(alloc, &SinglePlayer { command }, source, sink)
        }
        Some(Command::Script(ScriptCommand::Step)) => {
            run_reader(alloc, &StepPlayer {}, source, sink)
        }
        Some(Command::Script(ScriptCommand::Play(_))) => unreachable!(),
        Some(Command::Matrix) => run_reader(alloc, &MatrixPlayer {}, source, sink),
        Some(Command::Make { number, scans }) => run_make(alloc, number, scans, sink),
    }
}
