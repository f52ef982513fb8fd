ghost use Rattle.std.specs.Prelude.{◌≡◌, Some, ℕ};
ghost use Rattle.tricon.specs.Commands.{bytes_of, command_of, station_command_of};
ghost use Rattle.tricon.specs.CommandRuns.{IsSilent, Runs, stream};

use crate::at_desk::desk;
use crate::command::{Command, read_play};
use crate::running::run_play;
use crate::status::Status;
use leg_workers::Gate;
use std::alloc::Global;
use std::sync::Wait;
use std::thread::Threads;
use tri_base::Text;
use tri_io::{Sink, Source};

/// Does what the words ask: those after the program's name. `play` reads a script from the source,
/// plays it by three legs, each on a thread of its own where one can be started, and writes their
/// report; `play summary`, `play events` and `play modbus` play it too and write the summary, the
/// sequence of events and the replies to Modbus requests. All other words go to `desk`.
///
/// Each leg passes the gate before each scan.
pub fn station<G: Gate + Sync, R: Threads + Wait + Sync, S: Source, K: Sink>(
    rt: &R,
    alloc: Global,
    words: &[Text],
    source: &mut S,
    sink: &mut K,
    gate: &G,
) -> Status
    ensures runs { Runs (station_command_of (bytes_of words.now))
        (stream (S.left source.old) (S.left source.new)
        (S.faults source.old) (S.faults source.new))
        (stream (K.taken sink.old) (K.taken sink.new) (K.faults sink.old) (K.faults sink.new))
        result }
    ensures usage_reads_nothing { result ≡ Status.Usage → source.new ≡ source.old }
    ensures silent { IsSilent result → sink.new ≡ sink.old }
    ensures make_reads_nothing { (number scans : ℕ)
        → station_command_of (bytes_of words.now) ≡ Some (Command.Make number scans)
        → source.new ≡ source.old }
{
    match read_play(words) {
        Some(command) => run_play(rt, alloc, command, source, sink, gate),
        None => desk(alloc, words, source, sink),
    }
}
