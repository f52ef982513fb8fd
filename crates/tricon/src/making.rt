ghost use Rattle.std.specs.Prelude.{◌≡◌, ◌≢◌, ◌≤◌, IfOk};
ghost use Rattle.tri_base.specs.Limits.{scan_limit};
ghost use Rattle.tricon.specs.CommandRuns.{IsSilent, MakerSays, made_text, stream};

use crate::status::Status;
use script_maker::make_script;
use script_writer::write_script;
use std::alloc::Global;
use tri_base::{NoMemory, Text};
use tri_io::{Sink, write_all};

// Writes the generated script of a number.
pub(crate) fn run_make<K: Sink>(alloc: Global, number: u32, scans: u32, sink: &mut K) -> Status
    requires { (1 ≤ scans) × (scans ≤ scan_limit) }
    ensures makes { MakerSays number scans
        (stream (K.taken sink.old) (K.taken sink.new) (K.faults sink.old) (K.faults sink.new))
        result }
    ensures silent { IsSilent result → sink.new ≡ sink.old }
    ensures sink_steady { result ≢ Status.WriteFault → K.faults sink.new ≡ K.faults sink.old }
    ensures sink_never_falls { K.faults sink.old ≤ K.faults sink.new }
{
    let Ok(text) = generated_text(alloc, number, scans) else {
        return Status::NoMemory;
    };
    match write_all(sink, text.bytes()) {
        Ok(()) => Status::Done,
        Err(_) => Status::WriteFault,
    }
}

// The text of the generated script of a number.
fn generated_text(alloc: Global, number: u32, scans: u32) -> Result<Text, NoMemory>
    requires { (1 ≤ scans) × (scans ≤ scan_limit) }
    ensures { IfOk result (λ text. text.list ≡ made_text number scans) }
{
    let script = make_script(alloc, number, scans)?;
    let mut text = Text::new(alloc);
    write_script(alloc, &script, &mut text)?;
    Ok(text)
}
