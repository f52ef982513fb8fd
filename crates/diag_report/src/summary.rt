ghost use Rattle.std.specs.Prelude.{◌≡◌, ◌++◌, OnErr, OnOk};
ghost use Rattle.tri_base.specs.Rows.{KeepsRoom};
ghost use Rattle.diag_report.specs.Summary.{counts_of, summary_of};

use crate::count::push_count;
use report_lines::{push_calm, push_led_line, push_line};
use std::alloc::Global;
use tri_base::{NoMemory, Text, push_bytes};

/// Adds the summary of a play of the three legs, all of it or nothing: the number of scans, the
/// sum of all values of all outputs, the number of scans with the alarm MP, and the first scan that
/// wasn't calm. It takes memory for the summary twice.
pub fn write_summary(
    alloc: Global,
    scans: u32,
    sum: i64,
    alarmed: u32,
    uncalm: Option<u32>,
    text: &mut Text,
) -> Result<(), NoMemory>
    ensures text { OnOk result
        (text.new.list ≡ text.old.list ++ summary_of scans sum alarmed uncalm) }
    ensures room { KeepsRoom text.old text.new }
    ensures refused { OnErr result (text.new ≡ text.old) }
{
    let mut whole = Text::new(alloc);
    push_counts(&mut whole, scans, sum, alarmed)?;
    push_calm(&mut whole, uncalm)?;
    push_line(&mut whole, b"END", &[])?;
    push_bytes(text, whole.bytes())
}

/// Adds the lines up to that of the number of scans with the alarm MP.
fn push_counts(text: &mut Text, scans: u32, sum: i64, alarmed: u32) -> Result<(), NoMemory>
    ensures { OnOk result (text.new.list ≡ text.old.list ++ counts_of scans sum alarmed) }
{
    push_bytes(text, b"TRICON SUMMARY 1\n")?;
    push_count(text, b"SCANS", scans)?;
    push_led_line(text, b"SUM", sum, &[])?;
    push_count(text, b"ALARMED", alarmed)
}
