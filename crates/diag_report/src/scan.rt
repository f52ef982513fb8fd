ghost use Rattle.std.specs.Prelude.{◌≡◌, ◌++◌, [], ◌∷◌, IfOk, OnErr, OnOk, codes, pos};
ghost use Rattle.tri_base.specs.Rows.{KeepsRoom};
ghost use Rattle.fault_history.specs.AlarmTests.{alarms_of};
ghost use Rattle.fault_history.specs.Notes.{note_data};
ghost use Rattle.report_lines.specs.Lines.{line};
ghost use Rattle.diag_report.specs.ScanPart.{alarm_line, judgement_lines, scan_part_of, value_lines, verdict_lines};
ghost use Rattle.diag_report.specs.Report.{report_head};

use crate::count::push_count;
use crate::judgement::{push_judgement, push_verdict};
use chassis::Chassis;
use fault_history::{Alarms, Note, alarms_of};
use report_lines::{push_led_line, push_line};
use std::alloc::Global;
use tri_base::{Leg, NoMemory, Text, Words, push_bytes};

/// Adds the first line of the report, all of it or nothing.
pub fn write_head(text: &mut Text) -> Result<(), NoMemory>
    ensures text { OnOk result (text.new.list ≡ text.old.list ++ report_head) }
    ensures room { KeepsRoom text.old text.new }
    ensures refused { OnErr result (text.new ≡ text.old) }
{
    push_bytes(text, b"TRICON REPORT 1\n")
}

/// Adds a scan's part of the report, all of it or nothing, and answers the scan's alarms. Scans
/// are counted from 1. `a`, `b` and `c` are the legs' notes of the scan, and `out` is the vote of
/// their drives: one value for each output in the order of the chassis. No line of the part names
/// a point, so the chassis isn't looked at. It takes memory for the part twice.
pub fn write_scan(
    alloc: Global,
    scan: u32,
    _chassis: &Chassis,
    a: &Note,
    b: &Note,
    c: &Note,
    out: &Words,
    text: &mut Text,
) -> Result<Alarms, NoMemory>
    ensures text { OnOk result (text.new.list ≡ text.old.list
        ++ scan_part_of scan (note_data a.now) (note_data b.now) (note_data c.now) out.now.list) }
    ensures alarms { IfOk result (λ alarms. alarms
        ≡ alarms_of (note_data a.now) (note_data b.now) (note_data c.now) out.now.list) }
    ensures room { KeepsRoom text.old text.new }
    ensures refused { OnErr result (text.new ≡ text.old) }
{
    let alarms = alarms_of(a, b, c, out);
    let mut part = Text::new(alloc);
    push_scan(&mut part, scan, a, b, c, out, alarms)?;
    push_bytes(text, part.bytes())?;
    Ok(alarms)
}

/// Adds a scan's part with these alarms.
fn push_scan(
    text: &mut Text,
    scan: u32,
    a: &Note,
    b: &Note,
    c: &Note,
    out: &Words,
    alarms: Alarms,
) -> Result<(), NoMemory>
    requires { alarms
        ≡ alarms_of (note_data a.now) (note_data b.now) (note_data c.now) out.now.list }
    ensures { OnOk result (text.new.list ≡ text.old.list
        ++ scan_part_of scan (note_data a.now) (note_data b.now) (note_data c.now) out.now.list) }
{
    push_count(text, b"SCAN", scan)?;
    push_verdicts(text, a, b, c)?;
    push_values(text, a, out)?;
    push_judgements(text, a, b, c)?;
    push_alarms(text, alarms)
}

/// Adds the lines of the verdicts, where the scan has a download.
fn push_verdicts(text: &mut Text, a: &Note, b: &Note, c: &Note) -> Result<(), NoMemory>
    ensures { OnOk result (text.new.list ≡ text.old.list
        ++ verdict_lines (note_data a.now) (note_data b.now) (note_data c.now)) }
{
    push_verdict(text, Leg::A, &a.verdict)?;
    push_verdict(text, Leg::B, &b.verdict)?;
    push_verdict(text, Leg::C, &c.verdict)
}

/// Adds the lines of the inputs and outputs.
fn push_values(text: &mut Text, a: &Note, out: &Words) -> Result<(), NoMemory>
    ensures { OnOk result
        (text.new.list ≡ text.old.list ++ value_lines (note_data a.now) out.now.list) }
{
    push_led_line(text, b"IN", a.voted.dt, a.voted.values.items())?;
    push_line(text, b"OUT", out.items())
}

/// Adds the lines of what the legs were judged.
fn push_judgements(text: &mut Text, a: &Note, b: &Note, c: &Note) -> Result<(), NoMemory>
    ensures { OnOk result (text.new.list ≡ text.old.list
        ++ judgement_lines (note_data a.now) (note_data b.now) (note_data c.now)) }
{
    push_judgement(text, Leg::A, a.judged)?;
    push_judgement(text, Leg::B, b.judged)?;
    push_judgement(text, Leg::C, c.judged)
}

/// Adds the line of the alarms.
fn push_alarms(text: &mut Text, alarms: Alarms) -> Result<(), NoMemory>
    ensures { OnOk result (text.new.list ≡ text.old.list ++ alarm_line alarms) }
{
    let flags = [alarms.mp, alarms.input, alarms.output, alarms.arith];
    push_line(text, b"ALARMS", &flags.map(i64::from))
}
