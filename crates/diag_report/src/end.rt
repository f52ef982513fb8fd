ghost use Rattle.std.specs.Prelude.{◌≡◌, ◌++◌, [], ◌∷◌, OnErr, OnOk, Some, codes, length, option_map, pos, slice_get};
ghost use Rattle.std.specs.List.{flat_map};
ghost use Rattle.std.specs.Fmt.{signed_decimal};
ghost use Rattle.tri_base.specs.Rows.{KeepsRoom};
ghost use Rattle.chassis.specs.Points.{inputs_of};
ghost use Rattle.fault_history.specs.Notes.{ending_data};
ghost use Rattle.report_lines.specs.Lines.{line};
ghost use Rattle.report_lines.specs.Refusals.{named};
ghost use Rattle.diag_report.specs.Judgements.{leg_letter};
ghost use Rattle.diag_report.specs.EndPart.{end_part_of, entry_line, final_line, final_lines, history_lines, mark_line, mark_lines, point_name};

use crate::count::push_count;
use crate::judgement::{push_judged, push_letter, push_lettered};
use chassis::{Chassis, is_input};
use fault_history::{Ending, Entry, History};
use report_lines::{push_calm, push_led_line, push_line, push_spaced};
use std::alloc::Global;
use tri_base::{Leg, NoMemory, Point, Text, Words, push_bytes, push_number};

/// Adds the part of the report behind the last scan, all of it or nothing. `history` is that of
/// the whole play. Each of the `marks` is the place of an input among the inputs of the chassis,
/// counted from 0, and a leg that has a mark there; they are told in their order, and their number
/// with them. `a`, `b` and `c` are how the legs stand, and `uncalm` is the first scan that wasn't
/// calm. It takes memory for the part twice.
pub fn write_end(
    alloc: Global,
    history: &History,
    marks: &[(usize, Leg)],
    chassis: &Chassis,
    a: Ending,
    b: Ending,
    c: Ending,
    uncalm: Option<u32>,
    text: &mut Text,
) -> Result<(), NoMemory>
    ensures text { OnOk result (text.new.list ≡ text.old.list ++ end_part_of chassis.now history.now
        marks.now (ending_data a.entry) (ending_data b.entry) (ending_data c.entry) uncalm) }
    ensures room { KeepsRoom text.old text.new }
    ensures refused { OnErr result (text.new ≡ text.old) }
{
    let mut part = Text::new(alloc);
    push_history(&mut part, history)?;
    push_marks(&mut part, chassis.points(), marks)?;
    push_finals(&mut part, a, b, c)?;
    push_calm(&mut part, uncalm)?;
    push_line(&mut part, b"END", &[])?;
    push_bytes(text, part.bytes())
}

/// Adds the line of the history's length, and its entries.
fn push_history(text: &mut Text, history: &History) -> Result<(), NoMemory>
    ensures { OnOk result (text.new.list ≡ text.old.list ++ history_lines history.now) }
{
    push_led_line(text, b"HISTORY", history.len() as i64, &[])?;
    push_entries(text, history)
}

/// Adds the lines of the history's entries.
fn push_entries(text: &mut Text, history: &History) -> Result<(), NoMemory>
    ensures { OnOk result (text.new.list ≡ text.old.list ++ flat_map entry_line history.now) }
{
    for place in 0..history.len() {
        match history.at(place) {
            Some(entry) => push_entry(text, &entry)?,
            None => unreachable!(),
        }
    }
    Ok(())
}

/// Adds the line of an entry of the history.
fn push_entry(text: &mut Text, entry: &Entry) -> Result<(), NoMemory>
    ensures { OnOk result (text.new.list ≡ text.old.list ++ entry_line entry.now) }
{
    push_number(text, i64::from(entry.scan))?;
    push_letter(text, entry.leg)?;
    push_bytes(text, b" ")?;
    push_judged(text, entry.judged)?;
    push_bytes(text, b"\n")
}

/// Adds the line of how many marks there are, and the marks.
fn push_marks(text: &mut Text, points: &[Point], marks: &[(usize, Leg)]) -> Result<(), NoMemory>
    ensures { OnOk result (text.new.list ≡ text.old.list ++ mark_lines points.now marks.now) }
{
    push_led_line(text, b"MARKS", marks.len() as i64, &[])?;
    push_mark_lines(text, points, marks)
}

/// Adds the lines of marks.
fn push_mark_lines(
    text: &mut Text,
    points: &[Point],
    marks: &[(usize, Leg)],
) -> Result<(), NoMemory>
    ensures { OnOk result
        (text.new.list ≡ text.old.list ++ flat_map (mark_line points.now) marks.now) }
{
    for mark in marks {
        push_mark(text, points, mark)?;
    }
    Ok(())
}

/// Adds the line of a mark.
fn push_mark(text: &mut Text, points: &[Point], mark: &(usize, Leg)) -> Result<(), NoMemory>
    ensures { OnOk result (text.new.list ≡ text.old.list ++ mark_line points.now mark.now) }
{
    push_bytes(text, b"MARK ")?;
    push_bytes(text, input_name(points, mark.0))?;
    push_letter(text, mark.1)?;
    push_bytes(text, b"\n")
}

/// The name of the input at a place among the inputs; nothing past the last one.
fn input_name(points: &[Point], place: usize) -> &[u8]
    ensures { result.now ≡ point_name (slice_get (inputs_of points.now) place) }
{
    match input_at(points, place) {
        Some(point) => point.name.bytes(),
        None => b"",
    }
}

/// The input at a place among the inputs; None exactly past the last one.
fn input_at(points: &[Point], place: usize) -> Option<&Point>
    ensures { option_map (λ point. point.now) result ≡ slice_get (inputs_of points.now) place }
{
    points
        .iter()
        .filter(|point| is_input(point.kind))
        .nth(place)
}

/// Adds the lines of how the legs stand.
fn push_finals(text: &mut Text, a: Ending, b: Ending, c: Ending) -> Result<(), NoMemory>
    ensures { OnOk result (text.new.list ≡ text.old.list
        ++ final_lines (ending_data a.entry) (ending_data b.entry) (ending_data c.entry)) }
{
    push_final(text, Leg::A, a)?;
    push_final(text, Leg::B, b)?;
    push_final(text, Leg::C, c)
}

/// Adds the line of how a leg stands.
fn push_final(text: &mut Text, leg: Leg, ending: Ending) -> Result<(), NoMemory>
    ensures { OnOk result
        (text.new.list ≡ text.old.list ++ final_line leg (ending_data ending.entry)) }
{
    push_lettered(text, b"FINAL", leg)?;
    match ending {
        Ending::Run { epoch, turn, words } => push_run(text, epoch, turn, words),
        Ending::Learn { windows } => push_count(text, b" LEARN", windows),
    }
}

/// Adds the rest of the line of a leg that runs.
fn push_run(text: &mut Text, epoch: i64, turn: i64, words: &Words) -> Result<(), NoMemory>
    ensures { OnOk result (text.new.list ≡ text.old.list
        ++ line (codes " RUN") (epoch ∷ turn ∷ words.now.list)) }
{
    push_bytes(text, b" RUN")?;
    push_spaced(text, epoch)?;
    push_led_line(text, b"", turn, words.items())
}
