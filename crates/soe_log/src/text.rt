ghost use Rattle.std.specs.Prelude.{◌≡◌, ◌++◌, [], ◌∷◌, List, OnErr, OnOk, codes, pos};
ghost use Rattle.std.specs.List.{flat_map};
ghost use Rattle.tri_base.specs.Rows.{KeepsRoom};
ghost use Rattle.report_lines.specs.Lines.{line};
ghost use Rattle.soe_log.specs.EventText.{event_line, events_text, name_at, write_events_of};
ghost use Rattle.soe_log.specs.Recording.{ScanShown, recorder_after};

use crate::event::Event;
use crate::recorder::Recorder;
use chassis::Chassis;
use report_lines::{push_calm, push_led_line, push_line, push_spaced};
use std::alloc::Global;
use tri_base::{NoMemory, Point, Text, push_bytes, push_number};

/// Adds the text of the events of a recorder over this chassis, all of it or nothing; `uncalm` is
/// the first scan that wasn't calm. It takes memory for the text twice.
pub fn write_events(
    alloc: Global,
    recorder: &Recorder,
    chassis: &Chassis,
    uncalm: Option<u32>,
    text: &mut Text,
) -> Result<(), NoMemory>
    requires chassis { recorder.now.points ≡ chassis.now }
    ensures text { OnOk result
        (text.new.list ≡ text.old.list ++ write_events_of recorder.now uncalm) }
    // So of the recorder of a play it is the text of the play.
    ensures play { (scans : List ScanShown) → recorder.now ≡ recorder_after chassis.now scans
        → OnOk result (text.new.list ≡ text.old.list ++ events_text chassis.now scans uncalm) }
    ensures room { KeepsRoom text.old text.new }
    ensures refused { OnErr result (text.new ≡ text.old) }
{
    let mut whole = Text::new(alloc);
    push_led_line(&mut whole, b"TRICON EVENTS", 1, &[])?;
    push_events(&mut whole, chassis.points(), recorder.events())?;
    push_led_line(&mut whole, b"LOST", recorder.lost() as i64, &[])?;
    push_calm(&mut whole, uncalm)?;
    push_line(&mut whole, b"END", &[])?;
    push_bytes(text, whole.bytes())
}

/// Adds the lines of events.
fn push_events(text: &mut Text, points: &[Point], events: &[Event]) -> Result<(), NoMemory>
    ensures { OnOk result
        (text.new.list ≡ text.old.list ++ flat_map (event_line points.now) events.now) }
{
    for event in events {
        push_event(text, points, event)?;
    }
    Ok(())
}

/// Adds the line of an event.
fn push_event(text: &mut Text, points: &[Point], event: &Event) -> Result<(), NoMemory>
    ensures { OnOk result (text.new.list ≡ text.old.list ++ event_line points.now event.now) }
{
    push_number(text, i64::from(event.scan))?;
    push_spaced(text, event.time)?;
    push_bytes(text, b" ")?;
    push_bytes(text, name_at(points, event.point))?;
    push_led_line(text, b"", i64::from(event.value), &[])
}

/// The name of the point at a place; nothing past the last one.
fn name_at(points: &[Point], place: usize) -> &[u8]
    ensures { result.now ≡ name_at points.now place }
{
    match points.get(place) {
        Some(point) => point.name.bytes(),
        None => b"",
    }
}
