ghost use Rattle.std.specs.Prelude.{◌≡◌, ◌+◌, ◌≤◌, ◌≤ℤ◌, ◌++◌, pos, length};
ghost use Rattle.std.specs.List.{AllZip};
ghost use Rattle.tri_base.specs.Rows.{HasRoom, KeepsRoom};
ghost use Rattle.chassis.specs.Points.{inputs_of};
ghost use Rattle.chassis.specs.Ranges.{IsWithin};
ghost use Rattle.tri_base.specs.Limits.{scan_time_limit};
ghost use Rattle.vote_analog.specs.Middle.{AreCounts, mid_of};
ghost use Rattle.input_legs.specs.VotedSheets.{times_of, vote_sheet_of, voted_from, voted_value};
ghost use Rattle.input_legs.specs.Inner.Counts.{HoldCounts};
ghost use Rattle.input_legs.specs.Inner.Shown.{three_shown};

use crate::alike::common_readings;
use crate::shown::{column, read_three, times_of};
use chassis::{Chassis, is_input};
use leg_packet::{InView, Packet};
use tri_base::{Point, PointKind, Triple, Voted, Words};
use vote_analog::mid;
use vote_discrete::{truths, vote};

/// Sets the voted scan time, and empties the voted values and fills them with one word for each
/// input in chassis order. A packet that isn't the spelling of readings is absent at every input.
/// The time is 0 where all three are absent. It takes no memory. Packets with the same words, as
/// they are in most scans, are read once.
pub fn vote_sheet(chassis: &Chassis, a: &Packet, b: &Packet, c: &Packet, voted: &mut Voted)
    requires { HasRoom (length (inputs_of chassis.now)) voted.old.values }
    ensures time { voted.new.dt
        ≡ (vote_sheet_of chassis.now (record { a = a.now; b = b.now; c = c.now })).time }
    ensures values { voted.new.values.list
        ≡ (vote_sheet_of chassis.now (record { a = a.now; b = b.now; c = c.now })).values }
    ensures from { pos 0 ≤ℤ voted.new.dt }
    ensures to { voted.new.dt ≤ℤ scan_time_limit }
    ensures count { length voted.new.values.list ≡ length (inputs_of chassis.now) }
    ensures within { AllZip IsWithin (inputs_of chassis.now) voted.new.values.list }
    ensures room { KeepsRoom voted.old.values voted.new.values }
{
    // Its points' ranges are known to be ranges of counts.
    let _points = chassis.points();
    match common_readings(chassis, a, b, c) {
        // The vote over three equal readings is these.
        Some(view) => set_shown(&view, voted),
        None => vote_apart(chassis, a, b, c, voted),
    }
}

/// Sets what a view shows.
fn set_shown(view: &InView<'_>, voted: &mut Voted)
    requires { HasRoom (length view.now.values.now) voted.old.values }
    ensures time { voted.new.dt ≡ view.now.dt }
    ensures values { voted.new.values.list ≡ view.now.values.now }
    ensures room { KeepsRoom voted.old.values voted.new.values }
{
    voted.dt = view.dt;
    voted.values.clear();
    voted.values.extend(view.values);
}

/// The vote over any three packets, input by input.
#[tactic(auto, using(crate::proofs::Votes::length_voted_from))]
fn vote_apart(chassis: &Chassis, a: &Packet, b: &Packet, c: &Packet, voted: &mut Voted)
    requires { HasRoom (length (inputs_of chassis.now)) voted.old.values }
    ensures time { voted.new.dt
        ≡ (vote_sheet_of chassis.now (record { a = a.now; b = b.now; c = c.now })).time }
    ensures values { voted.new.values.list
        ≡ (vote_sheet_of chassis.now (record { a = a.now; b = b.now; c = c.now })).values }
    ensures from { pos 0 ≤ℤ voted.new.dt }
    ensures to { voted.new.dt ≤ℤ scan_time_limit }
    ensures count { length voted.new.values.list ≡ length (inputs_of chassis.now) }
    ensures within { AllZip IsWithin (inputs_of chassis.now) voted.new.values.list }
    ensures room { KeepsRoom voted.old.values voted.new.values }
{
    let shown = read_three(chassis, a, b, c);
    voted.dt = voted_time(&shown);
    voted.values.clear();
    add_votes(chassis.points(), &shown, &mut voted.values);
}

/// The middle of the scan times.
fn voted_time(shown: &Triple<Option<InView<'_>>>) -> i64
    requires { HoldCounts (three_shown shown.now) }
    ensures time { result ≡ mid_of (times_of (three_shown shown.now)) }
    ensures from { pos 0 ≤ℤ result }
    ensures to { result ≤ℤ scan_time_limit }
{
    mid(times_of(shown))
}

/// Adds the vote at each input.
fn add_votes(points: &[Point], shown: &Triple<Option<InView<'_>>>, values: &mut Words)
    requires counts { HoldCounts (three_shown shown.now) }
    requires room { length (inputs_of points.now) ≤ values.old.spare }
    ensures list { values.new.list
        ≡ values.old.list ++ voted_from (inputs_of points.now) 0 (three_shown shown.now) }
    ensures room { values.new.spare + length (inputs_of points.now) ≡ values.old.spare }
{
    let mut input = 0;
    for point in points {
        if is_input(point.kind) {
            values.add(voted_value(point.kind, column(shown, input)));
            input += 1;
        }
    }
}

fn voted_value(kind: PointKind, readings: Triple<Option<i64>>) -> i64
    requires { AreCounts readings }
    ensures { result ≡ voted_value kind readings }
{
    match kind {
        PointKind::Di | PointKind::Do => i64::from(vote(truths(readings))),
        PointKind::Ai | PointKind::Ao => mid(readings),
    }
}
