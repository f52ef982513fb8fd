ghost use Rattle.std.specs.Prelude.{◌≡◌, pos, length};
ghost use Rattle.chassis.specs.Points.{inputs_of};
ghost use Rattle.tri_base.specs.Limits.{scan_time_limit};
ghost use Rattle.leg_packet.specs.Readings.{readings_of};
ghost use Rattle.vote_analog.specs.Middle.{AreCounts, IsCount, LieIn, LiesIn};
ghost use Rattle.input_legs.specs.VotedSheets.{column, read_three, reading_at, time_of, times_of};
ghost use Rattle.input_legs.specs.Inner.Counts.{HoldCounts, HoldsCounts};
ghost use Rattle.input_legs.specs.Inner.Shown.{shown_in, three_shown};

use chassis::{Chassis, is_input};
use leg_packet::{InView, Packet, read_in};
use tri_base::{Point, Triple};

/// The readings of three packets; None for a packet that spells none.
pub fn read_three<'p>(
    chassis: &Chassis,
    a: &'p Packet,
    b: &'p Packet,
    c: &'p Packet,
) -> Triple<Option<InView<'p>>>
    ensures shown { three_shown result
        ≡ read_three chassis.now (record { a = a.now; b = b.now; c = c.now }) }
    ensures counts { HoldCounts (three_shown result) }
{
    Triple {
        a: readings(chassis, a),
        b: readings(chassis, b),
        c: readings(chassis, c),
    }
}

fn readings<'p>(chassis: &Chassis, packet: &'p Packet) -> Option<InView<'p>>
    ensures shown { shown_in result ≡ readings_of chassis.now packet.now }
    ensures counts { HoldsCounts (shown_in result) }
{
    // Its points' ranges are known to be ranges of counts.
    let _points = chassis.points();
    read_in(packet, chassis)
}

/// The scan times of three legs.
pub fn times_of(shown: &Triple<Option<InView<'_>>>) -> Triple<Option<i64>>
    requires { HoldCounts (three_shown shown.now) }
    ensures times { result ≡ times_of (three_shown shown.now) }
    ensures counts { AreCounts result }
    ensures range { LieIn (pos 0) scan_time_limit result }
{
    Triple {
        a: time_of(&shown.a),
        b: time_of(&shown.b),
        c: time_of(&shown.c),
    }
}

fn time_of(shown: &Option<InView<'_>>) -> Option<i64>
    requires { HoldsCounts (shown_in shown.now) }
    ensures time { result ≡ time_of (shown_in shown.now) }
    ensures count { IsCount result }
    ensures range { LiesIn (pos 0) scan_time_limit result }
{
    let view = shown.as_ref()?;
    Some(view.dt)
}

/// Three legs' readings of the input at a place.
pub fn column(shown: &Triple<Option<InView<'_>>>, input: usize) -> Triple<Option<i64>>
    requires { HoldCounts (three_shown shown.now) }
    ensures column { result ≡ column (three_shown shown.now) input }
    ensures counts { AreCounts result }
{
    Triple {
        a: reading_at(&shown.a, input),
        b: reading_at(&shown.b, input),
        c: reading_at(&shown.c, input),
    }
}

#[tactic(auto, using(crate::proofs::Readings::count_at))]
fn reading_at(shown: &Option<InView<'_>>, input: usize) -> Option<i64>
    requires { HoldsCounts (shown_in shown.now) }
    ensures reading { result ≡ reading_at (shown_in shown.now) input }
    ensures count { IsCount result }
{
    match shown {
        Some(view) => view.values.get(input).copied(),
        None => None,
    }
}

/// How many inputs there are.
pub fn input_count(points: &[Point]) -> usize
    ensures { result ≡ length (inputs_of points.now) }
{
    points.iter().filter(|point| is_input(point.kind)).count()
}
