ghost use Rattle.std.specs.Prelude.{◌≡◌, ◌≢◌, IfSome, IfNone};
ghost use Rattle.chassis.specs.Points.{inputs_of};
ghost use Rattle.chassis.specs.Ranges.{are_within};
ghost use Rattle.leg_packet.specs.Readings.{Readings, AreCanonical, spelled_readings, readings_of};
ghost use Rattle.leg_packet.specs.Views.{InShows, IsInViewOf};

use crate::packet::Packet;
use crate::views::InView;
use crate::writing::READINGS;
use chassis::{Chassis, is_input};
use tri_base::{Point, SCAN_TIME_LIMIT};

/// The readings that a packet spells; None exactly where it spells no canonical ones. It takes no
/// memory.
pub fn read_in<'p>(packet: &'p Packet, chassis: &Chassis) -> Option<InView<'p>>
    ensures view { IsInViewOf (readings_of chassis.now packet.now) result }
    ensures some { IfSome result (λ v. (r : Readings) × AreCanonical chassis.now r
        × (spelled_readings r ≡ packet.now) × InShows r v) }
    ensures none { IfNone result
        ((r : Readings) → AreCanonical chassis.now r → spelled_readings r ≢ packet.now) }
{
    readings_in(packet.words(), chassis.points())
}

fn readings_in<'p>(words: &'p [i64], points: &[Point]) -> Option<InView<'p>>
    ensures { IsInViewOf (readings_of points.now words.now) result }
{
    match words {
        [READINGS, time, values @ ..]
            if 1 <= *time && *time <= SCAN_TIME_LIMIT && within(points, values) => {
            Some(InView { dt: *time, values })
        }
        _ => None,
    }
}

/// Whether there is one value for each input, in its range.
fn within(points: &[Point], values: &[i64]) -> bool
    ensures { result ≡ are_within (inputs_of points.now) values.now }
{
    let mut left = values;
    for point in points {
        if is_input(point.kind) {
            match left {
                [value, rest @ ..] if point.low <= *value && *value <= point.high => left = rest,
                _ => return false,
            }
        }
    }
    left.is_empty()
}
