//! Packets that say the same: those of three legs that read alike, as they do in most scans.

ghost use Rattle.std.specs.Prelude.{◌≡◌, ◌≤ℤ◌, pos, length, IfSome};
ghost use Rattle.std.specs.List.{AllZip};
ghost use Rattle.tri_base.specs.Limits.{scan_time_limit};
ghost use Rattle.chassis.specs.Points.{inputs_of};
ghost use Rattle.chassis.specs.Ranges.{IsWithin};
ghost use Rattle.input_legs.specs.Inner.Alike.{SpellAll};

use chassis::Chassis;
use leg_packet::{InView, Packet, read_in};

/// What three packets with the same words spell; None where they differ, or spell no readings.
pub(crate) fn common_readings<'p>(
    chassis: &Chassis,
    a: &'p Packet,
    b: &Packet,
    c: &Packet,
) -> Option<InView<'p>>
    ensures all { IfSome result (λ view.
        SpellAll chassis.now (record { a = a.now; b = b.now; c = c.now }) view) }
    ensures from { IfSome result (λ view. pos 1 ≤ℤ view.dt) }
    ensures to { IfSome result (λ view. view.dt ≤ℤ scan_time_limit) }
    ensures within { IfSome result (λ view.
        AllZip IsWithin (inputs_of chassis.now) view.values.now) }
    ensures count { IfSome result (λ view.
        length view.values.now ≡ length (inputs_of chassis.now)) }
{
    if a.words() == b.words() && a.words() == c.words() {
        read_in(a, chassis)
    } else {
        None
    }
}
