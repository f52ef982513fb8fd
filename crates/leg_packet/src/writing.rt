ghost use Rattle.std.specs.Prelude.{◌≡◌, ◌≤◌, ◌+◌, ◌*◌, [], ◌∷◌, pos, length};
ghost use Rattle.leg_packet.specs.Readings.{spelled_readings};
ghost use Rattle.leg_packet.specs.Sheets.{spelled_out, packet_limit};

use crate::packet::Packet;
use crate::sheet::OutSheet;
use tri_base::Words;

// The first word of each kind of packet.
pub const READINGS: i64 = 1;

pub const RUNNING_RESULT: i64 = 2;

const LEARNING: i64 = 3;

/// Puts readings in place of the content: the scan time in milliseconds and the inputs' counts.
/// It takes no memory.
pub fn write_in(packet: &mut Packet, dt: i64, values: &Words)
    requires { 2 + length values.now.list ≤ packet_limit }
    ensures { packet.new ≡ spelled_readings (record { time = dt; values = values.now.list }) }
{
    packet.write_two(READINGS, dt, values);
}

/// Puts a running result in place of the content. Its numbers may be any, also such that no
/// canonical result has. It takes no memory.
pub fn write_out(packet: &mut Packet, sheet: &OutSheet)
    requires paired { length sheet.now.addresses.list ≡ length sheet.now.values.list }
    requires room { 6 + length sheet.now.window.list + 2 * length sheet.now.addresses.list
        + length sheet.now.outputs.list ≤ packet_limit }
    ensures { packet.new ≡ spelled_out sheet.now }
{
    packet.write_sheet(sheet);
}

/// Puts the word of a leg that learns in place of the content. It takes no memory.
pub fn write_learning(packet: &mut Packet)
    ensures { packet.new ≡ pos 3 ∷ [] }
{
    packet.write_one(LEARNING);
}
