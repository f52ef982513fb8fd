ghost use Rattle.std.specs.Prelude.{◌≡◌, ◌≤ℤ◌, pos, length};
ghost use Rattle.tri_base.specs.Rows.{HasRoom, KeepsRoom};
ghost use Rattle.tri_base.specs.Limits.{scan_time_limit};
ghost use Rattle.tri_base.specs.Legs.{placed};
ghost use Rattle.chassis.specs.Points.{inputs_of};
ghost use Rattle.input_legs.specs.VotedSheets.{vote_sheet_of};
ghost use Rattle.input_legs.specs.Marks.{note_of};
ghost use Rattle.leg_parts.specs.Results.{voted_of};

use chassis::Chassis;
use input_legs::{Discrepancy, vote_sheet};
use leg_packet::Packet;
use tri_base::{Leg, Triple, Voted};

/// Votes a leg's own readings and those of its left and right neighbour, and counts disagreements.
/// It takes no memory.
pub fn vote_readings(
    leg: Leg,
    chassis: &Chassis,
    own: &Packet,
    left: &Packet,
    right: &Packet,
    voted: &mut Voted,
    marks: &mut Discrepancy,
)
    requires room { HasRoom (length (inputs_of chassis.now)) voted.old.values }
    requires marks { length marks.old ≡ length (inputs_of chassis.now) }
    ensures voted { voted_of voted.new
        ≡ vote_sheet_of chassis.now (placed leg own.now left.now right.now) }
    ensures marks { marks.new
        ≡ note_of chassis.now (placed leg own.now left.now right.now) marks.old }
    ensures length { length marks.new ≡ length marks.old }
    ensures from { pos 0 ≤ℤ voted.new.dt }
    ensures to { voted.new.dt ≤ℤ scan_time_limit }
    ensures count { length voted.new.values.list ≡ length (inputs_of chassis.now) }
    ensures room { KeepsRoom voted.old.values voted.new.values }
{
    let packets = Triple::placed(leg, own, left, right);
    vote_sheet(chassis, packets.a, packets.b, packets.c, voted);
    marks.note(chassis, packets.a, packets.b, packets.c);
}
