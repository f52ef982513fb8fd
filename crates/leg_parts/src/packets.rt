ghost use Rattle.std.specs.Prelude.{◌≡◌, ◌≤◌, ◌+◌, ◌++◌, ℕ, List, ℤ, [], ◌∷◌, length, map, option_map, OnOk, IfOk, IsSome, IfNone};
ghost use Rattle.std.specs.List.{All, flat_map};
ghost use Rattle.tri_base.specs.declared.point.Point.{Point};
ghost use Rattle.tri_base.specs.declared.leg.Side.TheVariants.{Right};
ghost use Rattle.tri_base.specs.Rows.{HasRoom, KeepsRoom};
ghost use Rattle.chassis.specs.Points.{inputs_of, point_limit};
ghost use Rattle.leg_packet.specs.Readings.{readings_of, spelled_readings};
ghost use Rattle.script_text.specs.LegScans.{scan_at};
ghost use Rattle.plant_script.specs.Faces.{decided_or, face};
ghost use Rattle.leg_parts.specs.LongLines.{long_line, long_lines};
ghost use Rattle.script_text.specs.LegScans.{shown_on, result_on};

use crate::own_result::OwnResult;
use leg_packet::{PACKET_WORDS, Packet, write_in};
use script_text::Tape;
use std::alloc::Global;
use std::collections::VecDeque;
use tri_base::{NoMemory, Side, Words};

/// A packet for each line of a tape with more words than other packets have room for, and None for
/// each other packet that the leg puts.
#[tactic(auto, using(crate::proofs::Rows::long_step))]
pub fn long_packets(alloc: Global, tape: &Tape) -> Result<VecDeque<Option<Packet>>, NoMemory>
    ensures { IfOk result (λ rows. rows.items ≡ flat_map long_lines tape.now.scans) }
{
    let mut rows = VecDeque::new(alloc);
    for at in 0..tape.scans() {
        let scan = at + 1;
        add_long(alloc, tape.shown(scan, Side::Left), &mut rows)?;
        add_long(alloc, tape.shown(scan, Side::Right), &mut rows)?;
        add_long(alloc, tape.result(scan, Side::Left), &mut rows)?;
        add_long(alloc, tape.result(scan, Side::Right), &mut rows)?;
    }
    Ok(rows)
}

fn add_long(
    alloc: Global,
    line: Option<&Words>,
    rows: &mut VecDeque<Option<Packet>>,
) -> Result<(), NoMemory>
    ensures { OnOk result (rows.new.items
        ≡ rows.old.items ++ long_line (option_map (λ w. w.now.list) line.entry) ∷ []) }
{
    let row = long_packet(alloc, line)?;
    let Ok(()) = rows.push_back(row) else {
        return Err(NoMemory);
    };
    Ok(())
}

/// A packet with the words of a line, where they are too many for other packets.
fn long_packet(alloc: Global, line: Option<&Words>) -> Result<Option<Packet>, NoMemory>
    ensures { IfOk result (λ row. row ≡ long_line (option_map (λ w. w.now.list) line.entry)) }
{
    let Some(words) = line else {
        return Ok(None);
    };
    if words.len() <= PACKET_WORDS {
        return Ok(None);
    }
    let mut packet = Packet::blank(alloc)?;
    packet.write_words(words)?;
    Ok(Some(packet))
}

/// The packet that waits in a slot, made absent.
pub fn absent_packet(slot: &mut Option<Packet>) -> Packet
    requires { IsSome slot.old }
    ensures { result ≡ [] }
{
    let mut packet = taken(slot);
    packet.clear();
    packet
}

fn taken(slot: &mut Option<Packet>) -> Packet
    requires { IsSome slot.old }
{
    let Some(packet) = slot.take() else {
        unreachable!()
    };
    packet
}

/// The packet that a leg puts on a side in the exchange of readings. Where a line's words are too
/// many it is the row's, and the one in the slot stays; else it is that in the slot. It takes no
/// memory.
pub fn face_packet(
    tape: &Tape,
    scan: u32,
    side: Side,
    row: Option<Packet>,
    readings: &mut Words,
    slot: &mut Option<Packet>,
) -> Packet
    requires scan { (1 ≤ scan) × (scan ≤ length tape.now.scans) }
    requires few { length (scan_at tape.now scan).readings ≤ point_limit }
    requires row { row ≡ long_line (shown_on side (scan_at tape.now scan)) }
    requires room { HasRoom point_limit readings.old }
    requires slot { IsSome slot.old }
    ensures packet { result ≡ face side (scan_at tape.now scan) }
    ensures room { KeepsRoom readings.old readings.new }
{
    if let Some(packet) = row {
        return packet;
    }
    let mut packet = taken(slot);
    match tape.shown(scan, side) {
        Some(words) => packet.write_words(words).unwrap(),
        None => write_readings(tape, scan, readings, &mut packet),
    }
    packet
}

/// The packet that a leg puts in the exchange of results: the words of the line that decides, or
/// its result.
pub fn result_packet(
    line: Option<&Words>,
    row: Option<Packet>,
    own: &OwnResult,
    slot: &mut Option<Packet>,
) -> Packet
    requires row { row ≡ long_line (option_map (λ w. w.now.list) line) }
    requires slot { IsSome slot.old }
    ensures { result ≡ decided_or (option_map (λ w. w.now.list) line.entry) own.now.own }
{
    if let Some(packet) = row {
        return packet;
    }
    let mut packet = taken(slot);
    match line {
        Some(words) => packet.write_words(words).unwrap(),
        None => own.write(&mut packet),
    }
    packet
}

#[tactic(auto, using(crate::proofs::Faces::long_face))]
/// What a leg shows itself: as readings, that which it puts on its right. It takes no memory.
pub fn own_face(tape: &Tape, scan: u32, readings: &mut Words, packet: &mut Packet)
    requires scan { (1 ≤ scan) × (scan ≤ length tape.now.scans) }
    requires few { length (scan_at tape.now scan).readings ≤ point_limit }
    requires room { HasRoom point_limit readings.old }
    ensures packet { (points : List Point) → length (inputs_of points) ≤ point_limit
        → readings_of points packet.new
        ≡ readings_of points (face Right (scan_at tape.now scan)) }
    ensures room { KeepsRoom readings.old readings.new }
{
    match tape.shown(scan, Side::Right) {
        Some(words) if words.len() <= PACKET_WORDS => packet.write_words(words).unwrap(),
        // so many words are no readings
        Some(_) => packet.clear(),
        None => write_readings(tape, scan, readings, packet),
    }
}

/// Writes what a leg reads in a scan.
fn write_readings(tape: &Tape, scan: u32, readings: &mut Words, packet: &mut Packet)
    requires scan { (1 ≤ scan) × (scan ≤ length tape.now.scans) }
    requires few { length (scan_at tape.now scan).readings ≤ point_limit }
    requires room { HasRoom point_limit readings.old }
    ensures packet { packet.new ≡ spelled_readings (record {
      time = (scan_at tape.now scan).time;
      values = (scan_at tape.now scan).readings;
    }) }
    ensures room { KeepsRoom readings.old readings.new }
{
    readings.clear();
    add_readings(tape.readings(scan), readings);
    write_in(packet, tape.time(scan), readings);
}

/// Adds readings as numbers of 64 bits.
fn add_readings(readings: &[i16], words: &mut Words)
    requires { length readings.now ≤ words.old.spare }
    ensures list { words.new.list ≡ words.old.list ++ readings.now }
    ensures room { words.new.spare + length readings.now ≡ words.old.spare }
{
    for reading in readings {
        words.add(i64::from(*reading));
    }
}
