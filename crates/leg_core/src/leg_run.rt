ghost use Rattle.std.specs.Prelude.{◌≡◌, ◌<◌, ◌∷◌, length, option_map, IfOk};
ghost use Rattle.chassis.specs.Points.{inputs_of, outputs_of};
ghost use Rattle.leg_laws.specs.Places.{need_at};
ghost use Rattle.leg_parts.specs.Closings.{drive_with};
ghost use Rattle.leg_core.specs.Inner.Rooms.{IsRoom};

use chassis::{Chassis, is_input};
use engine_face::{Engine, Verdict};
use fault_history::{Ending, Note};
use input_legs::Discrepancy;
use leg_laws::{Need, Place};
use leg_packet::Packet;
use leg_parts::{
    LegState, Log, OwnResult, absent_packet, face_packet, long_packets, own_face, result_packet,
    vote_readings, with_room,
};
use script_text::Tape;
use std::alloc::Global;
use std::collections::VecDeque;
use std::marker::Model;
use std::mem;
use tri_base::{Leg, NoMemory, Point, Side, Voted, Words};

// No chassis has more inputs.
const POINT_LIMIT: usize = 256;

/// A leg in a play of a script. It is served need by need: it puts packets for its neighbours and
/// takes theirs. A leg that finds no memory is starved from there on: it goes on through its needs,
/// puts absent packets, and makes no more notes.
#[derive(Drop)]
pub struct LegRun<E: Engine> {
    leg: Leg,
    chassis: Chassis,
    tape: Tape,
    state: LegState<E>,
    marks: Discrepancy,
    log: Log,
    place: Place,
    starved: bool,
    finished: u32,
    // of the scan that is played, as far as it is known
    verdict: Option<Verdict>,
    voted: Voted,
    result: OwnResult,
    from_left: Packet,
    // what the next puts are written into
    to_left: Option<Packet>,
    to_right: Option<Packet>,
    long: VecDeque<Option<Packet>>,
    // scratch: the readings of a scan, and the leg's own packet
    readings: Words,
    own: Packet,
}

impl<E: Engine> Model for LegRun<E> {
    ghost use Rattle.leg_laws.specs.Configs.{LegValue};

    ghost Value = { LegValue };

    ghost use Rattle.leg_parts.specs.Results.{voted_of};
    ghost use Rattle.leg_core.specs.Inner.Fit.{IsSound, IsStocked, config_kept};

    ghost view = { λ r. record {
      leg = r.leg;
      points = r.chassis;
      tape = r.tape;
      finished = r.finished;
      given = r.log.given;
      notes = r.log.notes;
      marks = r.marks;
      config = config_kept r.starved r.place r.state.state r.verdict (voted_of r.voted) r.result
          r.from_left;
    } };

    ghost invariant = { λ r. IsSound r.chassis r.state.points r.tape r.marks r.result.outputs
        r.voted.values r.readings
        × IsStocked r.chassis r.tape r.starved r.place r.finished r.log.rooms r.long.items
        r.to_left r.to_right };
}

impl<E: Engine> LegRun<E> {
    ghost use Rattle.std.specs.Prelude.{◌≡◌, ◌<◌, ◌↔◌, true, false, None, IsTrue, length, map, option_map, slice_index_or, IfOk};
    ghost use Rattle.tri_base.specs.Legs.{leg_part};
    ghost use Rattle.chassis.specs.Points.{inputs_of};
    ghost use Rattle.fault_history.specs.Notes.{ending_data, note_data};
    ghost use Rattle.input_legs.specs.Marks.{mark_count, no_row};
    ghost use Rattle.leg_laws.specs.declared.need.Need.TheVariants.{Put, Take};
    ghost use Rattle.leg_laws.specs.declared.place.Place.TheVariants as p;
    ghost use Rattle.leg_laws.specs.Configs.{is_starved, need_of, place_of, scan_now};
    ghost use Rattle.leg_laws.specs.Endings.{ending_of};
    ghost use Rattle.leg_laws.specs.ExchangeSteps.{Puts, Takes, leg_at_start};
    ghost use Rattle.leg_laws.specs.NeedsOfMemory.{put_builds, take_builds};
    ghost use Rattle.leg_laws.specs.Plays.{Play};
    ghost use Rattle.leg_core.specs.Calls.{ReadsInputs, TakesNote, scan_begun};

    /// A leg before its first scan, with room for all that its scans need; only what builds a
    /// program takes memory later. A SWAP text that doesn't build leaves the leg starved, as want
    /// of memory does. At NoMemory the arguments are dropped.
    pub fn start(
        alloc: Global,
        leg: Leg,
        engine: E,
        chassis: Chassis,
        program: E::Program,
        tape: Tape,
    ) -> Result<LegRun<E>, NoMemory>
        requires points { E.points engine ≡ chassis }
        requires program { (E.meaning chassis).builds (E.text_of program) ≡ None }
        requires reads { ReadsInputs chassis tape }
        ensures { (play : Play) → play.points ≡ chassis → play.text ≡ E.text_of program
            → leg_part play.tapes leg ≡ tape
            → IfOk result (λ run. run ≡ leg_at_start (E.meaning chassis) play leg) }
    {
        let points = chassis.points();
        let inputs = input_count(points);
        let outputs = output_count(points);
        // The number of a tape's scans has 32 bits, so that of the finished ones has.
        let _scans = tape.scans();
        let marks = Discrepancy::new(alloc, &chassis)?;
        let log = Log::new(alloc, &tape, inputs, outputs)?;
        let room = room_for(alloc, &tape, inputs)?;
        let packets = packets_of(alloc)?;
        let state = LegState::start(alloc, engine, program)?;
        Ok(LegRun {
            leg,
            chassis,
            tape,
            state,
            marks,
            log,
            place: Place::PutLeftReadings,
            starved: false,
            finished: 0,
            verdict: None,
            voted: room.voted,
            result: room.result,
            from_left: packets.from_left,
            to_left: Some(packets.to_left),
            to_right: Some(packets.to_right),
            long: room.long,
            readings: room.readings,
            own: packets.own,
        })
    }

    /// What the leg needs next.
    pub fn need(&self) -> Need
        ensures { result ≡ need_of self.now }
    {
        if self.finished < self.tape.scans() {
            return need_at(self.place);
        }
        Need::Done
    }

    /// Which leg it is.
    pub fn leg(&self) -> Leg
        ensures { result ≡ self.now.leg }
    {
        self.leg
    }

    /// How many scans it plays.
    pub fn scans(&self) -> u32
        ensures { result ≡ length self.now.tape.scans }
    {
        self.tape.scans()
    }

    /// The scan that the leg begins with its next need, counted from 1; None within a scan, and
    /// behind the last one.
    pub fn scan_begun(&self) -> Option<u32>
        ensures { result ≡ scan_begun self.now }
    {
        match self.place {
            Place::PutLeftReadings if self.finished < self.tape.scans() => Some(self.finished + 1),
            _ => None,
        }
    }

    /// The packet that the leg puts on a side, where that is its need. Only the first put of a scan
    /// with a download or a SWAP for the leg takes memory.
    pub fn give(&mut self, side: Side) -> Packet
        requires { need_of self.old ≡ Put side }
        ensures put { Puts (E.meaning self.old.points) self.old self.new result }
        ensures steady { put_builds (scan_now self.old) self.old.config ≡ false
            → is_starved self.new ≡ false }
    {
        match self.place {
            Place::PutLeftReadings => self.give_left_readings(),
            Place::PutRightReadings => self.give_right_readings(),
            Place::PutLeftResult => self.give_left_result(),
            Place::PutRightResult => self.give_right_result(),
            _ => unreachable!(),
        }
    }

    /// Takes the packet of the neighbour on a side, where that is the leg's need. Only the last
    /// take of a scan with a learner's last window takes memory.
    pub fn accept(&mut self, side: Side, packet: Packet)
        requires { need_of self.old ≡ Take side }
        ensures take { Takes (E.meaning self.old.points) self.old self.new packet }
        ensures steady { take_builds packet self.old.config ≡ false → is_starved self.new ≡ false }
    {
        match self.place {
            Place::TakeLeftReadings => self.accept_left_readings(packet),
            Place::TakeRightReadings => self.accept_right_readings(packet),
            Place::TakeLeftResult => self.accept_left_result(packet),
            Place::TakeRightResult => self.accept_right_result(packet),
            _ => unreachable!(),
        }
    }

    /// The notes that were not taken away, one for each scan that the leg finished while it had
    /// memory.
    pub fn notes(&self) -> &[Note]
        ensures { map note_data result.now ≡ self.now.notes }
    {
        self.log.notes()
    }

    /// Takes the first note away; None exactly where there is none. It takes no memory.
    pub fn take_note(&mut self) -> Option<Note>
        ensures { TakesNote self.old (option_map note_data result) self.new }
    {
        self.log.take_note()
    }

    /// How many notes were taken away.
    pub fn given(&self) -> u32
        ensures { result ≡ self.now.given }
    {
        self.log.given()
    }

    /// How the leg stands; None exactly where it is starved.
    pub fn ending(&self) -> Option<Ending<'_>>
        ensures { option_map ending_data result ≡ ending_of self.now.config }
    {
        if self.starved {
            return None;
        }
        Some(self.state.ending())
    }

    /// Whether a leg has a mark at the input at a place in chassis order.
    pub fn marked(&self, leg: Leg, point: usize) -> bool
        requires { point < length (inputs_of self.now.points) }
        ensures { IsTrue result
            ↔ (leg_part (slice_index_or self.now.marks point no_row) leg ≡ mark_count) }
    {
        self.marks.marked(leg, point)
    }

    /// Whether the leg has found no memory.
    pub fn is_starved(&self) -> bool
        ensures { result ≡ is_starved self.now }
    {
        self.starved
    }

    /// The first put of a scan: the fault lines, the change point, and the left face.
    fn give_left_readings(&mut self) -> Packet
        requires need { need_of self.old ≡ Put Side.Left }
        requires place { place_of self.old.config ≡ p.PutLeftReadings }
        ensures put { Puts (E.meaning self.old.points) self.old self.new result }
        ensures steady { put_builds (scan_now self.old) self.old.config ≡ false
            → is_starved self.new ≡ false }
    {
        let scan = self.finished + 1;
        let row = next_row(&mut self.long);
        self.place = Place::PutRightReadings;
        if self.starved {
            return absent_packet(&mut self.to_left);
        }
        let Ok(verdict) = self.state.prepare(&self.tape, scan) else {
            self.starved = true;
            return absent_packet(&mut self.to_left);
        };
        self.verdict = verdict;
        face_packet(
            &self.tape,
            scan,
            Side::Left,
            row,
            &mut self.readings,
            &mut self.to_left,
        )
    }

    /// The right face.
    fn give_right_readings(&mut self) -> Packet
        requires need { need_of self.old ≡ Put Side.Right }
        requires place { place_of self.old.config ≡ p.PutRightReadings }
        ensures put { Puts (E.meaning self.old.points) self.old self.new result }
        ensures steady { is_starved self.new ≡ is_starved self.old }
    {
        let scan = self.finished + 1;
        let row = next_row(&mut self.long);
        self.place = Place::TakeLeftReadings;
        if self.starved {
            return absent_packet(&mut self.to_right);
        }
        face_packet(
            &self.tape,
            scan,
            Side::Right,
            row,
            &mut self.readings,
            &mut self.to_right,
        )
    }

    /// The readings of the left neighbour.
    fn accept_left_readings(&mut self, packet: Packet)
        requires need { need_of self.old ≡ Take Side.Left }
        requires place { place_of self.old.config ≡ p.TakeLeftReadings }
        ensures take { Takes (E.meaning self.old.points) self.old self.new packet }
        ensures steady { is_starved self.new ≡ is_starved self.old }
    {
        let old = mem::replace(&mut self.from_left, packet);
        self.to_left = Some(old);
        self.place = Place::TakeRightReadings;
    }

    /// The readings of the right neighbour: the vote, and the run of the program.
    fn accept_right_readings(&mut self, packet: Packet)
        requires need { need_of self.old ≡ Take Side.Right }
        requires place { place_of self.old.config ≡ p.TakeRightReadings }
        ensures take { Takes (E.meaning self.old.points) self.old self.new packet }
        ensures steady { is_starved self.new ≡ is_starved self.old }
    {
        self.place = Place::PutLeftResult;
        if self.starved {
            self.to_right = Some(packet);
            return;
        }
        own_face(
            &self.tape,
            self.finished + 1,
            &mut self.readings,
            &mut self.own,
        );
        vote_readings(
            self.leg,
            &self.chassis,
            &self.own,
            &self.from_left,
            &packet,
            &mut self.voted,
            &mut self.marks,
        );
        self.state.run(&self.voted, &mut self.result);
        self.to_right = Some(packet);
    }

    /// The result towards the left.
    fn give_left_result(&mut self) -> Packet
        requires need { need_of self.old ≡ Put Side.Left }
        requires place { place_of self.old.config ≡ p.PutLeftResult }
        ensures put { Puts (E.meaning self.old.points) self.old self.new result }
        ensures steady { is_starved self.new ≡ is_starved self.old }
    {
        let scan = self.finished + 1;
        let row = next_row(&mut self.long);
        self.place = Place::PutRightResult;
        if self.starved {
            return absent_packet(&mut self.to_left);
        }
        let line = self.tape.result(scan, Side::Left);
        result_packet(line, row, &self.result, &mut self.to_left)
    }

    /// The result towards the right.
    fn give_right_result(&mut self) -> Packet
        requires need { need_of self.old ≡ Put Side.Right }
        requires place { place_of self.old.config ≡ p.PutRightResult }
        ensures put { Puts (E.meaning self.old.points) self.old self.new result }
        ensures steady { is_starved self.new ≡ is_starved self.old }
    {
        let scan = self.finished + 1;
        let row = next_row(&mut self.long);
        self.place = Place::TakeLeftResult;
        if self.starved {
            return absent_packet(&mut self.to_right);
        }
        let line = self.tape.result(scan, Side::Right);
        result_packet(line, row, &self.result, &mut self.to_right)
    }

    /// The result of the left neighbour.
    fn accept_left_result(&mut self, packet: Packet)
        requires need { need_of self.old ≡ Take Side.Left }
        requires place { place_of self.old.config ≡ p.TakeLeftResult }
        ensures take { Takes (E.meaning self.old.points) self.old self.new packet }
        ensures steady { is_starved self.new ≡ is_starved self.old }
    {
        let old = mem::replace(&mut self.from_left, packet);
        self.to_left = Some(old);
        self.place = Place::TakeRightResult;
    }

    /// The result of the right neighbour: the judgement or what is learned, and the note.
    fn accept_right_result(&mut self, packet: Packet)
        requires need { need_of self.old ≡ Take Side.Right }
        requires place { place_of self.old.config ≡ p.TakeRightResult }
        ensures take { Takes (E.meaning self.old.points) self.old self.new packet }
        ensures steady { take_builds packet self.old.config ≡ false → is_starved self.new ≡ false }
    {
        self.place = Place::PutLeftReadings;
        let scan = self.finished + 1;
        self.finished = scan;
        if self.starved {
            self.to_right = Some(packet);
            return;
        }
        self.result.write(&mut self.own);
        let closed = self
            .state
            .close(self.leg, &self.own, &self.from_left, &packet);
        self.to_right = Some(packet);
        let Ok(closing) = closed else {
            self.starved = true;
            return;
        };
        let drive = driven(self.tape.drive(scan), self.result.outputs(), closing.drives);
        self.log.add(
            self.verdict,
            &self.voted,
            closing.judged,
            drive,
            self.result.flag(),
            self.marks.has_mark(),
        );
    }
}

/// What a leg needs at a place.
fn need_at(place: Place) -> Need
    ensures { result ≡ need_at place }
{
    match place {
        Place::PutLeftReadings | Place::PutLeftResult => Need::Put(Side::Left),
        Place::PutRightReadings | Place::PutRightResult => Need::Put(Side::Right),
        Place::TakeLeftReadings | Place::TakeLeftResult => Need::Take(Side::Left),
        Place::TakeRightReadings | Place::TakeRightResult => Need::Take(Side::Right),
    }
}

/// The packet of a long line, where the next put has one.
fn next_row(rows: &mut VecDeque<Option<Packet>>) -> Option<Packet>
    requires { 0 < length rows.old.items }
    ensures { rows.old.items ≡ result ∷ rows.new.items }
{
    let Some(row) = rows.pop_front() else {
        unreachable!()
    };
    row
}

/// What is driven: the words of a line, else the outputs where the leg drives them.
fn driven<'a>(line: Option<&'a Words>, outputs: &'a [i64], drives: bool) -> Option<&'a [i64]>
    ensures { option_map (λ w. w.now) result
        ≡ drive_with (option_map (λ w. w.now.list) line.entry) outputs.now drives }
{
    match line {
        Some(words) => Some(words.items()),
        None if drives => Some(outputs),
        None => None,
    }
}

/// How many inputs there are.
fn input_count(points: &[Point]) -> usize
    ensures { result ≡ length (inputs_of points.now) }
{
    points.iter().filter(|point| is_input(point.kind)).count()
}

/// How many outputs there are.
fn output_count(points: &[Point]) -> usize
    ensures { result ≡ length (outputs_of points.now) }
{
    points.iter().filter(|point| !is_input(point.kind)).count()
}

/// The lists that a leg writes into.
#[derive(Drop)]
struct Room {
    voted: Voted,
    result: OwnResult,
    long: VecDeque<Option<Packet>>,
    readings: Words,
}

/// The packets that a leg puts first, and those that it keeps.
#[derive(Drop)]
struct Packets {
    own: Packet,
    from_left: Packet,
    to_left: Packet,
    to_right: Packet,
}

/// The lists of a leg with so many inputs.
fn room_for(alloc: Global, tape: &Tape, inputs: usize) -> Result<Room, NoMemory>
    ensures { IfOk result (IsRoom inputs tape.now) }
{
    let result = OwnResult::new(alloc)?;
    let long = long_packets(alloc, tape)?;
    let values = with_room(alloc, inputs)?;
    let readings = with_room(alloc, POINT_LIMIT)?;
    Ok(Room {
        voted: Voted { dt: 0, values },
        result,
        long,
        readings,
    })
}

/// Four absent packets.
fn packets_of(alloc: Global) -> Result<Packets, NoMemory> {
    let own = Packet::blank(alloc)?;
    let from_left = Packet::blank(alloc)?;
    let to_left = Packet::blank(alloc)?;
    let to_right = Packet::blank(alloc)?;
    Ok(Packets {
        own,
        from_left,
        to_left,
        to_right,
    })
}

/// Takes what may go to another thread.
fn needs_send<T: Send + Drop>(_value: T) {}

/// A leg may.
fn leg_is_send<E: Engine + Send>(leg: LegRun<E>)
where
    E::Program: Send,
{
    needs_send(leg);
}
