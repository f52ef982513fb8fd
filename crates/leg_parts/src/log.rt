ghost use Rattle.std.specs.Prelude.{◌≡◌, ◌≤◌, length, map, IfOk};
ghost use Rattle.script_text.specs.LegScans.{scan_at};
ghost use Rattle.leg_parts.specs.Logs.{drive_room, room_of};

use crate::note_room::NoteRoom;
use fault_history::{Note, Verdict};
use script_text::Tape;
use std::alloc::Global;
use std::collections::VecDeque;
use std::marker::Model;
use std::mem;
use tri_base::{Judged, NoMemory, Voted};

/// A leg's notes, with room for one of each scan.
#[derive(Drop)]
pub struct Log {
    alloc: Global,
    notes: Vec<Note>,
    given: u32,
    rooms: VecDeque<NoteRoom>,
}

impl Model for Log {
    ghost use Rattle.std.specs.Prelude.{length, vec_capacity};
    ghost use Rattle.leg_parts.specs.Logs.{LogValue};

    ghost Value = { LogValue };

    ghost use Rattle.leg_parts.specs.Inner.Logs.{IsRoomy, notes_from};

    ghost view = { λ l. record {
      given = l.given;
      notes = notes_from l.given l.notes.items;
      rooms = l.rooms.items;
    } };

    ghost invariant = { λ l. IsRoomy l.given (length l.notes.items) (length l.rooms.items)
        (vec_capacity l.notes) };
}

impl Log {
    ghost use Rattle.std.specs.Prelude.{◌≡◌, ◌<◌, ◌^◌, [], ◌∷◌, ◌++◌, length, map, drop, option_map, IfOk};
    ghost use Rattle.fault_history.specs.Notes.{NoteData, note_data};
    ghost use Rattle.leg_parts.specs.Logs.{HoldsNext, TakesNote, drive_length, room_of};

    /// No notes, and room for one of each scan of a tape, of a leg with so many inputs and outputs.
    pub fn new(alloc: Global, tape: &Tape, inputs: usize, outputs: usize) -> Result<Log, NoMemory>
        ensures { IfOk result (λ log. log ≡ record {
          given = 0;
          notes = [];
          rooms = map (room_of inputs outputs) tape.now.scans;
        }) }
    {
        let rooms = rooms_for(alloc, tape, inputs, outputs)?;
        let notes = Vec::with_capacity(alloc, tape.scans() as usize).map_err(|_| NoMemory)?;
        Ok(Log {
            alloc,
            notes,
            given: 0,
            rooms,
        })
    }

    /// The note of the next scan. It takes no memory.
    pub fn add(
        &mut self,
        verdict: Option<Verdict>,
        voted: &Voted,
        judged: Judged,
        drive: Option<&[i64]>,
        arith: bool,
        marked: bool,
    )
        requires { HoldsNext (length voted.now.values.list)
            (drive_length (option_map (λ w. w.now) drive)) self.old.rooms }
        ensures notes { let note : NoteData = record {
          verdict = verdict;
          time = voted.now.dt;
          values = voted.now.values.list;
          judged = judged;
          drive = option_map (λ w. w.now) drive.entry;
          arith = arith;
          marked = marked;
        } in
            self.new.notes ≡ self.old.notes ++ note ∷ [] }
        ensures rooms { self.new.rooms ≡ drop 1 self.old.rooms }
        ensures given { self.new.given ≡ self.old.given }
    {
        let Some(room) = self.rooms.pop_front() else {
            unreachable!()
        };
        let note = room.into_note(verdict, voted, judged, drive, arith, marked);
        self.notes.push(note).unwrap();
    }

    /// The notes that were not taken away.
    pub fn notes(&self) -> &[Note]
        ensures { map note_data result.now ≡ self.now.notes }
    {
        &self.notes[self.given as usize..]
    }

    /// How many notes were taken away.
    pub fn given(&self) -> u32
        ensures { result ≡ self.now.given }
    {
        self.given
    }

    /// Takes the first note away; None exactly where there is none. It takes no memory.
    pub fn take_note(&mut self) -> Option<Note>
        ensures { TakesNote self.old (option_map note_data result) self.new }
    {
        let at = self.given as usize;
        if at == self.notes.len() {
            return None;
        }
        let note = mem::replace(&mut self.notes[at], Note::blank(self.alloc));
        self.given += 1;
        Some(note)
    }
}

/// Room for a note of each scan of a tape.
#[tactic(auto, using(crate::proofs::Rows::rooms_step))]
fn rooms_for(
    alloc: Global,
    tape: &Tape,
    inputs: usize,
    outputs: usize,
) -> Result<VecDeque<NoteRoom>, NoMemory>
    ensures { IfOk result (λ rooms. rooms.items ≡ map (room_of inputs outputs) tape.now.scans) }
{
    let mut rooms = VecDeque::new(alloc);
    for at in 0..tape.scans() {
        let drive = driven_at_most(tape, at + 1, outputs);
        let room = NoteRoom::new(alloc, inputs, drive)?;
        let Ok(()) = rooms.push_back(room) else {
            return Err(NoMemory);
        };
    }
    Ok(rooms)
}

/// How many words are driven at most in a scan.
fn driven_at_most(tape: &Tape, scan: u32, outputs: usize) -> usize
    requires { (1 ≤ scan) × (scan ≤ length tape.now.scans) }
    ensures { result ≡ drive_room outputs (scan_at tape.now scan).drive }
{
    match tape.drive(scan) {
        Some(words) => words.len(),
        None => outputs,
    }
}
