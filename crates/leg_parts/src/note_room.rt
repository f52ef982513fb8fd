ghost use Rattle.std.specs.Prelude.{◌≡◌, ◌≤◌, length, option_map};
ghost use Rattle.tri_base.specs.Rows.{HasRoom};
ghost use Rattle.leg_parts.specs.Logs.{drive_length};

use crate::rooms::with_room;
use fault_history::{Note, Verdict};
use std::alloc::Global;
use std::marker::Model;
use tri_base::{Judged, NoMemory, Voted, Words};

/// Room for the note of a scan: for so many voted values and so many driven words.
#[derive(Drop)]
pub(crate) struct NoteRoom {
    width: usize,
    size: usize,
    values: Words,
    drive: Words,
}

impl Model for NoteRoom {
    ghost use Rattle.std.specs.Prelude.{◌≡◌, ◌≤◌};
    ghost use Rattle.tri_base.specs.Rows.{HasRoom};
    ghost use Rattle.leg_parts.specs.Logs.{RoomValue};

    ghost Value = { RoomValue };

    ghost view = { λ r. record { width = r.width; drive = r.size } };

    ghost invariant = { λ r. record {
      values : HasRoom r.width r.values;
      drive : HasRoom r.size r.drive;
    } };
}

impl NoteRoom {
    ghost use Rattle.std.specs.Prelude.{◌≡◌, ◌≤◌, length, option_map, IfOk};
    ghost use Rattle.fault_history.specs.Notes.{note_data};
    ghost use Rattle.leg_parts.specs.Logs.{drive_length};

    /// Room for so many values and driven words.
    pub(crate) fn new(alloc: Global, width: usize, size: usize) -> Result<NoteRoom, NoMemory>
        ensures { IfOk result (λ r. r ≡ record { width = width; drive = size }) }
    {
        Ok(NoteRoom {
            width,
            size,
            values: with_room(alloc, width)?,
            drive: with_room(alloc, size)?,
        })
    }

    /// The note of a scan, in that room. It takes no memory.
    pub(crate) fn into_note(
        self,
        verdict: Option<Verdict>,
        voted: &Voted,
        judged: Judged,
        drive: Option<&[i64]>,
        arith: bool,
        marked: bool,
    ) -> Note
        requires values { length voted.now.values.list ≤ self.width }
        requires drive { drive_length (option_map (λ w. w.now) drive) ≤ self.drive }
        ensures { note_data result ≡ record {
          verdict = verdict;
          time = voted.now.dt;
          values = voted.now.values.list;
          judged = judged;
          drive = option_map (λ w. w.now) drive.entry;
          arith = arith;
          marked = marked;
        } }
    {
        Note {
            verdict,
            voted: Voted {
                dt: voted.dt,
                values: filled(self.values, voted.values.items()),
            },
            judged,
            drive: filled_where(self.drive, drive),
            arith,
            marked,
        }
    }
}

/// Other words in a list's room.
fn filled(room: Words, items: &[i64]) -> Words
    requires { HasRoom (length items.now) room }
    ensures { result.list ≡ items.now }
{
    let mut words = room;
    words.clear();
    words.extend(items);
    words
}

/// Words in a list's room, where there are any to tell.
fn filled_where(room: Words, items: Option<&[i64]>) -> Option<Words>
    requires { HasRoom (drive_length (option_map (λ w. w.now) items)) room }
    ensures { option_map (λ words. words.list) result ≡ option_map (λ w. w.now) items.entry }
{
    match items {
        Some(items) => Some(filled(room, items)),
        None => None,
    }
}
