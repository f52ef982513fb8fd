use circular_buffer::HeapCircularBuffer;
use std::alloc::Global;
use std::marker::Model;
use tri_base::{Judged, Leg, NoMemory};

/// How many entries a history keeps.
const HISTORY_LIMIT: usize = 64;

/// What a leg was judged in a scan.
#[derive(Clone, Copy, Debug, PartialEq, Eq)]
pub struct Entry {
    /// The scan, counted from 1.
    pub scan: u32,
    pub leg: Leg,
    pub judged: Judged,
}

/// The last 64 entries that tell of a fault or of its end, the oldest first.
#[derive(Drop)]
pub struct History {
    entries: HeapCircularBuffer<Entry>,
}

impl Model for History {
    ghost use Rattle.std.specs.Prelude.{List, ◌≡◌};
    ghost use Rattle.fault_history.specs.declared.history.Entry.{Entry};
    ghost use Rattle.fault_history.specs.Histories.{history_limit};

    ghost Value = { List Entry };

    ghost view = { λ h. h.entries.items };

    ghost invariant = { λ h. h.entries.capacity ≡ history_limit };
}

impl History {
    ghost use Rattle.std.specs.Prelude.{◌≡◌, ◌≤◌, [], length, IfOk, slice_get};
    ghost use Rattle.fault_history.specs.Histories.{history_limit, note_of};
    ghost use Rattle.fault_history.specs.declared.history.Entry.{Entry};

    /// A history with no entry, and room for all that it keeps.
    pub fn new(alloc: Global) -> Result<History, NoMemory>
        ensures { IfOk result (λ history. history ≡ []) }
    {
        let entries = HeapCircularBuffer::with_capacity(alloc, HISTORY_LIMIT)?;
        Ok(History { entries })
    }

    /// Adds what a leg was judged where it tells of a fault or of its end; else nothing changes.
    /// The oldest of 64 entries is dropped for it. It takes no memory.
    pub fn note(&mut self, scan: u32, leg: Leg, judged: Judged)
        ensures { let entry : Entry = record { scan = scan; leg = leg; judged = judged } in
            self.new ≡ note_of self.old entry }
    {
        match judged {
            Judged::Accuses(_)
            | Judged::Minority
            | Judged::NoVote
            | Judged::Ready
            | Judged::Rejected => {
                self.entries.push_back(Entry { scan, leg, judged });
            }
            Judged::Agrees | Judged::Waiting | Judged::Learned(_) => {}
        }
    }

    /// How many entries there are.
    pub fn len(&self) -> usize
        ensures number { result ≡ length self.now }
        ensures few { length self.now ≤ history_limit }
    {
        self.entries.len()
    }

    /// The entry at a place, counted from 0; None exactly past the end.
    pub fn at(&self, place: usize) -> Option<Entry>
        ensures { result ≡ slice_get self.now place }
    {
        self.entries.get(place).copied()
    }
}
