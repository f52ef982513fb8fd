//! The link from a leg to its printer: a box of four notes.

ghost use Rattle.std.specs.Prelude.{◌≡◌, ◌≤◌, ◌∷◌, ◌++◌, [], length, IfOk};
ghost use Rattle.tribus.specs.Ends.{end};
ghost use Rattle.tribus.specs.NoteLinks.{note_limit};

use crate::link::{Link, Receiver, Sender, SettledLink, open_link};
use fault_history::Note;
use std::alloc::Global;
use std::marker::Model;
use std::sync::Wait;
use tri_base::NoMemory;

/// How many notes a box holds.
const NOTE_LIMIT: usize = 4;

/// What a leg tells its printer.
#[derive(Drop)]
pub enum Told {
    /// The note of its next scan.
    Scan(Note),
    /// There are no more.
    Over,
}

/// The box, kept until both its ends are back. Contracts see which link it is.
#[derive(Drop)]
pub struct NoteLink {
    link: Link<Told, NOTE_LIMIT>,
}

/// The end of the leg. Contracts see its link, and what was told, oldest first.
#[derive(Drop)]
pub struct NoteIn {
    sender: Sender<Told>,
}

/// The end of the printer. Contracts see its link, and what was heard, oldest first.
#[derive(Drop)]
pub struct NoteOut {
    receiver: Receiver<Told>,
}

/// A link of notes whose ends are back. It has nothing that a program reads. Contracts see what was
/// told, what was heard, and what was left in the box.
#[derive(Drop)]
pub struct NoteSettled {
    link: SettledLink<Told>,
}

impl Model for NoteLink {
    ghost use Rattle.atomic_table.specs.Seated.{TableId, table_id_coded};

    ghost Value = { TableId };

    ghost coded = { table_id_coded };

    ghost view = { λ n. n.link };
}

impl Model for NoteIn {
    ghost use Rattle.tribus.specs.Ends.{End};
    ghost use Rattle.tribus.specs.declared.note_link.Told.{Told};

    ghost Value = { End Told };

    ghost view = { λ n. n.sender };
}

impl Model for NoteOut {
    ghost use Rattle.tribus.specs.Ends.{End};
    ghost use Rattle.tribus.specs.declared.note_link.Told.{Told};

    ghost Value = { End Told };

    ghost view = { λ n. n.receiver };
}

impl Model for NoteSettled {
    ghost use Rattle.tribus.specs.Ends.{Trace};
    ghost use Rattle.tribus.specs.declared.note_link.Told.{Told};

    ghost Value = { Trace Told };

    ghost view = { λ n. n.link };
}

impl NoteIn {
    /// Tells one more, once there is a place in the box. It can't be refused, and takes no memory.
    pub fn tell<R: Wait>(&mut self, rt: &R, told: Told)
        ensures { self.new ≡ record self.old { list = self.old.list ++ told ∷ [] } }
    {
        self.sender.put(rt, told);
    }
}

impl NoteOut {
    /// Hears the oldest that is in the box, once there is one. It can't be refused, and takes no
    /// memory.
    pub fn hear<R: Wait>(&mut self, rt: &R) -> Told
        ensures { self.new ≡ record self.old { list = self.old.list ++ result ∷ [] } }
    {
        self.receiver.take(rt)
    }
}

impl NoteLink {
    /// An empty box of four places, and its two ends. At NoMemory what was made of it is let go.
    pub fn make(alloc: Global) -> Result<(NoteLink, NoteIn, NoteOut), NoMemory>
        ensures { IfOk result (λ n. (n.1 ≡ end n.0 []) × (n.2 ≡ end n.0 [])) }
    {
        let (link, sender, receiver) = open_link(alloc)?;
        Ok((NoteLink { link }, NoteIn { sender }, NoteOut { receiver }))
    }

    /// Joins the two ends, and takes out what is left in the box, at most four. The ends are those
    /// that came with this link. What was told is what was heard, and then what was left.
    pub fn settle<R: Wait>(self, rt: &R, told: NoteIn, heard: NoteOut) -> NoteSettled
        requires told { told.link ≡ self }
        requires heard { heard.link ≡ self }
        ensures lists { (result.sent ≡ told.list) × (result.taken ≡ heard.list) }
        ensures whole { result.sent ≡ result.taken ++ result.left }
        ensures left { length result.left ≤ note_limit }
    {
        let NoteLink { link } = self;
        let NoteIn { sender } = told;
        let NoteOut { receiver } = heard;
        NoteSettled {
            link: link.settle(rt, sender, receiver),
        }
    }
}
