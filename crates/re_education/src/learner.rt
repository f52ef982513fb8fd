ghost use Rattle.std.specs.Prelude.{◌≡◌, ◌≤ℤ◌, pos};
ghost use Rattle.re_education.specs.Learned.{last_turn};
ghost use Rattle.re_education.specs.Learning.{next_turn};
ghost use Rattle.re_education.specs.Inner.Shown.{IsSound, sheet_in};

use crate::filling::fill;
use crate::header::{Header, NOTHING, next_header, turn_after};
use crate::progress::{Image, Progress};
use crate::rooms::{grow, hold};
use crate::shown::{Shown, both_show, windows_shown};
use crate::teaching::teach;
use leg_packet::Packet;
use std::alloc::Global;
use std::marker::Model;
use tri_base::{NoMemory, Text, Words};

/// What was learned so far of a memory, and room for it that is kept.
#[derive(Drop)]
pub struct Learner {
    image: Words,
    room: usize,
    header: Header,
}

impl Model for Learner {
    ghost use Rattle.tri_base.specs.Rows.{HasRoom};
    ghost use Rattle.re_education.specs.Lessons.{LearnerValue};
    ghost use Rattle.re_education.specs.Learning.{KeptLesson};
    ghost use Rattle.re_education.specs.Inner.Headers.{lesson_kept};

    ghost Value = { LearnerValue };

    ghost view = { λ r. record { lesson = lesson_kept r.image.list r.header; room = r.room } };

    ghost invariant = { λ r. KeptLesson (lesson_kept r.image.list r.header)
        × HasRoom r.room r.image };
}

impl Learner {
    ghost use Rattle.std.specs.Prelude.{◌≡◌, ◌+◌, ◌≤◌, ◌<◌, None, Some, false, IsOk, OnOk, OnErr, IfOk};
    ghost use Rattle.re_education.specs.Learned.{Learns, ImageIsBounded};
    ghost use Rattle.re_education.specs.Learning.{Goes_on, Ends, KeptLesson, held, learn_of, with_result, does_end, sheet_windows};
    ghost use Rattle.re_education.specs.Lessons.{windows_in, size_shown};
    ghost use Rattle.re_education.specs.Inner.Kept.{does_expect, next_lesson, whole_of};
    ghost use Rattle.re_education.specs.Inner.Shown.{IsSound, sheet_in};

    /// A learner that learned nothing. It takes no memory, and keeps the allocator for later.
    pub fn new(alloc: Global) -> Learner
        ensures { result.lesson ≡ None }
    {
        Learner {
            image: Words::new(alloc),
            room: 0,
            header: NOTHING,
        }
    }

    /// How many windows are learned.
    pub fn windows(&self) -> u32
        ensures windows { result ≡ windows_in self.now.lesson }
        ensures kept { KeptLesson self.now.lesson }
    {
        self.header.windows
    }

    /// Makes the learner one that learned nothing. Its room is kept.
    pub fn forget(&mut self)
        ensures lesson { self.new.lesson ≡ None }
        ensures room { self.new.room ≡ self.old.room }
    {
        self.header = NOTHING;
    }

    /// Keeps room for a memory of so many words in all, text and words together. It takes memory only
    /// where there is less room.
    pub fn reserve(&mut self, room: usize) -> Result<(), NoMemory>
        ensures ok { OnOk result (room ≤ self.new.room) }
        ensures kept { self.old.room ≤ self.new.room }
        ensures lesson { self.new.lesson ≡ self.old.lesson }
        ensures err { OnErr result (self.new ≡ self.old) }
        ensures serves { room ≤ self.old.room → IsOk result }
    {
        grow(&mut self.image, &mut self.room, room)
    }

    /// Learns from the result packets of the two neighbours. Where the room suffices, only the last
    /// window of a rotation takes memory.
    pub fn learn(
        &mut self,
        alloc: Global,
        left: &Packet,
        right: &Packet,
    ) -> Result<Progress, NoMemory>
        ensures learned { Learns (learn_of self.old.lesson left.now right.now)
            result self.new.lesson }
        ensures room { OnOk result (self.old.room ≤ self.new.room) }
        ensures err { OnErr result (self.new ≡ self.old) }
        ensures serves { size_shown left.now right.now ≤ self.old.room
            → does_end (learn_of self.old.lesson left.now right.now) ≡ false → IsOk result }
        ensures image { IfOk result ImageIsBounded }
        ensures kept { KeptLesson self.new.lesson }
    {
        match both_show(left, right) {
            Some(shown) => self.learn_shown(alloc, &shown),
            None => Ok(self.wait()),
        }
    }

    /// Learns nothing, and forgets what was learned.
    fn wait(&mut self) -> Progress
        ensures answer { result ≡ Progress.Waiting }
        ensures lesson { self.new.lesson ≡ None }
        ensures room { self.new.room ≡ self.old.room }
    {
        self.forget();
        Progress::Waiting
    }

    /// Learns what two packets show.
    fn learn_shown(&mut self, alloc: Global, shown: &Shown<'_>) -> Result<Progress, NoMemory>
        requires { IsSound shown.now }
        ensures learned { Learns (with_result self.old.lesson (Some (sheet_in shown.now)))
            result self.new.lesson }
        ensures room { OnOk result (self.old.room ≤ self.new.room) }
        ensures err { OnErr result (self.new ≡ self.old) }
        ensures serves { shown.now.text_length + shown.now.word_length ≤ self.old.room
            → does_end (with_result self.old.lesson (Some (sheet_in shown.now))) ≡ false
            → IsOk result }
        ensures image { IfOk result ImageIsBounded }
        ensures kept { KeptLesson self.new.lesson }
    {
        let known = self.expects(shown);
        let count = self.windows_with(shown, known);
        if (count as usize) < windows_shown(shown) {
            return self.go_on(shown, known, count);
        }
        self.end_rotation(alloc, shown, known)
    }

    /// Whether this is the window that is expected next.
    fn expects(&self, shown: &Shown<'_>) -> bool
        ensures expects { result ≡ does_expect self.now.lesson (sheet_in shown.now) }
        ensures kept { KeptLesson self.now.lesson }
    {
        self.header.windows > 0
            && self.header.epoch == shown.epoch
            && self.header.text_length == shown.text_length
            && self.header.word_length == shown.word_length
            && self.header.turn == shown.turn
    }

    /// How many windows are learned with this one.
    fn windows_with(&self, shown: &Shown<'_>, known: bool) -> u32
        requires { known ≡ does_expect self.now.lesson (sheet_in shown.now) }
        ensures windows { result ≡ (held self.now.lesson (sheet_in shown.now)).windows + 1 }
    {
        if known {
            return self.header.windows + 1;
        }
        1
    }

    /// Learns a window behind which others are missing.
    fn go_on(&mut self, shown: &Shown<'_>, known: bool, count: u32) -> Result<Progress, NoMemory>
        requires sound { IsSound shown.now }
        requires known { known ≡ does_expect self.old.lesson (sheet_in shown.now) }
        requires count { count ≡ (held self.old.lesson (sheet_in shown.now)).windows + 1 }
        requires few { count < sheet_windows (sheet_in shown.now) }
        ensures learned { Learns (Goes_on (next_lesson self.old.lesson (sheet_in shown.now)))
            result self.new.lesson }
        ensures room { OnOk result (self.old.room ≤ self.new.room) }
        ensures err { OnErr result (self.new ≡ self.old) }
        ensures serves { shown.now.text_length + shown.now.word_length ≤ self.old.room
            → IsOk result }
        ensures image { IfOk result ImageIsBounded }
        ensures kept { KeptLesson self.new.lesson }
    {
        hold(
            &mut self.image,
            &mut self.room,
            known,
            shown.text_length + shown.word_length,
        )?;
        teach(&mut self.image, shown);
        self.header = next_header(shown, count);
        Ok(Progress::Learned(count))
    }

    /// Learns the last window of a rotation, and gives the whole memory.
    fn end_rotation(
        &mut self,
        alloc: Global,
        shown: &Shown<'_>,
        known: bool,
    ) -> Result<Progress, NoMemory>
        requires sound { IsSound shown.now }
        requires kept { KeptLesson self.old.lesson }
        requires known { known ≡ does_expect self.old.lesson (sheet_in shown.now) }
        ensures learned { Learns
            (Ends (whole_of (next_lesson self.old.lesson (sheet_in shown.now))))
            result self.new.lesson }
        ensures room { OnOk result (self.old.room ≤ self.new.room) }
        ensures err { OnErr result (self.new ≡ self.old) }
        ensures image { IfOk result ImageIsBounded }
        ensures kept { KeptLesson self.new.lesson }
    {
        let mut text = Text::new(alloc);
        text.reserve(shown.text_length)?;
        let mut words = Words::new(alloc);
        words.reserve(shown.word_length)?;
        hold(
            &mut self.image,
            &mut self.room,
            known,
            shown.text_length + shown.word_length,
        )?;
        teach(&mut self.image, shown);
        fill(&self.image, shown.text_length, &mut text, &mut words);
        self.header = NOTHING;
        Ok(Progress::Ready(image_of(shown, text, words)))
    }
}

/// A whole memory with what is expected next.
fn image_of(shown: &Shown<'_>, text: Text, words: Words) -> Image
    requires { IsSound shown.now }
    ensures epoch { result.epoch ≡ pos shown.now.epoch }
    ensures turn { result.turn ≡ pos (next_turn (sheet_in shown.now)) }
    ensures turn_bound { result.turn ≤ℤ last_turn }
    ensures text { result.text ≡ text }
    ensures words { result.words ≡ words }
{
    Image {
        epoch: shown.epoch as i64,
        turn: turn_after(shown) as i64,
        text,
        words,
    }
}
