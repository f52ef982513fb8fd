ghost use Rattle.std.specs.Prelude.{◌≡◌, ◌<◌, ◌≤◌, nat_le, fold, length, [], ◌∷◌, ◌++◌, OnOk, IfOk, Some, None, MatchOption, option_map};
ghost use Rattle.script_text.specs.Acts.{act_of};
ghost use Rattle.script_text.specs.LegScans.{same_leg};
ghost use Rattle.script_text.specs.Inner.LegParts.{nothing_said, lines_shown, lines_result, lines_muted, said_to, names_leg, with_said, lines_for, some_line, said_in, shown_by, result_by, renames_by, all_said, lines_until, LinesSorted, LinesCount, lines_on};

use crate::act::{Act, Acts, swap_act};
use crate::moment::{Moment, ScanLine};
use script_lines::{Block, Numbers};
use std::alloc::Global;
use std::marker::Model;
use tri_base::{Leg, Name, NoMemory, Side, Text, Words};

/// What the lines of a scan say to a leg.
#[derive(Drop)]
pub(crate) struct LegLines {
    pub(crate) scan: u32,
    pub(crate) acts: Acts,
    pub(crate) shown_left: Option<Numbers>,
    pub(crate) shown_right: Option<Numbers>,
    pub(crate) result_left: Option<Numbers>,
    pub(crate) result_right: Option<Numbers>,
    pub(crate) drive: Option<Numbers>,
    pub(crate) text: Option<Block>,
    pub(crate) renames: Vec<(Name, Name)>,
}

impl Model for LegLines {
    ghost use Rattle.script_text.specs.Inner.LegParts.{LegLinesValue};

    ghost Value = { LegLinesValue };

    ghost view = { λ l. record {
      scan = l.scan;
      acts = l.acts;
      shown_left = l.shown_left;
      shown_right = l.shown_right;
      result_left = l.result_left;
      result_right = l.result_right;
      drive = l.drive;
      text = l.text;
      renames = l.renames.items;
    } };
}

impl LegLines {
    /// Nothing, with the renames of a scan.
    fn new(alloc: Global, scan: u32, renames: &[(Name, Name)]) -> Result<LegLines, NoMemory>
        ensures { IfOk result (λ lines. lines ≡ nothing_said scan renames.now) }
    {
        let Ok(renames) = Vec::from_slice(alloc, renames) else {
            return Err(NoMemory);
        };
        Ok(LegLines {
            scan,
            acts: Acts::new(alloc),
            shown_left: None,
            shown_right: None,
            result_left: None,
            result_right: None,
            drive: None,
            text: None,
            renames,
        })
    }

    /// Takes a line of the scan.
    fn take_line(&mut self, alloc: Global, leg: Leg, line: &ScanLine) -> Result<(), NoMemory>
        ensures { OnOk result (self.new ≡ with_said leg self.old line.now) }
    {
        if names(leg, line) {
            self.take(alloc, line)?;
        }
        Ok(())
    }

    /// Takes a line that names the leg.
    fn take(&mut self, alloc: Global, line: &ScanLine) -> Result<(), NoMemory>
        ensures { OnOk result (self.new ≡ said_to self.old line.now) }
    {
        match line {
            ScanLine::Set(_) | ScanLine::Time(_) => Ok(()),
            ScanLine::Download(text) => {
                self.text = Some(text.copy(alloc)?);
                Ok(())
            }
            ScanLine::Mute(_) => {
                self.mute(alloc);
                Ok(())
            }
            ScanLine::Poke(_, address, value) => self.acts.add(Act::Poke {
                address: *address as usize,
                value: *value,
            }),
            ScanLine::Replace(_) => self.acts.add(Act::Replace),
            ScanLine::Swap(_, text) => self.acts.add(swap_act(alloc, text)?),
            ScanLine::Read(_, side, words) => self.show(alloc, *side, words),
            ScanLine::Result(_, side, words) => self.put(alloc, *side, words),
            ScanLine::Drive(_, words) => {
                self.drive = Some(words.copy(alloc)?);
                Ok(())
            }
        }
    }

    /// The leg puts and drives no words.
    fn mute(&mut self, alloc: Global)
        ensures { self.new ≡ lines_muted self.old }
    {
        self.shown_left = Some(Numbers::new(alloc));
        self.shown_right = Some(Numbers::new(alloc));
        self.result_left = Some(Numbers::new(alloc));
        self.result_right = Some(Numbers::new(alloc));
        self.drive = Some(Numbers::new(alloc));
    }

    /// Words in place of a readings packet, on a side or on both.
    fn show(&mut self, alloc: Global, side: Option<Side>, words: &Numbers) -> Result<(), NoMemory>
        ensures { OnOk result (self.new ≡ lines_shown self.old side words.now) }
    {
        match side {
            None => {
                self.shown_left = Some(words.copy(alloc)?);
                self.shown_right = Some(words.copy(alloc)?);
            }
            Some(Side::Left) => self.shown_left = Some(words.copy(alloc)?),
            Some(Side::Right) => self.shown_right = Some(words.copy(alloc)?),
        }
        Ok(())
    }

    /// Words in place of a result packet, on a side or on both.
    fn put(&mut self, alloc: Global, side: Option<Side>, words: &Numbers) -> Result<(), NoMemory>
        ensures { OnOk result (self.new ≡ lines_result self.old side words.now) }
    {
        match side {
            None => {
                self.result_left = Some(words.copy(alloc)?);
                self.result_right = Some(words.copy(alloc)?);
            }
            Some(Side::Left) => self.result_left = Some(words.copy(alloc)?),
            Some(Side::Right) => self.result_right = Some(words.copy(alloc)?),
        }
        Ok(())
    }

    /// The scan of the lines.
    fn scan(&self) -> u32
        ensures { result ≡ self.now.scan }
    {
        self.scan
    }

    /// What is shown on a side.
    pub(crate) fn shown(&self, side: Side) -> Option<&Words>
        ensures { option_map (λ w. w.now.list) result ≡ shown_by side self.now }
    {
        match side {
            Side::Left => words_of(&self.shown_left),
            Side::Right => words_of(&self.shown_right),
        }
    }

    /// The result words on a side.
    pub(crate) fn result(&self, side: Side) -> Option<&Words>
        ensures { option_map (λ w. w.now.list) result ≡ result_by side self.now }
    {
        match side {
            Side::Left => words_of(&self.result_left),
            Side::Right => words_of(&self.result_right),
        }
    }

    /// What the leg drives.
    pub(crate) fn drive(&self) -> Option<&Words>
        ensures { option_map (λ w. w.now.list) result ≡ self.now.drive }
    {
        words_of(&self.drive)
    }

    /// The text of the download.
    pub(crate) fn download(&self) -> Option<&Text>
        ensures { option_map (λ t. t.now.list) result ≡ self.now.text }
    {
        match &self.text {
            Some(block) => Some(block.text()),
            None => None,
        }
    }

    /// The renames of the download.
    pub(crate) fn renames(&self) -> &[(Name, Name)]
        ensures { result.now ≡ renames_by self.now }
    {
        match &self.text {
            Some(_) => self.renames.as_slice(),
            None => &[],
        }
    }
}

/// The words of numbers that may be there.
fn words_of(numbers: &Option<Numbers>) -> Option<&Words>
    ensures { option_map (λ w. w.now.list) result ≡ numbers.now }
{
    match numbers {
        Some(numbers) => Some(numbers.words()),
        None => None,
    }
}

/// Whether a line says something to a leg.
fn names(leg: Leg, line: &ScanLine) -> bool
    ensures { result ≡ names_leg leg line.now }
{
    match line {
        ScanLine::Set(_) | ScanLine::Time(_) => false,
        ScanLine::Download(_) => true,
        ScanLine::Mute(other)
        | ScanLine::Replace(other)
        | ScanLine::Poke(other, _, _)
        | ScanLine::Swap(other, _)
        | ScanLine::Read(other, _, _)
        | ScanLine::Result(other, _, _)
        | ScanLine::Drive(other, _) => is_leg(*other, leg),
    }
}

/// Whether two legs are one.
fn is_leg(other: Leg, leg: Leg) -> bool
    ensures { result ≡ same_leg other leg }
{
    matches!(
        (other, leg),
        (Leg::A, Leg::A) | (Leg::B, Leg::B) | (Leg::C, Leg::C)
    )
}

/// Whether any line says something to a leg.
fn names_any(leg: Leg, lines: &[ScanLine]) -> bool
    ensures { result ≡ some_line leg lines.now }
{
    let mut rest = lines;
    'lines: while let [line, behind @ ..] = rest {
        if names(leg, line) {
            return true;
        }
        rest = behind;
    }
    false
}

/// What the lines of a scan say to a leg.
fn lines_for(alloc: Global, leg: Leg, moment: &Moment) -> Result<LegLines, NoMemory>
    ensures { IfOk result (λ lines. lines ≡ lines_for leg moment.now) }
{
    let mut lines = LegLines::new(alloc, moment.scan, moment.renames.as_slice())?;
    for line in moment.lines.as_slice() {
        lines.take_line(alloc, leg, line)?;
    }
    Ok(lines)
}

/// Adds what the lines of a scan say to a leg, where they say something.
fn add_lines(
    alloc: Global,
    leg: Leg,
    moment: &Moment,
    all: &mut Vec<LegLines>,
) -> Result<(), NoMemory>
    ensures { OnOk result (all.new.items ≡ all.old.items ++ said_in leg moment.now) }
{
    if !names_any(leg, moment.lines.as_slice()) {
        return Ok(());
    }
    let Ok(()) = all.push(lines_for(alloc, leg, moment)?) else {
        return Err(NoMemory);
    };
    Ok(())
}

/// What the lines of all scans say to a leg, by scan.
pub(crate) fn all_lines(
    alloc: Global,
    leg: Leg,
    moments: &[Moment],
) -> Result<Vec<LegLines>, NoMemory>
    ensures { IfOk result (λ all. all.items ≡ all_said leg moments.now) }
{
    let mut all = Vec::new(alloc);
    let mut rest = moments;
    'moments: while let [moment, behind @ ..] = rest {
        add_lines(alloc, leg, moment, &mut all)?;
        rest = behind;
    }
    Ok(all)
}

/// What the lines of a scan say; None where they say nothing.
pub(crate) fn find_lines(lines: &[LegLines], scan: u32) -> Option<&LegLines>
    requires { LinesSorted lines.now }
    ensures { MatchOption result (lines_on scan lines.now ≡
        nothing_said scan []) (λ l. lines_on scan lines.now ≡ l.now) }
{
    let count = lines_up_to(lines, scan);
    if count == 0 {
        return None;
    }
    let last = &lines[count - 1];
    if last.scan() == scan {
        Some(last)
    } else {
        None
    }
}

/// How many are of a scan or of one before it.
fn lines_up_to(lines: &[LegLines], scan: u32) -> usize
    requires { LinesSorted lines.now }
    ensures bound { result ≤ length lines.now }
    ensures parts { LinesCount scan lines.now result }
{
    lines.partition_point(
        |l: &LegLines| -> bool
            ensures { result ≡ nat_le l.now.scan scan }
        { l.scan <= scan },
    )
}
