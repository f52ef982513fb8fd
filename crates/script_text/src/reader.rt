ghost use Rattle.std.specs.Prelude.{◌≡◌, ◌+◌, ◌<◌, ◌^◌, slice_get, Some, Ok, [], ◌&&◌, OnOk};
ghost use Rattle.chassis.specs.Points.{place_of, refusal_of};
ghost use Rattle.tri_base.specs.Limits.{scan_limit};
ghost use Rattle.script_lines.specs.Words.{words_of};
ghost use Rattle.chassis.specs.Ranges.{is_within};
ghost use Rattle.script_text.specs.Standing.{Standing, beginning, after, outside, worded, stated, may_stand, timed, is_time, poked, inside, opening, with_rename, with_ask, pointed, scans_to, at_scan, count_within, set_point, set_input, all_within, download, closed, blocked, line_added, with_last, with_line, address_limit};
ghost use Rattle.script_text.specs.IsScript.{IsScript};
ghost use Rattle.tri_base.specs.Limits.{scan_limit};
ghost use Rattle.script_text.specs.Spells.{script_in};
ghost use Rattle.script_text.specs.Inner.Steps.{Steps, finished};

use crate::fault::{LineFault, ScriptCause, ScriptFault};
use crate::moment::{Moment, Opener, ScanLine, Setting};
use crate::script::Script;
use chassis::{Chassis, ChassisFault, is_input};
use script_lines::{
    Block, Keyword, Legs, Part, Statement, cut_word, follows, is_comment, keyword_part,
    read_keyword, read_statement,
};
use std::alloc::Global;
use std::marker::Model;
use std::mem::replace;
use tri_base::{Leg, Name, NoMemory, Point, SCAN_LIMIT, SCAN_TIME_LIMIT, Text, Triple};

// The greatest address of a word.
const ADDRESS: u32 = 4_095;

/// A script as far as it was read.
#[derive(Drop)]
pub struct Reader {
    alloc: Global,
    line: u32,
    part: Part,
    opened: Option<Opener>,
    block: Block,
    chassis: Chassis,
    text: Block,
    text_line: u32,
    swap_lines: Vec<u32>,
    schedule: Legs,
    scans: u32,
    last: u32,
    downloaded: bool,
    moments: Vec<Moment>,
}

impl Model for Reader {
    ghost use Rattle.script_text.specs.Standing.{Standing};

    ghost Value = { Standing };

    ghost view = { λ r. record {
      line = r.line;
      part = r.part;
      opened = r.opened;
      block = r.block;
      points = r.chassis;
      text = r.text;
      text_line = r.text_line;
      swap_lines = r.swap_lines.items;
      schedule = r.schedule;
      scans = r.scans;
      last = r.last;
      downloaded = r.downloaded;
      moments = r.moments.items;
    } };
}

impl Reader {
    /// Nothing was read yet.
    pub(crate) fn new(alloc: Global) -> Reader
        ensures { result ≡ beginning }
    {
        Reader {
            alloc,
            line: 0,
            part: Part::Nothing,
            opened: None,
            block: Block::new(alloc),
            chassis: Chassis::new(alloc),
            text: Block::new(alloc),
            text_line: 0,
            swap_lines: Vec::new(alloc),
            schedule: Legs::new(alloc),
            scans: 0,
            last: 0,
            downloaded: false,
            moments: Vec::new(alloc),
        }
    }

    /// Takes one line more.
    pub(crate) fn take(&mut self, content: &[u8]) -> Result<(), LineFault>
        requires { self.old.line + 1 < 2 ^ 32 }
        ensures step { Steps (after self.old content.now) result self.new }
        ensures line { self.new.line ≡ self.old.line + 1 }
    {
        self.line += 1;
        match self.opened {
            Some(opener) => self
                .take_block_line(opener, content)
                .map_err(|_| LineFault::NoMemory),
            None => self.take_line(content),
        }
    }

    /// Takes a line of a block.
    fn take_block_line(&mut self, opener: Opener, content: &[u8]) -> Result<(), NoMemory>
        ensures step { OnOk result (self.new ≡ blocked self.old opener content.now) }
        ensures line { self.new.line ≡ self.old.line }
    {
        if content == b"ENDTEXT".as_slice() {
            return self.close(opener);
        }
        self.block.add(content)?;
        self.block.add(b"\n")
    }

    /// Takes the line that ends a block.
    fn close(&mut self, opener: Opener) -> Result<(), NoMemory>
        ensures step { OnOk result (self.new ≡ closed self.old opener) }
        ensures line { self.new.line ≡ self.old.line }
    {
        let block = replace(&mut self.block, Block::new(self.alloc));
        self.opened = None;
        match opener {
            Opener::Program => {
                self.text = block;
                Ok(())
            }
            Opener::Download => add_line(&mut self.moments, ScanLine::Download(block)),
            Opener::Swap(leg) => add_line(&mut self.moments, ScanLine::Swap(leg, block)),
        }
    }

    /// Takes a line outside text blocks.
    fn take_line(&mut self, content: &[u8]) -> Result<(), LineFault>
        ensures step { Steps (outside self.old (words_of content.now)) result self.new }
        ensures line { self.new.line ≡ self.old.line }
    {
        match cut_word(content) {
            None => Ok(()),
            Some((word, rest)) => {
                if is_comment(word) {
                    return Ok(());
                }
                self.take_words(read_keyword(word), rest)
            }
        }
    }

    /// Takes a line by its first word.
    fn take_words(&mut self, keyword: Option<Keyword>, rest: &[u8]) -> Result<(), LineFault>
        ensures step { Steps (worded self.old keyword (words_of rest.now)) result self.new }
        ensures line { self.new.line ≡ self.old.line }
    {
        let Some(keyword) = keyword else {
            return Err(LineFault::Cause(ScriptCause::Word));
        };
        if !self.may_stand(keyword) {
            return Err(LineFault::Cause(ScriptCause::Word));
        }
        match read_statement(self.alloc, keyword, rest) {
            Err(_) => Err(LineFault::NoMemory),
            Ok(None) => Err(LineFault::Cause(ScriptCause::Form)),
            Ok(Some(statement)) => self.take_statement(statement),
        }
    }

    /// Whether a line with this first word may stand here.
    fn may_stand(&self, keyword: Keyword) -> bool
        ensures { result ≡ may_stand self.now keyword }
    {
        follows(self.part, keyword_part(keyword))
            && (self.downloaded || !matches!(keyword, Keyword::Rename))
    }

    /// Takes a line of the right shape.
    fn take_statement(&mut self, statement: Statement) -> Result<(), LineFault>
        ensures step { Steps (stated self.old statement) result self.new }
        ensures line { self.new.line ≡ self.old.line }
    {
        match statement {
            Statement::Heading => {
                self.part = Part::Heading;
                Ok(())
            }
            Statement::Point(point) => self.take_point(point),
            Statement::Text => {
                self.text_line = self.line;
                self.open(Part::Program, Opener::Program);
                Ok(())
            }
            Statement::Scans(number) => self.take_scans(number),
            Statement::At(number) => self.take_at(number),
            Statement::Set(name, reads) => self.take_setting(&name, reads),
            Statement::Download => self.take_download(),
            Statement::Schedule(legs) => self.take_schedule(&legs).map_err(|_| LineFault::NoMemory),
            Statement::Time(reads) => self.take_times(reads),
            Statement::Mute(leg) => self.take_scan_line(ScanLine::Mute(leg)),
            Statement::Poke(leg, address, value) => self.take_poke(leg, address, value),
            Statement::Replace(leg) => self.take_scan_line(ScanLine::Replace(leg)),
            Statement::Swap(leg) => self.take_swap(leg).map_err(|_| LineFault::NoMemory),
            Statement::Read(leg, side, numbers) => {
                self.take_scan_line(ScanLine::Read(leg, side, numbers))
            }
            Statement::Result(leg, side, numbers) => {
                self.take_scan_line(ScanLine::Result(leg, side, numbers))
            }
            Statement::Drive(leg, numbers) => self.take_scan_line(ScanLine::Drive(leg, numbers)),
            Statement::Rename(old, new) => self.take_rename((old, new)),
            Statement::Ask(bytes) => self.take_ask(bytes),
            Statement::End => {
                self.part = Part::Ended;
                Ok(())
            }
        }
    }

    /// Adds a line of the scan to the last moment.
    fn take_scan_line(&mut self, line: ScanLine) -> Result<(), LineFault>
        ensures step { Steps (Ok (line_added self.old line)) result self.new }
        ensures line { self.new.line ≡ self.old.line }
    {
        self.part = Part::Inside;
        add_line(&mut self.moments, line).map_err(|_| LineFault::NoMemory)
    }

    /// Takes a SCHEDULE line's legs.
    fn take_schedule(&mut self, legs: &Legs) -> Result<(), NoMemory>
        ensures step { OnOk result (stated self.old (Statement.Schedule legs.now) ≡ Ok self.new) }
        ensures line { self.new.line ≡ self.old.line }
    {
        self.schedule.append(legs)?;
        self.part = Part::Order;
        Ok(())
    }

    /// Takes a TIME line's scan times.
    fn take_times(&mut self, reads: Triple<i64>) -> Result<(), LineFault>
        ensures step { Steps (timed self.old reads) result self.new }
        ensures line { self.new.line ≡ self.old.line }
    {
        if !are_times(&reads) {
            return Err(LineFault::Cause(ScriptCause::Range));
        }
        self.take_scan_line(ScanLine::Time(reads))
    }

    /// Takes a POKE line.
    fn take_poke(&mut self, leg: Leg, address: i64, value: i64) -> Result<(), LineFault>
        ensures step { Steps (poked self.old leg value
            (count_within 0 address_limit address)) result self.new }
        ensures line { self.new.line ≡ self.old.line }
    {
        match count(0, ADDRESS, address) {
            Some(address) => self.take_scan_line(ScanLine::Poke(leg, address, value)),
            None => Err(LineFault::Cause(ScriptCause::Range)),
        }
    }

    /// Takes the first line of a SWAP block.
    fn take_swap(&mut self, leg: Leg) -> Result<(), NoMemory>
        ensures step { OnOk result (stated self.old (Statement.Swap leg) ≡ Ok self.new) }
        ensures line { self.new.line ≡ self.old.line }
    {
        self.swap_lines.push(self.line).map_err(|_| NoMemory)?;
        self.open(Part::Inside, Opener::Swap(leg));
        Ok(())
    }

    /// Takes a RENAME line's names.
    fn take_rename(&mut self, names: (Name, Name)) -> Result<(), LineFault>
        ensures step { Steps (Ok (inside self.old (with_rename names))) result self.new }
        ensures line { self.new.line ≡ self.old.line }
    {
        self.part = Part::Inside;
        add_rename(&mut self.moments, names).map_err(|_| LineFault::NoMemory)
    }

    /// Takes an ASK line's bytes.
    fn take_ask(&mut self, bytes: Block) -> Result<(), LineFault>
        ensures step { Steps (Ok (inside self.old (with_ask bytes))) result self.new }
        ensures line { self.new.line ≡ self.old.line }
    {
        self.part = Part::Inside;
        add_ask(&mut self.moments, bytes.into_text()).map_err(|_| LineFault::NoMemory)
    }

    /// Begins a block.
    fn open(&mut self, part: Part, opener: Opener)
        ensures { self.new ≡ opening self.old part opener }
    {
        self.part = part;
        self.opened = Some(opener);
        self.block = Block::new(self.alloc);
    }

    /// Takes a POINT line's point.
    fn take_point(&mut self, point: Point) -> Result<(), LineFault>
        ensures step { Steps (pointed self.old point
            (refusal_of self.old.points point)) result self.new }
        ensures line { self.new.line ≡ self.old.line }
    {
        match self.chassis.add(point) {
            Ok(()) => {
                self.part = Part::Plant;
                Ok(())
            }
            Err(ChassisFault::NoMemory) => Err(LineFault::NoMemory),
            Err(fault) => Err(LineFault::Cause(ScriptCause::Chassis(fault))),
        }
    }

    /// Takes a SCANS line's number.
    fn take_scans(&mut self, number: i64) -> Result<(), LineFault>
        ensures step { Steps (scans_to self.old
            (count_within 1 scan_limit number)) result self.new }
        ensures line { self.new.line ≡ self.old.line }
    {
        let Some(scans) = count(1, SCAN_LIMIT, number) else {
            return Err(LineFault::Cause(ScriptCause::Range));
        };
        self.part = Part::Count;
        self.scans = scans;
        Ok(())
    }

    /// Takes an AT line's number.
    fn take_at(&mut self, number: i64) -> Result<(), LineFault>
        ensures step { Steps (at_scan self.old (count_within
            (self.old.last + 1) self.old.scans number)) result self.new }
        ensures line { self.new.line ≡ self.old.line }
    {
        let Some(scan) = count_above(self.last, self.scans, number) else {
            return Err(LineFault::Cause(ScriptCause::Order));
        };
        self.moments
            .push(Moment::new(self.alloc, scan))
            .map_err(|_| LineFault::NoMemory)?;
        self.part = Part::Moment;
        self.last = scan;
        self.downloaded = false;
        Ok(())
    }

    /// Takes a SET line.
    fn take_setting(&mut self, name: &Name, reads: Triple<i64>) -> Result<(), LineFault>
        ensures step { Steps (set_point self.old reads
            (place_of self.old.points name.now)) result self.new }
        ensures line { self.new.line ≡ self.old.line }
    {
        match self.chassis.find(name) {
            Some(place) => self.take_reads(place, reads),
            None => Err(LineFault::Cause(ScriptCause::Point)),
        }
    }

    /// Takes the readings for the point at a place.
    fn take_reads(&mut self, place: usize, reads: Triple<i64>) -> Result<(), LineFault>
        ensures step { Steps (set_input self.old place reads
            (slice_get self.old.points place)) result self.new }
        ensures line { self.new.line ≡ self.old.line }
    {
        let Some(point) = self.chassis.points().get(place) else {
            return Err(LineFault::Cause(ScriptCause::Point));
        };
        if !is_input(point.kind) {
            return Err(LineFault::Cause(ScriptCause::Point));
        }
        if !within_all(point, &reads) {
            return Err(LineFault::Cause(ScriptCause::Range));
        }
        let setting = Setting {
            point: place,
            reads,
        };
        self.take_scan_line(ScanLine::Set(setting))
    }

    /// Takes the first line of a DOWNLOAD block.
    fn take_download(&mut self) -> Result<(), LineFault>
        ensures step { Steps (download self.old) result self.new }
        ensures line { self.new.line ≡ self.old.line }
    {
        if self.downloaded {
            return Err(LineFault::Cause(ScriptCause::Second));
        }
        self.downloaded = true;
        self.open(Part::Inside, Opener::Download);
        Ok(())
    }

    /// How many lines were taken.
    pub(crate) fn line(&self) -> u32
        ensures { result ≡ self.now.line }
    {
        self.line
    }

    /// The script, where the lines came to its end.
    pub(crate) fn finish(self) -> Result<Script, ScriptFault>
        requires line { self.line + 1 < 2 ^ 32 }
        requires script { self.part ≡ Part.Ended → IsScript (script_in self).value }
        ensures { result ≡ finished self self.part }
    {
        if self.part != Part::Ended {
            return Err(ScriptFault::At {
                line: self.line + 1,
                cause: ScriptCause::End,
            });
        }
        Ok(Script {
            chassis: self.chassis,
            text: self.text,
            text_line: self.text_line,
            swap_lines: self.swap_lines,
            schedule: self.schedule,
            scans: self.scans,
            moments: self.moments,
        })
    }
}

/// Adds a line to the last moment.
fn add_line(moments: &mut Vec<Moment>, line: ScanLine) -> Result<(), NoMemory>
    ensures { OnOk result (moments.new.items ≡ with_last (with_line line) moments.old.items) }
{
    if let Some(moment) = moments.last_mut() {
        let Ok(()) = moment.lines.push(line) else {
            return Err(NoMemory);
        };
    }
    Ok(())
}

/// Adds a rename to the last moment.
fn add_rename(moments: &mut Vec<Moment>, names: (Name, Name)) -> Result<(), NoMemory>
    ensures { OnOk result (moments.new.items ≡ with_last (with_rename names) moments.old.items) }
{
    if let Some(moment) = moments.last_mut() {
        let Ok(()) = moment.renames.push(names) else {
            return Err(NoMemory);
        };
    }
    Ok(())
}

/// Adds a request to the last moment.
fn add_ask(moments: &mut Vec<Moment>, bytes: Text) -> Result<(), NoMemory>
    ensures { OnOk result (moments.new.items ≡ with_last (with_ask bytes.list) moments.old.items) }
{
    if let Some(moment) = moments.last_mut() {
        let Ok(()) = moment.asks.push(bytes) else {
            return Err(NoMemory);
        };
    }
    Ok(())
}

/// Whether all legs' scan times are such.
fn are_times(reads: &Triple<i64>) -> bool
    ensures { result ≡ (is_time reads.now.a && is_time reads.now.b && is_time reads.now.c) }
{
    is_time(reads.a) && is_time(reads.b) && is_time(reads.c)
}

/// Whether a scan time lies within its limits.
fn is_time(time: i64) -> bool
    ensures { result ≡ is_time time }
{
    1 <= time && time <= SCAN_TIME_LIMIT
}

/// A number as a count, where it lies from `low` to `high`.
fn count(low: u32, high: u32, number: i64) -> Option<u32>
    ensures { result ≡ count_within low high number }
{
    if low as i64 <= number && number <= high as i64 {
        Some(number as u32)
    } else {
        None
    }
}

/// A number as a count, where it lies above `last` and at most at `high`.
fn count_above(last: u32, high: u32, number: i64) -> Option<u32>
    ensures { result ≡ count_within (last + 1) high number }
{
    if (last as i64) < number && number <= high as i64 {
        Some(number as u32)
    } else {
        None
    }
}

/// Whether the readings of all legs lie in their point's range.
fn within_all(point: &Point, reads: &Triple<i64>) -> bool
    ensures { result ≡ all_within point.now reads.now }
{
    within(point, reads.a) && within(point, reads.b) && within(point, reads.c)
}

/// Whether a reading lies in its point's range.
fn within(point: &Point, value: i64) -> bool
    ensures { result ≡ is_within point.now value }
{
    point.low <= value && value <= point.high
}
