ghost use Rattle.std.specs.Prelude.{◌≡◌, map, OnErr, OnOk};
ghost use Rattle.script_text.specs.Standing.{new_moment, with_line};

use script_lines::{Block, Numbers};
use std::alloc::Global;
use std::marker::Model;
use tri_base::{Leg, Name, NoMemory, Side, Text, Triple};

/// What an input reads from a scan on.
#[derive(Clone, Copy, Debug, PartialEq, Eq)]
pub struct Setting {
    /// The place of the input among all points of the chassis.
    pub point: usize,
    /// The reading of each leg.
    pub reads: Triple<i64>,
}

/// What a text block is for.
#[derive(Clone, Copy, Debug, PartialEq, Eq)]
pub enum Opener {
    /// The program's text.
    Program,
    /// A download.
    Download,
    /// A program that a leg is given.
    Swap(Leg),
}

/// A line of a scan, but for RENAME and ASK.
#[derive(Drop)]
pub enum ScanLine {
    /// An input's readings, from this scan on.
    Set(Setting),
    /// The scan times that the legs read, in milliseconds, from this scan on.
    Time(Triple<i64>),
    /// The text of the scan's download.
    Download(Block),
    /// A leg puts packets without words, and a drive without words.
    Mute(Leg),
    /// A leg's word at an address gets a value.
    Poke(Leg, u32, i64),
    /// A leg begins to learn.
    Replace(Leg),
    /// A leg runs another program.
    Swap(Leg, Block),
    /// The words of the readings packet that a leg puts, on one side or on both.
    Read(Leg, Option<Side>, Numbers),
    /// The words of the result packet that a leg puts, on one side or on both.
    Result(Leg, Option<Side>, Numbers),
    /// What a leg drives.
    Drive(Leg, Numbers),
}

/// The lines of one scan.
#[derive(Drop)]
pub struct Moment {
    pub(crate) scan: u32,
    pub(crate) lines: Vec<ScanLine>,
    pub(crate) renames: Vec<(Name, Name)>,
    pub(crate) asks: Vec<Text>,
}

impl Model for Moment {
    ghost use Rattle.std.specs.Prelude.{map};
    ghost use Rattle.script_text.specs.MomentValue.{MomentValue};

    ghost Value = { MomentValue };

    ghost view = { λ m. record {
      scan = m.scan;
      lines = m.lines.items;
      renames = m.renames.items;
      asks = map (λ t. t.list) m.asks.items;
    } };
}

impl Moment {
    /// No lines yet of the scan with a number, from 1. It takes no memory.
    pub fn new(alloc: Global, scan: u32) -> Moment
        ensures { result ≡ new_moment scan }
    {
        Moment {
            scan,
            lines: Vec::new(alloc),
            renames: Vec::new(alloc),
            asks: Vec::new(alloc),
        }
    }

    /// Adds a line behind the others.
    pub fn add(&mut self, line: ScanLine) -> Result<(), NoMemory>
        ensures added { OnOk result (self.new ≡ with_line line self.old) }
        ensures refused { OnErr result (self.new ≡ self.old) }
    {
        let Ok(()) = self.lines.push(line) else {
            return Err(NoMemory);
        };
        Ok(())
    }

    /// The scan's number, from 1.
    pub fn scan(&self) -> u32
        ensures { result ≡ self.now.scan }
    {
        self.scan
    }

    /// The lines of the scan but RENAME and ASK, in their order.
    pub fn lines(&self) -> &[ScanLine]
        ensures { result.now ≡ self.now.lines }
    {
        self.lines.as_slice()
    }

    /// The old and new names of the tags that the scan's download renames.
    pub fn renames(&self) -> &[(Name, Name)]
        ensures { result.now ≡ self.now.renames }
    {
        self.renames.as_slice()
    }

    /// The requests that are answered after the scan.
    pub fn asks(&self) -> &[Text]
        ensures { map (λ t. t.list) result.now ≡ self.now.asks }
    {
        self.asks.as_slice()
    }
}
