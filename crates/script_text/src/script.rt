ghost use Rattle.std.specs.Prelude.{◌≡◌, map, option_map};
ghost use Rattle.script_text.specs.Moments.{moment_at, download_in};
ghost use Rattle.script_text.specs.IsScript.{IsBlock, IsScript};
ghost use Rattle.script_text.specs.ScriptValue.{script_value};

use crate::find_moment::find_moment;
use crate::moment::{Moment, ScanLine};
use chassis::Chassis;
use script_lines::{Block, Legs};
use std::marker::Model;
use tri_base::{Leg, Name, Text};

/// A script, with the lines of its words TEXT and SWAP.
#[derive(Drop)]
pub struct Script {
    pub(crate) chassis: Chassis,
    pub(crate) text: Block,
    pub(crate) text_line: u32,
    pub(crate) swap_lines: Vec<u32>,
    pub(crate) schedule: Legs,
    pub(crate) scans: u32,
    pub(crate) moments: Vec<Moment>,
}

impl Model for Script {
    ghost use Rattle.script_text.specs.ScriptValue.{ReadScript};

    ghost Value = { ReadScript };

    ghost view = { λ s. record {
      value = record {
        points = s.chassis;
        text = s.text;
        schedule = s.schedule;
        scans = s.scans;
        moments = s.moments.items;
      };
      text_line = s.text_line;
      swap_lines = s.swap_lines.items;
    } };

    ghost use Rattle.script_text.specs.IsScript.{IsScript};

    ghost invariant = { λ s. IsScript (record {
      points = s.chassis;
      text = s.text;
      schedule = s.schedule;
      scans = s.scans;
      moments = s.moments.items;
    }) };
}

impl Script {
    /// The script of these parts. In its text the words TEXT and SWAP stand in the given lines.
    pub fn of(
        chassis: Chassis,
        text: Block,
        schedule: Legs,
        scans: u32,
        moments: Vec<Moment>,
        text_line: u32,
        swap_lines: Vec<u32>,
    ) -> Script
        requires { IsScript (script_value chassis text schedule scans moments.items) }
        ensures { result ≡ record {
          value = script_value chassis text schedule scans moments.items;
          text_line = text_line;
          swap_lines = swap_lines.items;
        } }
    {
        Script {
            chassis,
            text,
            text_line,
            swap_lines,
            schedule,
            scans,
            moments,
        }
    }

    /// The number of scans.
    pub fn scans(&self) -> u32
        ensures { result ≡ self.now.value.scans }
    {
        self.scans
    }

    /// The points.
    pub fn chassis(&self) -> &Chassis
        ensures { result.now ≡ self.now.value.points }
    {
        &self.chassis
    }

    /// The text of the program.
    pub fn text(&self) -> &Text
        ensures value { result.now.list ≡ self.now.value.text }
        ensures block { IsBlock self.now.value.text }
    {
        self.text.text()
    }

    /// The line of the word TEXT, from 1.
    pub fn text_line(&self) -> u32
        ensures { result ≡ self.now.text_line }
    {
        self.text_line
    }

    /// The lines of the words SWAP, from 1, in their order.
    pub fn swap_lines(&self) -> &[u32]
        ensures { result.now ≡ self.now.swap_lines }
    {
        self.swap_lines.as_slice()
    }

    /// The legs that take turns, in their order.
    pub fn schedule(&self) -> &[Leg]
        ensures { result.now ≡ self.now.value.schedule }
    {
        self.schedule.legs()
    }

    /// The AT lines with what stands below them.
    pub fn moments(&self) -> &[Moment]
        ensures value { result.now ≡ self.now.value.moments }
        ensures script { IsScript self.now.value }
    {
        self.moments.as_slice()
    }

    /// The text of a scan's download; None where the scan has none.
    pub fn download(&self, scan: u32) -> Option<&Text>
        ensures { option_map (λ t. t.now.list) result ≡
            download_in (moment_at scan self.now.value.moments).lines }
    {
        match find_moment(self.moments(), scan) {
            Some(moment) => download_of(moment.lines()),
            None => None,
        }
    }

    /// The old and new names of the tags that a scan's download renames, in their order.
    pub fn renames(&self, scan: u32) -> &[(Name, Name)]
        ensures { result.now ≡ (moment_at scan self.now.value.moments).renames }
    {
        match find_moment(self.moments(), scan) {
            Some(moment) => moment.renames(),
            None => &[],
        }
    }

    /// The requests of a scan, in their order.
    pub fn asks(&self, scan: u32) -> &[Text]
        ensures { map (λ t. t.list) result.now ≡ (moment_at scan self.now.value.moments).asks }
    {
        match find_moment(self.moments(), scan) {
            Some(moment) => moment.asks(),
            None => &[],
        }
    }
}

/// The text of the first download among lines.
fn download_of(lines: &[ScanLine]) -> Option<&Text>
    ensures { option_map (λ t. t.now.list) result ≡ download_in lines.now }
{
    let mut rest = lines;
    'lines: while let [line, behind @ ..] = rest {
        if let ScanLine::Download(block) = line {
            return Some(block.text());
        }
        rest = behind;
    }
    None
}
