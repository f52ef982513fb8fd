ghost use Rattle.std.specs.Prelude.{◌≡◌, ◌<◌, ◌≤◌, ◌+◌, ◌++◌, [], ◌∷◌, length, map, slice_index_or, OnOk, IfOk, pos, Some, None, option_map};
ghost use Rattle.std.specs.List.{All};
ghost use Rattle.chassis.specs.Points.{inputs_of};
ghost use Rattle.script_text.specs.Acts.{act_of};
ghost use Rattle.script_text.specs.LegScans.{IsReadable, scan_at, tape_of, shown_on, result_on, renames_of, first_time};
ghost use Rattle.script_text.specs.Inner.LegParts.{places_from, row_until, lines_on};

use crate::act::Act;
use crate::leg_lines::{LegLines, all_lines, find_lines};
use crate::row::{Row, find_row, rows_for};
use crate::script::Script;
use chassis::is_input;
use script_lines::Numbers;
use std::alloc::Global;
use std::marker::Model;
use tri_base::{Leg, Name, NoMemory, Point, Side, Text, Words};

// The scan time before the first TIME line, in milliseconds.
const FIRST_TIME: i64 = 100;

/// What one leg sees of a script, scan by scan. It takes two bytes an input for each AT line.
#[derive(Drop)]
pub struct Tape {
    scans: u32,
    // before the first AT line
    start: Row,
    // from each AT line on
    rows: Vec<Row>,
    // of the scans with lines for the leg
    lines: Vec<LegLines>,
}

impl Model for Tape {
    ghost use Rattle.script_text.specs.LegScans.{TapeValue};

    ghost Value = { TapeValue };

    ghost use Rattle.script_text.specs.Inner.LegParts.{scans_kept, RowsSorted, LinesSorted};

    ghost view = { λ t. record { scans = scans_kept t.scans t.start t.rows.items t.lines.items } };

    ghost invariant = { λ t. record {
      rows : RowsSorted t.rows.items;
      lines : LinesSorted t.lines.items;
    } };
}

impl Tape {
    /// The number of scans.
    pub fn scans(&self) -> u32
        ensures { result ≡ length self.now.scans }
    {
        self.scans
    }

    /// The scan time in milliseconds.
    pub fn time(&self, scan: u32) -> i64
        requires { (1 ≤ scan) × (scan ≤ length self.now.scans) }
        ensures { result ≡ (scan_at self.now scan).time }
    {
        let time = find_row(&self.start, self.rows.as_slice(), scan).time;
        time
    }

    /// What an input reads, by its place among the inputs.
    pub fn reading(&self, scan: u32, input: usize) -> i64
        requires scan { (1 ≤ scan) × (scan ≤ length self.now.scans) }
        requires input { input < length (scan_at self.now scan).readings }
        ensures { result ≡ slice_index_or (scan_at self.now scan).readings input (pos 0) }
    {
        i64::from(self.readings(scan)[input])
    }

    /// What all inputs read, in chassis order.
    pub fn readings(&self, scan: u32) -> &[i16]
        requires { (1 ≤ scan) × (scan ≤ length self.now.scans) }
        ensures { result.now ≡ (scan_at self.now scan).readings }
    {
        find_row(&self.start, self.rows.as_slice(), scan)
            .readings
            .as_slice()
    }

    /// The lines POKE, REPLACE and SWAP for the leg, in their order.
    pub fn acts(&self, scan: u32) -> &[Act]
        requires { (1 ≤ scan) × (scan ≤ length self.now.scans) }
        ensures { map act_of result.now ≡ (scan_at self.now scan).acts }
    {
        match find_lines(self.lines.as_slice(), scan) {
            Some(lines) => lines.acts.items(),
            None => &[],
        }
    }

    /// The words of the READ or MUTE line that decides on a side; None where there is none.
    pub fn shown(&self, scan: u32, side: Side) -> Option<&Words>
        requires { (1 ≤ scan) × (scan ≤ length self.now.scans) }
        ensures { option_map (λ w. w.now.list) result ≡ shown_on side (scan_at self.now scan) }
    {
        match find_lines(self.lines.as_slice(), scan) {
            Some(lines) => lines.shown(side),
            None => None,
        }
    }

    /// The words of the RESULT or MUTE line that decides on a side; None where there is none.
    pub fn result(&self, scan: u32, side: Side) -> Option<&Words>
        requires { (1 ≤ scan) × (scan ≤ length self.now.scans) }
        ensures { option_map (λ w. w.now.list) result ≡ result_on side (scan_at self.now scan) }
    {
        match find_lines(self.lines.as_slice(), scan) {
            Some(lines) => lines.result(side),
            None => None,
        }
    }

    /// The words of the DRIVE or MUTE line that decides; None where there is none.
    pub fn drive(&self, scan: u32) -> Option<&Words>
        requires { (1 ≤ scan) × (scan ≤ length self.now.scans) }
        ensures { option_map (λ w. w.now.list) result ≡ (scan_at self.now scan).drive }
    {
        match find_lines(self.lines.as_slice(), scan) {
            Some(lines) => lines.drive(),
            None => None,
        }
    }

    /// The text of the scan's download; None where there is none.
    pub fn download(&self, scan: u32) -> Option<&Text>
        requires { (1 ≤ scan) × (scan ≤ length self.now.scans) }
        ensures { option_map (λ t. t.now.list) result ≡
            option_map (λ d. d.text) (scan_at self.now scan).download }
    {
        match find_lines(self.lines.as_slice(), scan) {
            Some(lines) => lines.download(),
            None => None,
        }
    }

    /// The old and new names of the tags that the scan's download renames.
    pub fn renames(&self, scan: u32) -> &[(Name, Name)]
        requires { (1 ≤ scan) × (scan ≤ length self.now.scans) }
        ensures { result.now ≡ renames_of (scan_at self.now scan).download }
    {
        match find_lines(self.lines.as_slice(), scan) {
            Some(lines) => lines.renames(),
            None => &[],
        }
    }
}

impl Script {
    /// What one leg sees of the script.
    pub fn tape(&self, alloc: Global, leg: Leg) -> Result<Tape, NoMemory>
        ensures tape { IfOk result (λ tape. tape ≡ tape_of self.now.value leg) }
        ensures readable { IfOk result (λ tape. All (IsReadable self.now.value.points) tape.scans) }
    {
        let points = self.chassis().points();
        let places = places_of(alloc, points)?;
        let start = first_row(alloc, points)?;
        let rows = rows_for(alloc, places.as_slice(), leg, &start, self.moments())?;
        Ok(Tape {
            scans: self.scans(),
            start,
            rows,
            lines: all_lines(alloc, leg, self.moments())?,
        })
    }
}

/// The place of each point among the inputs, or of the next input where it is an output.
fn places_of(alloc: Global, points: &[Point]) -> Result<Vec<usize>, NoMemory>
    ensures { IfOk result (λ places. places.items ≡ places_from 0 points.now) }
{
    let mut places = Vec::new(alloc);
    let mut count = 0;
    let mut rest = points;
    'points: while let [point, behind @ ..] = rest {
        let Ok(()) = places.push(count) else {
            return Err(NoMemory);
        };
        count += usize::from(is_input(point.kind));
        rest = behind;
    }
    Ok(places)
}

/// The readings before the first AT line.
fn first_row(alloc: Global, points: &[Point]) -> Result<Row, NoMemory>
    ensures { IfOk result (λ row. row ≡
        record {
          scan = 0;
          time = first_time;
          readings = map
              (λ p. pos 0) (inputs_of points.now);
        }) }
{
    let mut readings: Vec<i16> = Vec::new(alloc);
    let mut rest = points;
    'points: while let [point, behind @ ..] = rest {
        if is_input(point.kind) {
            let Ok(()) = readings.push(0) else {
                return Err(NoMemory);
            };
        }
        rest = behind;
    }
    Ok(Row {
        scan: 0,
        time: FIRST_TIME,
        readings,
    })
}

/// Takes what may go to another thread.
fn needs_send<T: Send + Drop>(_value: T) {}

/// A tape may.
fn tape_is_send(tape: Tape) {
    needs_send(tape);
}
