ghost use Rattle.std.specs.Prelude.{◌≡◌, ◌<◌, ◌≤◌, nat_le, fold, length, slice_index_or, [], ◌∷◌, ◌++◌, OnOk, IfOk};
ghost use Rattle.tri_base.specs.Legs.{leg_part};
ghost use Rattle.script_text.specs.Inner.LegParts.{with_reading, next_row, rows_from, AllFit, MomentsFit, SetFits, HasBits, row_until, RowsSorted, RowsCount};

use crate::moment::{Moment, ScanLine, Setting};
use std::alloc::Global;
use std::marker::Model;
use tri_base::{Leg, NoMemory};

/// What a leg reads from a scan on: the scan time, and each input's count of 16 bits.
#[derive(Drop)]
pub(crate) struct Row {
    pub(crate) scan: u32,
    pub(crate) time: i64,
    pub(crate) readings: Vec<i16>,
}

impl Model for Row {
    ghost use Rattle.script_text.specs.Inner.LegParts.{RowValue};

    ghost Value = { RowValue };

    ghost view = { λ r. record { scan = r.scan; time = r.time; readings = r.readings.items } };
}

impl Row {
    /// The same again.
    fn copy(&self, alloc: Global) -> Result<Row, NoMemory>
        ensures { IfOk result (λ row. row ≡ self.now) }
    {
        let Ok(readings) = Vec::from_slice(alloc, self.readings.as_slice()) else {
            return Err(NoMemory);
        };
        Ok(Row {
            scan: self.scan,
            time: self.time,
            readings,
        })
    }

    /// Takes the lines of a scan.
    fn take_lines(&mut self, places: &[usize], leg: Leg, lines: &[ScanLine])
        requires { AllFit places.now (length self.old.readings) lines.now }
        ensures lines { self.new ≡ fold (with_reading places.now leg) self.old lines.now }
        ensures inputs { length self.new.readings ≡ length self.old.readings }
    {
        let mut rest = lines;
        'lines: while let [line, behind @ ..] = rest {
            self.take_line(places, leg, line);
            rest = behind;
        }
    }

    /// Takes a line of the scan.
    fn take_line(&mut self, places: &[usize], leg: Leg, line: &ScanLine)
        requires { SetFits places.now (length self.old.readings) line.now }
        ensures line { self.new ≡ with_reading places.now leg self.old line.now }
        ensures inputs { length self.new.readings ≡ length self.old.readings }
    {
        match line {
            ScanLine::Set(setting) => self.set(places, leg, setting),
            ScanLine::Time(reads) => self.time = *reads.at(leg),
            _ => {}
        }
    }

    /// Sets an input's reading.
    fn set(&mut self, places: &[usize], leg: Leg, setting: &Setting)
        requires { SetFits places.now (length self.old.readings) (ScanLine.Set setting.now) }
        ensures line { self.new ≡ with_reading places.now leg self.old (ScanLine.Set setting.now) }
        ensures inputs { length self.new.readings ≡ length self.old.readings }
    {
        let value = count_of(*setting.reads.at(leg));
        self.readings[places[setting.point]] = value;
    }
}

/// A reading of 16 bits.
fn count_of(reading: i64) -> i16
    requires { HasBits reading }
    ensures { result ≡ reading }
{
    reading as i16
}

/// What a leg reads from the scan of each moment on.
pub(crate) fn rows_for(
    alloc: Global,
    places: &[usize],
    leg: Leg,
    start: &Row,
    moments: &[Moment],
) -> Result<Vec<Row>, NoMemory>
    requires { MomentsFit places.now (length start.now.readings) moments.now }
    ensures { IfOk result (λ rows. rows.items ≡ rows_from places.now leg start.now moments.now) }
{
    let mut rows = Vec::new(alloc);
    let mut row = start.copy(alloc)?;
    let mut rest = moments;
    'moments: while let [moment, behind @ ..] = rest {
        row.scan = moment.scan;
        row.take_lines(places, leg, moment.lines.as_slice());
        let Ok(()) = rows.push(row.copy(alloc)?) else {
            return Err(NoMemory);
        };
        rest = behind;
    }
    Ok(rows)
}

/// The last row up to a scan, or the one before all.
pub(crate) fn find_row<'t>(start: &'t Row, rows: &'t [Row], scan: u32) -> &'t Row
    requires { RowsSorted rows.now }
    ensures { result.now ≡ row_until start.now scan rows.now }
{
    let count = rows_up_to(rows, scan);
    if count == 0 { start } else { &rows[count - 1] }
}

/// How many rows are of a scan or of one before it.
fn rows_up_to(rows: &[Row], scan: u32) -> usize
    requires { RowsSorted rows.now }
    ensures bound { result ≤ length rows.now }
    ensures parts { RowsCount scan rows.now result }
{
    rows.partition_point(
        |row: &Row| -> bool
            ensures { result ≡ nat_le row.now.scan scan }
        { row.scan <= scan },
    )
}
