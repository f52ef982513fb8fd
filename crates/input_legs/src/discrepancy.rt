ghost use Rattle.std.specs.Prelude.{◌≡◌, ◌<◌, ◌≤◌, ◌+◌, List, ◌∷◌, ◌++◌, length, map, take, drop};
ghost use Rattle.std.specs.List.{All};
ghost use Rattle.tri_base.specs.declared.point.Point.{Point};
ghost use Rattle.chassis.specs.Points.{inputs_of};
ghost use Rattle.vote_analog.specs.Middle.{AreCounts};
ghost use Rattle.input_legs.specs.Marks.{counted_from, counted_on, counted_row, disagreements, mark_count};
ghost use Rattle.input_legs.specs.Inner.Alike.{agreed_row};
ghost use Rattle.input_legs.specs.Inner.Counts.{HoldCounts, IsLow};
ghost use Rattle.input_legs.specs.Inner.Shown.{three_shown};

use crate::alike::common_readings;
use crate::shown::{column, input_count, read_three};
use chassis::{Chassis, is_input};
use leg_packet::{InView, Packet};
use std::alloc::Global;
use std::marker::Model;
use tri_base::{Leg, NoMemory, Point, PointKind, Triple};
use vote_analog::deviates;
use vote_discrete::{dissent, truths};

// So many disagreements in a row are a mark.
const MARK_COUNT: u8 = 5;

/// How often in a row each leg disagreed with the vote, for each input in chassis order. It is seen
/// as the list of these counts. A count of five is a mark, and stays.
#[derive(Drop)]
pub struct Discrepancy {
    counts: Vec<Triple<u8>>,
}

impl Model for Discrepancy {
    ghost use Rattle.std.specs.Prelude.{List, ℕ};
    ghost use Rattle.std.specs.List.{All};
    ghost use Rattle.tri_base.specs.declared.leg.Triple.{Triple};
    ghost use Rattle.input_legs.specs.Inner.Counts.{IsLow};

    ghost Value = { List (Triple ℕ) };

    ghost view = { λ d. d.counts.items };

    ghost invariant = { λ d. All IsLow d.counts.items };
}

impl Discrepancy {
    ghost use Rattle.std.specs.Prelude.{◌≡◌, ◌↔◌, ◌<◌, IsTrue, length, slice_index_or, IfOk};
    ghost use Rattle.tri_base.specs.Legs.{leg_part};
    ghost use Rattle.chassis.specs.Points.{inputs_of};
    ghost use Rattle.input_legs.specs.Marks.{has_mark, mark_count, no_marks, no_row, note_of};

    /// No disagreements, at as many inputs as the chassis has.
    pub fn new(alloc: Global, chassis: &Chassis) -> Result<Discrepancy, NoMemory>
        ensures { IfOk result (λ d. d ≡ no_marks chassis.now) }
    {
        let mut counts = Vec::new(alloc);
        let none = Triple { a: 0, b: 0, c: 0 };
        counts
            .resize(input_count(chassis.points()), none)
            .map_err(|_| NoMemory)?;
        Ok(Discrepancy { counts })
    }

    /// Counts the disagreements of a scan in which the legs showed these packets. The chassis has
    /// as many inputs as that of `new`.
    pub fn note(&mut self, chassis: &Chassis, a: &Packet, b: &Packet, c: &Packet)
        requires { length self.old ≡ length (inputs_of chassis.now) }
        ensures counted { self.new
            ≡ note_of chassis.now (record { a = a.now; b = b.now; c = c.now }) self.old }
        ensures length { length self.new ≡ length self.old }
    {
        // Its points' tolerances are known to be none below 0.
        let _points = chassis.points();
        match common_readings(chassis, a, b, c) {
            Some(_) => agree_on(self.counts.as_mut_slice()),
            None => {
                let shown = read_three(chassis, a, b, c);
                count_on(chassis.points(), &shown, self.counts.as_mut_slice());
            }
        }
    }

    /// Whether a leg has a mark at the input at a place in chassis order: TRUE from its fifth
    /// disagreement in a row on.
    pub fn marked(&self, leg: Leg, point: usize) -> bool
        requires { point < length self.now }
        ensures { IsTrue result
            ↔ (leg_part (slice_index_or self.now point no_row) leg ≡ mark_count) }
    {
        *self.counts[point].at(leg) == MARK_COUNT
    }

    /// Whether some leg has a mark at some input.
    pub fn has_mark(&self) -> bool
        ensures { result ≡ has_mark self.now }
    {
        self.counts.iter().any(|row| row.a == MARK_COUNT
            || row.b == MARK_COUNT
            || row.c == MARK_COUNT)
    }
}

// The counts may be handed to another thread.
fn sends(marks: Discrepancy) {
    needs_send(marks);
}

fn needs_send<T: Send + Drop>(_value: T) {}

/// Counts that no leg disagrees, at each input.
fn agree_on(rows: &mut [Triple<u8>])
    requires low { All IsLow rows.old }
    ensures rows { rows.new ≡ map agreed_row rows.old }
    ensures low { All IsLow rows.new }
{
    let none = Triple {
        a: false,
        b: false,
        c: false,
    };
    for place in 0..rows.len() {
        rows[place] = counted_row(&rows[place], none);
    }
}

/// Counts the disagreements at each input.
fn count_on(points: &[Point], shown: &Triple<Option<InView<'_>>>, rows: &mut [Triple<u8>])
    requires counts { HoldCounts (three_shown shown.now) }
    requires rows { length rows.old ≡ length (inputs_of points.now) }
    requires low { All IsLow rows.old }
    ensures rows { rows.new
        ≡ counted_from (inputs_of points.now) 0 (three_shown shown.now) rows.old }
    ensures low { All IsLow rows.new }
{
    let mut input = 0;
    for point in points {
        if is_input(point.kind) {
            count_at(point, input, shown, rows);
            input += 1;
        }
    }
}

/// Counts the disagreements at the input at a place. Whatever inputs follow are counted from there.
fn count_at(
    point: &Point,
    input: usize,
    shown: &Triple<Option<InView<'_>>>,
    rows: &mut [Triple<u8>],
)
    requires counts { HoldCounts (three_shown shown.now) }
    requires input { input < length rows.old }
    requires low { All IsLow rows.old }
    ensures rows { (more : List Point)
        → take (input + 1) rows.new
        ++ counted_from more (input + 1) (three_shown shown.now) (drop (input + 1) rows.new)
        ≡ take input rows.old
        ++ counted_from (point.now ∷ more) input (three_shown shown.now) (drop input rows.old) }
    ensures low { All IsLow rows.new }
{
    let disagree = disagreements(point, column(shown, input));
    rows[input] = counted_row(&rows[input], disagree);
}

/// Which legs disagree with the vote over their readings of a point.
fn disagreements(point: &Point, readings: Triple<Option<i64>>) -> Triple<bool>
    requires { AreCounts readings }
    ensures { result ≡ disagreements point.now.kind point.now.tolerance readings }
{
    match point.kind {
        PointKind::Di | PointKind::Do => dissent(truths(readings)),
        PointKind::Ai | PointKind::Ao => deviates(readings, point.tolerance),
    }
}

fn counted_row(row: &Triple<u8>, disagree: Triple<bool>) -> Triple<u8>
    requires { IsLow row.now }
    ensures row { result ≡ counted_row row.now disagree }
    ensures low { IsLow result }
{
    Triple {
        a: counted_on(row.a, disagree.a),
        b: counted_on(row.b, disagree.b),
        c: counted_on(row.c, disagree.c),
    }
}

fn counted_on(count: u8, disagrees: bool) -> u8
    requires { count ≤ mark_count }
    ensures count { result ≡ counted_on count disagrees }
    ensures low { result ≤ mark_count }
{
    if count == MARK_COUNT {
        MARK_COUNT
    } else if disagrees {
        count + 1
    } else {
        0
    }
}
