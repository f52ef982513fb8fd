ghost use Rattle.std.specs.Prelude.{◌≡◌, ◌≤◌, ◌↔◌, IsTrue, pos, length};
ghost use Rattle.tri_base.specs.declared.leg.Side.TheVariants.{Left, Right};
ghost use Rattle.leg_packet.specs.Readings.{spelled_readings};
ghost use Rattle.script_text.specs.LegScans.{scan_at};
ghost use Rattle.plant_script.specs.Faces.{face};

use script_text::Tape;
use tri_base::Side;

/// Whether a leg shows both neighbours the same readings in a scan.
pub(crate) fn shows_both_the_same(tape: &Tape, scan: u32) -> bool
    requires { (1 ≤ scan) × (scan ≤ length tape.now.scans) }
    ensures { IsTrue result ↔
        (face Left (scan_at tape.now scan) ≡ face Right (scan_at tape.now scan)) }
{
    match (tape.shown(scan, Side::Left), tape.shown(scan, Side::Right)) {
        (None, None) => true,
        (Some(left), Some(right)) => same_words(left.items(), right.items()),
        (Some(words), None) => spells(words.items(), tape.time(scan), tape.readings(scan)),
        (None, Some(words)) => spells(words.items(), tape.time(scan), tape.readings(scan)),
    }
}

/// Whether two lists of words are the same.
fn same_words(left: &[i64], right: &[i64]) -> bool
    ensures { IsTrue result ↔ (left.now ≡ right.now) }
{
    let mut left_behind = left;
    let mut right_behind = right;
    'words: while let [word, others @ ..] = left_behind {
        let [other, right_others @ ..] = right_behind else {
            return false;
        };
        if *word != *other {
            return false;
        }
        left_behind = others;
        right_behind = right_others;
    }
    right_behind.is_empty()
}

/// Whether words spell a scan time and readings.
fn spells(words: &[i64], time: i64, readings: &[i16]) -> bool
    ensures { IsTrue result ↔ (words.now
        ≡ spelled_readings (record { time = time; values = readings.now })) }
{
    match words {
        [1, first, values @ ..] => *first == time && are_same(values, readings),
        _ => false,
    }
}

/// Whether numbers of 64 and of 16 bits are the same ones.
fn are_same(values: &[i64], readings: &[i16]) -> bool
    ensures { IsTrue result ↔ (values.now ≡ readings.now) }
{
    let mut values_left = values;
    let mut readings_left = readings;
    'values: while let [value, values_behind @ ..] = values_left {
        let [reading, readings_behind @ ..] = readings_left else {
            return false;
        };
        if *value != i64::from(*reading) {
            return false;
        }
        values_left = values_behind;
        readings_left = readings_behind;
    }
    readings_left.is_empty()
}
