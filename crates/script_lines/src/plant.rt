ghost use Rattle.std.specs.Prelude.{◌≡◌};
ghost use Rattle.script_lines.specs.Words.{words_of};
ghost use Rattle.script_lines.specs.Statements.{point, discrete, analogue_input, analogue_output};

use crate::words::cut_word;
use tri_base::{Name, Point, PointKind, read_number};

/// The point of the chassis that the words behind `POINT` tell.
pub(crate) fn read_point(rest: &[u8]) -> Option<Point>
    ensures { result ≡ point (words_of rest.now) }
{
    let (kind, rest) = cut_word(rest)?;
    if kind == b"DI".as_slice() {
        read_discrete(PointKind::Di, rest)
    } else if kind == b"AI".as_slice() {
        read_analogue_input(rest)
    } else if kind == b"DO".as_slice() {
        read_discrete(PointKind::Do, rest)
    } else if kind == b"AO".as_slice() {
        read_analogue_output(rest)
    } else {
        None
    }
}

/// A discrete point's name, and nothing behind it.
fn read_discrete(kind: PointKind, rest: &[u8]) -> Option<Point>
    ensures { result ≡ discrete kind (words_of rest.now) }
{
    let (name, rest) = cut_word(rest)?;
    if cut_word(rest).is_some() {
        return None;
    }
    let name = Name::read(name)?;
    Some(Point {
        name,
        kind,
        low: 0,
        high: 1,
        tolerance: 0,
    })
}

/// An analogue input's name, range and tolerance.
fn read_analogue_input(rest: &[u8]) -> Option<Point>
    ensures { result ≡ analogue_input (words_of rest.now) }
{
    let (name, rest) = cut_word(rest)?;
    let (low, rest) = cut_word(rest)?;
    let (high, rest) = cut_word(rest)?;
    let (tolerance, rest) = cut_word(rest)?;
    if cut_word(rest).is_some() {
        return None;
    }
    let name = Name::read(name)?;
    let low = read_number(low)?;
    let high = read_number(high)?;
    let tolerance = read_number(tolerance)?;
    Some(Point {
        name,
        kind: PointKind::Ai,
        low,
        high,
        tolerance,
    })
}

/// An analogue output's name and range.
fn read_analogue_output(rest: &[u8]) -> Option<Point>
    ensures { result ≡ analogue_output (words_of rest.now) }
{
    let (name, rest) = cut_word(rest)?;
    let (low, rest) = cut_word(rest)?;
    let (high, rest) = cut_word(rest)?;
    if cut_word(rest).is_some() {
        return None;
    }
    let name = Name::read(name)?;
    let low = read_number(low)?;
    let high = read_number(high)?;
    Some(Point {
        name,
        kind: PointKind::Ao,
        low,
        high,
        tolerance: 0,
    })
}
