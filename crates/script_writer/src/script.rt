ghost use Rattle.std.specs.Prelude.{◌≡◌, [], ◌∷◌, ◌++◌, ℕ, Bool, map, flat_map, OnOk, OnErr, codes, decimal};
ghost use Rattle.script_lines.specs.Lines.{ended};
ghost use Rattle.script_text.specs.IsScript.{AreLines, AreMoments, IsMoment};
ghost use Rattle.script_writer.specs.Inner.Adding.{Adds, MomentsAre, moment_text, head_text, tail_text};
ghost use Rattle.std.specs.Fmt.{signed_decimal};
ghost use Rattle.script_writer.specs.Canonical.{behind_space, spaced, point_words, line_lines, moment_lines, schedule_lines, block_lines, canonical_text};

use crate::line::{push_asks, push_block, push_line};
use crate::word::{push_letters, push_number_word, push_word};
use script_text::{Moment, ScanLine, Script};
use std::alloc::Global;
use tri_base::{Leg, Name, NoMemory, Point, PointKind, Text, push_bytes};

/// Adds the canonical text of a script, all of it or nothing. It takes memory for the text twice.
pub fn write_script(alloc: Global, script: &Script, text: &mut Text) -> Result<(), NoMemory>
    ensures written { OnOk result (text.new.list ≡ text.old.list ++
        canonical_text script.now.value) }
    ensures refused { OnErr result (text.new ≡ text.old) }
{
    let mut whole = Text::new(alloc);
    push_script(&mut whole, script)?;
    push_bytes(text, whole.bytes())
}

/// Adds the canonical text of a script, or some of it.
fn push_script(text: &mut Text, script: &Script) -> Result<(), NoMemory>
    ensures { Adds result text.old text.new (canonical_text script.now.value) }
{
    push_head(text, script)?;
    push_tail(text, script)
}

/// Adds the lines up to the end of the program.
fn push_head(text: &mut Text, script: &Script) -> Result<(), NoMemory>
    ensures { Adds result text.old text.new (head_text script.now.value) }
{
    let points = script.chassis().points();
    push_bytes(text, b"TRICON 1\n")?;
    push_points(text, points)?;
    push_bytes(text, b"TEXT\n")?;
    push_block(text, script.text())
}

/// Adds the lines behind the program.
fn push_tail(text: &mut Text, script: &Script) -> Result<(), NoMemory>
    ensures { Adds result text.old text.new (tail_text script.now.value) }
{
    push_schedule(text, script.schedule())?;
    push_count(text, b"SCANS", script.scans())?;
    push_moments(text, script.chassis().points(), script.moments())?;
    push_bytes(text, b"END\n")
}

/// Adds a line of a word and a number.
fn push_count(text: &mut Text, word: &[u8], count: u32) -> Result<(), NoMemory>
    ensures { Adds result text.old text.new (ended (spaced (word.now ∷ decimal count ∷ []))) }
{
    push_bytes(text, word)?;
    push_number_word(text, count as i64)?;
    push_bytes(text, b"\n")
}

/// Adds POINT lines.
fn push_points(text: &mut Text, points: &[Point]) -> Result<(), NoMemory>
    ensures { Adds result text.old text.new (flat_map ended (map
        (λ p. spaced (point_words p)) points.now)) }
{
    for point in points {
        push_point(text, point)?;
    }
    Ok(())
}

/// Adds a POINT line.
fn push_point(text: &mut Text, point: &Point) -> Result<(), NoMemory>
    ensures { Adds result text.old text.new (ended (spaced (point_words point.now))) }
{
    match point.kind {
        PointKind::Di => push_named(text, b"POINT DI", &point.name)?,
        PointKind::Do => push_named(text, b"POINT DO", &point.name)?,
        PointKind::Ai => {
            push_named(text, b"POINT AI", &point.name)?;
            push_range(text, point)?;
            push_number_word(text, point.tolerance)?;
        }
        PointKind::Ao => {
            push_named(text, b"POINT AO", &point.name)?;
            push_range(text, point)?;
        }
    }
    push_bytes(text, b"\n")
}

/// Adds words and a name.
fn push_named(text: &mut Text, words: &[u8], name: &Name) -> Result<(), NoMemory>
    ensures { Adds result text.old text.new (words.now ++ behind_space name.now) }
{
    push_bytes(text, words)?;
    push_word(text, name.bytes())
}

/// Adds the ends of a point's range.
fn push_range(text: &mut Text, point: &Point) -> Result<(), NoMemory>
    ensures { Adds result text.old text.new (behind_space (signed_decimal point.now.low) ++
        behind_space (signed_decimal point.now.high)) }
{
    push_number_word(text, point.low)?;
    push_number_word(text, point.high)
}

/// Adds a SCHEDULE line, where there are legs.
fn push_schedule(text: &mut Text, legs: &[Leg]) -> Result<(), NoMemory>
    ensures { Adds result text.old text.new (flat_map ended (schedule_lines legs.now)) }
{
    if legs.is_empty() {
        return Ok(());
    }
    push_bytes(text, b"SCHEDULE ")?;
    push_letters(text, legs)?;
    push_bytes(text, b"\n")
}

/// Adds the AT lines with what stands below them.
fn push_moments(text: &mut Text, points: &[Point], moments: &[Moment]) -> Result<(), NoMemory>
    requires { MomentsAre points.now moments.now }
    ensures { Adds result text.old text.new (flat_map (moment_text points.now) moments.now) }
{
    let mut rest = moments;
    'moments: while let [moment, behind @ ..] = rest {
        push_moment(text, points, moment)?;
        rest = behind;
    }
    Ok(())
}

/// Adds an AT line with what stands below it.
fn push_moment(text: &mut Text, points: &[Point], moment: &Moment) -> Result<(), NoMemory>
    requires { IsMoment points.now moment.now }
    ensures { Adds result text.old text.new (moment_text points.now moment.now) }
{
    push_count(text, b"AT", moment.scan())?;
    push_lines(text, points, moment.renames(), moment.lines())?;
    push_asks(text, moment.asks())
}

/// Adds the lines of a scan.
fn push_lines(
    text: &mut Text,
    points: &[Point],
    renames: &[(Name, Name)],
    lines: &[ScanLine],
) -> Result<(), NoMemory>
    requires { (downloaded : Bool) × AreLines points.now downloaded lines.now }
    ensures { Adds result text.old text.new (flat_map ended (flat_map
        (line_lines points.now renames.now) lines.now)) }
{
    let mut rest = lines;
    'lines: while let [line, behind @ ..] = rest {
        push_line(text, points, renames, line)?;
        rest = behind;
    }
    Ok(())
}
