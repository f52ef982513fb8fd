ghost use Rattle.std.specs.Prelude.{◌≡◌, [], ◌∷◌, ◌++◌, Bool, map, flat_map, OnOk, codes, decimal, slice_get, Some};
ghost use Rattle.script_writer.specs.Inner.Adding.{Adds};
ghost use Rattle.std.specs.Fmt.{signed_decimal};
ghost use Rattle.script_lines.specs.Lines.{ended, lines_of};
ghost use Rattle.script_text.specs.IsScript.{IsBlock, IsLine, IsSetting, AreLines};
ghost use Rattle.script_writer.specs.Canonical.{spaced, behind_space, sided_words, triple_words, name_at, block_lines, rename_line, ask_line, line_lines, leg_word};

use crate::word::{
    push_hex, push_leg, push_number_word, push_numbers, push_side, push_triple, push_word,
};
use script_lines::{Block, Numbers};
use script_text::{ScanLine, Setting};
use tri_base::{Leg, Name, NoMemory, Point, Side, Text, Triple, push_bytes};

/// Adds the lines that a line of a scan is written as.
pub(crate) fn push_line(
    text: &mut Text,
    points: &[Point],
    renames: &[(Name, Name)],
    line: &ScanLine,
) -> Result<(), NoMemory>
    requires { (downloaded : Bool) × IsLine points.now downloaded line.now }
    ensures { Adds result text.old text.new (flat_map ended
        (line_lines points.now renames.now line.now)) }
{
    match line {
        ScanLine::Set(setting) => push_setting(text, points, setting),
        ScanLine::Time(reads) => push_times(text, reads),
        ScanLine::Download(block) => push_download(text, renames, block),
        ScanLine::Mute(leg) => push_leg_line(text, b"MUTE", *leg),
        ScanLine::Poke(leg, address, value) => push_poke(text, *leg, *address, *value),
        ScanLine::Replace(leg) => push_leg_line(text, b"REPLACE", *leg),
        ScanLine::Swap(leg, block) => push_swap(text, *leg, block),
        ScanLine::Read(leg, side, numbers) => push_sided(text, b"READ", *leg, *side, numbers),
        ScanLine::Result(leg, side, numbers) => push_sided(text, b"RESULT", *leg, *side, numbers),
        ScanLine::Drive(leg, numbers) => push_drive(text, *leg, numbers),
    }
}

/// Adds a SET line.
fn push_setting(text: &mut Text, points: &[Point], setting: &Setting) -> Result<(), NoMemory>
    ensures { Adds result text.old text.new (ended (spaced (codes "SET" ∷
        name_at (slice_get points.now setting.now.point) ∷ triple_words setting.now.reads))) }
{
    push_bytes(text, b"SET")?;
    push_word(text, name_at(points, setting.point))?;
    push_triple(text, &setting.reads)?;
    push_bytes(text, b"\n")
}

/// The name of the point at a place.
fn name_at(points: &[Point], place: usize) -> &[u8]
    ensures { result.now ≡ name_at (slice_get points.now place) }
{
    match points.get(place) {
        Some(point) => point.name.bytes(),
        None => b"",
    }
}

/// Adds a TIME line.
fn push_times(text: &mut Text, reads: &Triple<i64>) -> Result<(), NoMemory>
    ensures { Adds result text.old text.new (ended (spaced (codes "TIME" ∷
        triple_words reads.now))) }
{
    push_bytes(text, b"TIME")?;
    push_triple(text, reads)?;
    push_bytes(text, b"\n")
}

/// Adds a line of a word and a leg.
fn push_leg_line(text: &mut Text, word: &[u8], leg: Leg) -> Result<(), NoMemory>
    ensures { Adds result text.old text.new (ended (spaced (word.now ∷ leg_word leg ∷ []))) }
{
    push_bytes(text, word)?;
    push_leg(text, leg)?;
    push_bytes(text, b"\n")
}

/// Adds a POKE line.
fn push_poke(text: &mut Text, leg: Leg, address: u32, value: i64) -> Result<(), NoMemory>
    ensures { Adds result text.old text.new (ended (spaced (codes "POKE" ∷ leg_word leg ∷
        decimal address ∷ signed_decimal value ∷ []))) }
{
    push_bytes(text, b"POKE")?;
    push_leg(text, leg)?;
    push_number_word(text, address as i64)?;
    push_number_word(text, value)?;
    push_bytes(text, b"\n")
}

/// Adds a READ or RESULT line.
fn push_sided(
    text: &mut Text,
    word: &[u8],
    leg: Leg,
    side: Option<Side>,
    numbers: &Numbers,
) -> Result<(), NoMemory>
    ensures { Adds result text.old text.new (ended (spaced (word.now ∷
        sided_words leg side numbers.now))) }
{
    push_bytes(text, word)?;
    push_leg(text, leg)?;
    push_side(text, side)?;
    push_numbers(text, numbers.words().items())?;
    push_bytes(text, b"\n")
}

/// Adds a DRIVE line.
fn push_drive(text: &mut Text, leg: Leg, numbers: &Numbers) -> Result<(), NoMemory>
    ensures { Adds result text.old text.new (ended (spaced (codes "DRIVE" ∷ leg_word leg ∷
        map signed_decimal numbers.now))) }
{
    push_bytes(text, b"DRIVE")?;
    push_leg(text, leg)?;
    push_numbers(text, numbers.words().items())?;
    push_bytes(text, b"\n")
}

/// Adds a block's lines and its end.
pub(crate) fn push_block(text: &mut Text, block: &Text) -> Result<(), NoMemory>
    requires { IsBlock block.now.list }
    ensures { Adds result text.old text.new (flat_map ended (lines_of block.now.list ++
        codes "ENDTEXT" ∷ [])) }
{
    push_bytes(text, block.bytes())?;
    push_bytes(text, b"ENDTEXT\n")
}

/// Adds a DOWNLOAD block and the RENAME lines of its scan.
fn push_download(text: &mut Text, renames: &[(Name, Name)], block: &Block) -> Result<(), NoMemory>
    requires { IsBlock block.now }
    ensures { Adds result text.old text.new (flat_map ended (block_lines
        (codes "DOWNLOAD") block.now ++ map rename_line renames.now)) }
{
    push_bytes(text, b"DOWNLOAD\n")?;
    push_block(text, block.text())?;
    push_renames(text, renames)
}

/// Adds a SWAP block.
fn push_swap(text: &mut Text, leg: Leg, block: &Block) -> Result<(), NoMemory>
    requires { IsBlock block.now }
    ensures { Adds result text.old text.new (flat_map ended (block_lines (spaced (codes "SWAP" ∷
        leg_word leg ∷ [])) block.now)) }
{
    push_leg_line(text, b"SWAP", leg)?;
    push_block(text, block.text())
}

/// Adds RENAME lines.
fn push_renames(text: &mut Text, renames: &[(Name, Name)]) -> Result<(), NoMemory>
    ensures { Adds result text.old text.new (flat_map ended (map rename_line renames.now)) }
{
    for names in renames {
        push_rename(text, names)?;
    }
    Ok(())
}

/// Adds a RENAME line.
fn push_rename(text: &mut Text, names: &(Name, Name)) -> Result<(), NoMemory>
    ensures { Adds result text.old text.new (ended (rename_line names.now)) }
{
    push_bytes(text, b"RENAME")?;
    push_word(text, names.0.bytes())?;
    push_word(text, names.1.bytes())?;
    push_bytes(text, b"\n")
}

/// Adds ASK lines.
pub(crate) fn push_asks(text: &mut Text, asks: &[Text]) -> Result<(), NoMemory>
    ensures { Adds result text.old text.new (flat_map ended (map ask_line (map
        (λ t. t.list) asks.now))) }
{
    for ask in asks {
        push_ask(text, ask)?;
    }
    Ok(())
}

/// Adds an ASK line.
fn push_ask(text: &mut Text, ask: &Text) -> Result<(), NoMemory>
    ensures { Adds result text.old text.new (ended (ask_line ask.now.list)) }
{
    push_bytes(text, b"ASK ")?;
    push_hex(text, ask.bytes())?;
    push_bytes(text, b"\n")
}
