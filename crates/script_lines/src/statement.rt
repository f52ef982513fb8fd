ghost use Rattle.std.specs.Prelude.{◌≡◌, IfOk};
ghost use Rattle.script_lines.specs.Words.{words_of};
ghost use Rattle.script_lines.specs.Statements.{statement_of, heading, setting, reading_of, result_of, drive_of, poke, rename, schedule_of, ask, alone, begins_comment};

use crate::block::Block;
use crate::keyword::Keyword;
use crate::legs::Legs;
use crate::numbers::Numbers;
use crate::operands::{
    only_leg, only_number, read_hex, read_leg, read_legs, read_numbers, read_sided, read_triple,
};
use crate::plant::read_point;
use crate::words::cut_word;
use std::alloc::Global;
use tri_base::{Leg, Name, NoMemory, Point, Side, Triple, read_number};

// The most digits of a request.
const ASK_DIGITS: usize = 520;

/// What a line says by itself.
#[derive(Drop)]
pub enum Statement {
    /// `TRICON 1`
    Heading,
    /// `POINT` and its operands
    Point(Point),
    /// `TEXT`
    Text,
    /// `SCHEDULE letters`
    Schedule(Legs),
    /// `SCANS n`
    Scans(i64),
    /// `AT k`
    At(i64),
    /// `SET point v` or `SET point a b c`
    Set(Name, Triple<i64>),
    /// `TIME t` or `TIME a b c`
    Time(Triple<i64>),
    /// `DOWNLOAD`
    Download,
    /// `MUTE leg`
    Mute(Leg),
    /// `POKE leg address value`
    Poke(Leg, i64, i64),
    /// `REPLACE leg`
    Replace(Leg),
    /// `SWAP leg`
    Swap(Leg),
    /// `RESULT leg [side] words`
    Result(Leg, Option<Side>, Numbers),
    /// `DRIVE leg words`
    Drive(Leg, Numbers),
    /// `RENAME old new`
    Rename(Name, Name),
    /// `ASK hex`, with the bytes that the digits spell
    Ask(Block),
    /// `READ leg [side] words`
    Read(Leg, Option<Side>, Numbers),
    /// `END`
    End,
}

/// Whether a word begins a line that is passed over.
pub fn is_comment(word: &[u8]) -> bool
    ensures { result ≡ begins_comment word.now }
{
    match word {
        [first, ..] => *first == b'#',
        [] => false,
    }
}

/// Reads the words behind a line's first one; None where they haven't its shape.
pub fn read_statement(
    alloc: Global,
    keyword: Keyword,
    rest: &[u8],
) -> Result<Option<Statement>, NoMemory>
    ensures { IfOk result (λ statement. statement ≡ statement_of keyword (words_of rest.now)) }
{
    match keyword {
        Keyword::Tricon => Ok(read_heading(rest)),
        Keyword::Point => Ok(read_point(rest).map(Statement::Point)),
        Keyword::Text => Ok(only(Statement::Text, rest)),
        Keyword::Schedule => read_schedule(alloc, rest),
        Keyword::Scans => Ok(only_number(rest).map(Statement::Scans)),
        Keyword::At => Ok(only_number(rest).map(Statement::At)),
        Keyword::Set => Ok(read_setting(rest)),
        Keyword::Download => Ok(only(Statement::Download, rest)),
        Keyword::Time => Ok(read_triple(rest).map(Statement::Time)),
        Keyword::Mute => Ok(only_leg(rest).map(Statement::Mute)),
        Keyword::Poke => Ok(read_poke(rest)),
        Keyword::Replace => Ok(only_leg(rest).map(Statement::Replace)),
        Keyword::Swap => Ok(only_leg(rest).map(Statement::Swap)),
        Keyword::Result => read_result(alloc, rest),
        Keyword::Drive => read_drive(alloc, rest),
        Keyword::Rename => Ok(read_rename(rest)),
        Keyword::Read => read_reading(alloc, rest),
        Keyword::Ask => read_ask(alloc, rest),
        Keyword::End => Ok(only(Statement::End, rest)),
    }
}
/// A statement of a keyword alone.
fn only(statement: Statement, rest: &[u8]) -> Option<Statement>
    ensures { result ≡ alone statement (words_of rest.now) }
{
    match cut_word(rest) {
        None => Some(statement),
        Some(_) => None,
    }
}

/// `TRICON` and its version.
fn read_heading(rest: &[u8]) -> Option<Statement>
    ensures { result ≡ heading (words_of rest.now) }
{
    let (version, rest) = cut_word(rest)?;
    if cut_word(rest).is_some() {
        return None;
    }
    (version == b"1".as_slice()).then_some(Statement::Heading)
}

/// `SET` and its operands.
fn read_setting(rest: &[u8]) -> Option<Statement>
    ensures { result ≡ setting (words_of rest.now) }
{
    let (name, rest) = cut_word(rest)?;
    let name = Name::read(name)?;
    let reads = read_triple(rest)?;
    Some(Statement::Set(name, reads))
}

/// `READ` and its operands.
fn read_reading(alloc: Global, rest: &[u8]) -> Result<Option<Statement>, NoMemory>
    ensures { IfOk result (λ statement. statement ≡ reading_of (words_of rest.now)) }
{
    match read_sided(alloc, rest)? {
        Some((leg, side, numbers)) => Ok(Some(Statement::Read(leg, side, numbers))),
        None => Ok(None),
    }
}

/// `RESULT` and its operands.
fn read_result(alloc: Global, rest: &[u8]) -> Result<Option<Statement>, NoMemory>
    ensures { IfOk result (λ statement. statement ≡ result_of (words_of rest.now)) }
{
    match read_sided(alloc, rest)? {
        Some((leg, side, numbers)) => Ok(Some(Statement::Result(leg, side, numbers))),
        None => Ok(None),
    }
}

/// `DRIVE` and its operands.
fn read_drive(alloc: Global, rest: &[u8]) -> Result<Option<Statement>, NoMemory>
    ensures { IfOk result (λ statement. statement ≡ drive_of (words_of rest.now)) }
{
    let Some((leg, rest)) = cut_word(rest) else {
        return Ok(None);
    };
    let Some(leg) = read_leg(leg) else {
        return Ok(None);
    };
    match read_numbers(alloc, rest)? {
        Some(numbers) => Ok(Some(Statement::Drive(leg, numbers))),
        None => Ok(None),
    }
}

/// `POKE` and its operands.
fn read_poke(rest: &[u8]) -> Option<Statement>
    ensures { result ≡ poke (words_of rest.now) }
{
    let (leg, rest) = cut_word(rest)?;
    let (address, rest) = cut_word(rest)?;
    let (value, rest) = cut_word(rest)?;
    if cut_word(rest).is_some() {
        return None;
    }
    let leg = read_leg(leg)?;
    let address = read_number(address)?;
    let value = read_number(value)?;
    Some(Statement::Poke(leg, address, value))
}

/// `RENAME` and its operands.
fn read_rename(rest: &[u8]) -> Option<Statement>
    ensures { result ≡ rename (words_of rest.now) }
{
    let (old, rest) = cut_word(rest)?;
    let (new, rest) = cut_word(rest)?;
    if cut_word(rest).is_some() {
        return None;
    }
    let old = Name::read(old)?;
    let new = Name::read(new)?;
    Some(Statement::Rename(old, new))
}

/// `SCHEDULE` and its letters.
fn read_schedule(alloc: Global, rest: &[u8]) -> Result<Option<Statement>, NoMemory>
    ensures { IfOk result (λ statement. statement ≡ schedule_of (words_of rest.now)) }
{
    let Some((letters, rest)) = cut_word(rest) else {
        return Ok(None);
    };
    if cut_word(rest).is_some() {
        return Ok(None);
    }
    match read_legs(alloc, letters)? {
        Some(legs) => Ok(Some(Statement::Schedule(legs))),
        None => Ok(None),
    }
}

/// `ASK` and its digits.
fn read_ask(alloc: Global, rest: &[u8]) -> Result<Option<Statement>, NoMemory>
    ensures { IfOk result (λ statement. statement ≡ ask (words_of rest.now)) }
{
    let Some((digits, rest)) = cut_word(rest) else {
        return Ok(None);
    };
    if cut_word(rest).is_some() || digits.len() < 2 || digits.len() > ASK_DIGITS {
        return Ok(None);
    }
    match read_hex(alloc, digits)? {
        Some(bytes) => Ok(Some(Statement::Ask(bytes))),
        None => Ok(None),
    }
}
