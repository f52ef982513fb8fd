ghost use Rattle.std.specs.Prelude.{◌≡◌};
ghost use Rattle.script_lines.specs.Words.{words_of};
ghost use Rattle.cause_effect.specs.Statements.{cause_line, effect_line, end_line, heading, level_word, link_line, mode_word, reset_line, statement_of};

use crate::keyword::Keyword;
use crate::matrix::{Level, Link, Mode};
use script_lines::cut_word;
use tri_base::Name;

/// What a line says by itself.
#[derive(Clone, Copy, Debug, PartialEq, Eq)]
pub enum Statement {
    /// `MATRIX 1`
    Heading,
    /// `CAUSE name HIGH`, `CAUSE name LOW`
    Cause(Name, Level),
    /// `EFFECT name LATCH`, `EFFECT name FOLLOW`
    Effect(Name, Mode),
    /// `RESET name`
    Reset(Name),
    /// `LINK cause effect`
    Link(Link),
    /// `END`
    End,
}

/// Reads the words behind a line's first one; None where they haven't its shape.
pub(crate) fn read_statement(keyword: Keyword, rest: &[u8]) -> Option<Statement>
    ensures { result ≡ statement_of keyword (words_of rest.now) }
{
    match keyword {
        Keyword::Matrix => read_heading(rest),
        Keyword::Cause => read_cause(rest),
        Keyword::Effect => read_effect(rest),
        Keyword::Reset => read_reset(rest),
        Keyword::Link => read_link(rest),
        Keyword::End => read_end(rest),
    }
}

/// The version behind `MATRIX`.
fn read_heading(rest: &[u8]) -> Option<Statement>
    ensures { result ≡ heading (words_of rest.now) }
{
    let (version, rest) = cut_word(rest)?;
    if cut_word(rest).is_some() {
        return None;
    }
    (version == b"1".as_slice()).then_some(Statement::Heading)
}

/// The name and the level behind `CAUSE`.
fn read_cause(rest: &[u8]) -> Option<Statement>
    ensures { result ≡ cause_line (words_of rest.now) }
{
    let (name, rest) = cut_word(rest)?;
    let (level, rest) = cut_word(rest)?;
    if cut_word(rest).is_some() {
        return None;
    }
    let name = Name::read(name)?;
    let level = read_level(level)?;
    Some(Statement::Cause(name, level))
}

/// The level that a word names.
fn read_level(word: &[u8]) -> Option<Level>
    ensures { result ≡ level_word word.now }
{
    if word == b"HIGH".as_slice() {
        Some(Level::High)
    } else if word == b"LOW".as_slice() {
        Some(Level::Low)
    } else {
        None
    }
}

/// The name and the mode behind `EFFECT`.
fn read_effect(rest: &[u8]) -> Option<Statement>
    ensures { result ≡ effect_line (words_of rest.now) }
{
    let (name, rest) = cut_word(rest)?;
    let (mode, rest) = cut_word(rest)?;
    if cut_word(rest).is_some() {
        return None;
    }
    let name = Name::read(name)?;
    let mode = read_mode(mode)?;
    Some(Statement::Effect(name, mode))
}

/// The mode that a word names.
fn read_mode(word: &[u8]) -> Option<Mode>
    ensures { result ≡ mode_word word.now }
{
    if word == b"LATCH".as_slice() {
        Some(Mode::Latch)
    } else if word == b"FOLLOW".as_slice() {
        Some(Mode::Follow)
    } else {
        None
    }
}

/// The name behind `RESET`.
fn read_reset(rest: &[u8]) -> Option<Statement>
    ensures { result ≡ reset_line (words_of rest.now) }
{
    let (name, rest) = cut_word(rest)?;
    if cut_word(rest).is_some() {
        return None;
    }
    let name = Name::read(name)?;
    Some(Statement::Reset(name))
}

/// The names behind `LINK`.
fn read_link(rest: &[u8]) -> Option<Statement>
    ensures { result ≡ link_line (words_of rest.now) }
{
    let (cause, rest) = cut_word(rest)?;
    let (effect, rest) = cut_word(rest)?;
    if cut_word(rest).is_some() {
        return None;
    }
    let cause = Name::read(cause)?;
    let effect = Name::read(effect)?;
    Some(Statement::Link(Link { cause, effect }))
}

/// Nothing behind `END`.
fn read_end(rest: &[u8]) -> Option<Statement>
    ensures { result ≡ end_line (words_of rest.now) }
{
    match cut_word(rest) {
        None => Some(Statement::End),
        Some(_) => None,
    }
}
