ghost use Rattle.std.specs.Prelude.{◌≡◌, ◌<◌, IfOk, IfSome, option_map};
ghost use Rattle.script_lines.specs.Words.{words_of};
ghost use Rattle.script_lines.specs.Statements.{single_number, triple, numbers_of, sided_of, sided_leg, single_leg, legs_of, leg_of, side_of, hex_digit, hex_byte, hex_bytes};

use crate::block::Block;
use crate::legs::Legs;
use crate::numbers::Numbers;
use crate::words::cut_word;
use std::alloc::Global;
use tri_base::{Leg, NoMemory, Side, Triple, read_number};

/// The number that a rest of a line is; None where it isn't one number alone.
pub(crate) fn only_number(rest: &[u8]) -> Option<i64>
    ensures { result ≡ single_number (words_of rest.now) }
{
    let (number, rest) = cut_word(rest)?;
    if cut_word(rest).is_some() {
        return None;
    }
    read_number(number)
}

/// One number for all legs, or one for each.
pub(crate) fn read_triple(rest: &[u8]) -> Option<Triple<i64>>
    ensures { result ≡ triple (words_of rest.now) }
{
    let (a, rest) = cut_word(rest)?;
    let Some((b, rest)) = cut_word(rest) else {
        let value = read_number(a)?;
        return Some(Triple {
            a: value,
            b: value,
            c: value,
        });
    };
    let (c, rest) = cut_word(rest)?;
    if cut_word(rest).is_some() {
        return None;
    }
    let a = read_number(a)?;
    let b = read_number(b)?;
    let c = read_number(c)?;
    Some(Triple { a, b, c })
}

/// The numbers that a rest of a line is; None where a word is no number.
pub(crate) fn read_numbers(alloc: Global, rest: &[u8]) -> Result<Option<Numbers>, NoMemory>
    ensures { IfOk result (λ numbers. numbers ≡ numbers_of (words_of rest.now)) }
{
    let mut numbers = Numbers::new(alloc);
    let mut rest = rest;
    'words: while let Some((word, behind)) = cut_word(rest) {
        let Some(number) = read_number(word) else {
            return Ok(None);
        };
        numbers.add(number)?;
        rest = behind;
    }
    Ok(Some(numbers))
}

/// The leg that a word names.
pub(crate) fn read_leg(word: &[u8]) -> Option<Leg>
    ensures { result ≡ leg_of word.now }
{
    if word == b"A".as_slice() {
        Some(Leg::A)
    } else if word == b"B".as_slice() {
        Some(Leg::B)
    } else if word == b"C".as_slice() {
        Some(Leg::C)
    } else {
        None
    }
}

/// The side that a word names.
fn read_side(word: &[u8]) -> Option<Side>
    ensures { result ≡ side_of word.now }
{
    if word == b"LEFT".as_slice() {
        Some(Side::Left)
    } else if word == b"RIGHT".as_slice() {
        Some(Side::Right)
    } else {
        None
    }
}

/// The leg that a rest of a line is; None where it isn't one leg alone.
pub(crate) fn only_leg(rest: &[u8]) -> Option<Leg>
    ensures { result ≡ single_leg (words_of rest.now) }
{
    let (leg, rest) = cut_word(rest)?;
    if cut_word(rest).is_some() {
        return None;
    }
    read_leg(leg)
}

/// A leg, a side where one is named, and the numbers behind it.
pub(crate) fn read_sided(
    alloc: Global,
    rest: &[u8],
) -> Result<Option<(Leg, Option<Side>, Numbers)>, NoMemory>
    ensures { IfOk result (λ sided. sided ≡ sided_of (words_of rest.now)) }
{
    let Some((leg, rest)) = cut_word(rest) else {
        return Ok(None);
    };
    let Some(leg) = read_leg(leg) else {
        return Ok(None);
    };
    read_leg_side(alloc, leg, rest)
}

/// A side where the first word is one, and the numbers behind it.
fn read_leg_side(
    alloc: Global,
    leg: Leg,
    rest: &[u8],
) -> Result<Option<(Leg, Option<Side>, Numbers)>, NoMemory>
    ensures { IfOk result (λ sided. sided ≡ sided_leg leg (words_of rest.now)) }
{
    if let Some((word, behind)) = cut_word(rest) {
        if let Some(side) = read_side(word) {
            return Ok(with_side(leg, Some(side), read_numbers(alloc, behind)?));
        }
    }
    Ok(with_side(leg, None, read_numbers(alloc, rest)?))
}

/// A leg and a side beside the numbers of their line.
fn with_side(
    leg: Leg,
    side: Option<Side>,
    numbers: Option<Numbers>,
) -> Option<(Leg, Option<Side>, Numbers)>
    ensures { result ≡ option_map (λ numbers. (leg, side, numbers)) numbers }
{
    match numbers {
        Some(numbers) => Some((leg, side, numbers)),
        None => None,
    }
}

/// The legs that a word's letters are; None where a letter is none.
pub(crate) fn read_legs(alloc: Global, word: &[u8]) -> Result<Option<Legs>, NoMemory>
    ensures { IfOk result (λ legs. legs ≡ legs_of word.now) }
{
    let mut legs = Legs::new(alloc);
    let mut rest = word;
    'letters: while let [letter, behind @ ..] = rest {
        let Some(leg) = read_leg(&[*letter]) else {
            return Ok(None);
        };
        legs.add(leg)?;
        rest = behind;
    }
    Ok(Some(legs))
}

/// The bytes that a word's hexadecimal digits spell; None where it isn't such digits in pairs.
pub(crate) fn read_hex(alloc: Global, word: &[u8]) -> Result<Option<Block>, NoMemory>
    ensures { IfOk result (λ bytes. bytes ≡ hex_bytes word.now) }
{
    let mut bytes = Block::new(alloc);
    let mut rest = word;
    'pairs: while let [high, low, behind @ ..] = rest {
        let Some(byte) = read_pair(*high, *low) else {
            return Ok(None);
        };
        bytes.add_byte(byte)?;
        rest = behind;
    }
    Ok(rest.is_empty().then_some(bytes))
}

/// The byte that two hexadecimal digits spell.
fn read_pair(high: u8, low: u8) -> Option<u8>
    ensures { result ≡ hex_byte high low }
{
    let high = read_hex_digit(high)?;
    let low = read_hex_digit(low)?;
    Some(16 * high + low)
}

/// The value of a hexadecimal digit.
fn read_hex_digit(digit: u8) -> Option<u8>
    ensures value { result ≡ hex_digit digit }
    ensures small { IfSome result (λ value. value < 16) }
{
    let place = hex_place(digit)?;
    Some(place as u8)
}

/// The place of a digit among the hexadecimal digits.
fn hex_place(digit: u8) -> Option<usize>
    ensures { result ≡ hex_digit digit }
{
    let digit = digit.to_ascii_uppercase();
    b"0123456789ABCDEF".iter().position(|other| *other == digit)
}
