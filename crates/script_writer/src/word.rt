ghost use Rattle.std.specs.Prelude.{◌≡◌, [], ◌∷◌, ◌++◌, ◌<◌, ◌&&◌, map, flat_map};
ghost use Rattle.std.specs.Ordering.{int_eq};
ghost use Rattle.script_writer.specs.Inner.Adding.{Adds};
ghost use Rattle.std.specs.Fmt.{signed_decimal};
ghost use Rattle.script_writer.specs.Canonical.{behind_space, leg_word, side_words, triple_words, hex_of, digit_of};

use tri_base::{Leg, NoMemory, Side, Text, Triple, push_bytes, push_number};

/// Adds a word behind a space.
pub(crate) fn push_word(text: &mut Text, word: &[u8]) -> Result<(), NoMemory>
    ensures { Adds result text.old text.new (behind_space word.now) }
{
    push_bytes(text, b" ")?;
    push_bytes(text, word)
}

/// Adds a number behind a space.
pub(crate) fn push_number_word(text: &mut Text, number: i64) -> Result<(), NoMemory>
    ensures { Adds result text.old text.new (behind_space (signed_decimal number)) }
{
    push_bytes(text, b" ")?;
    push_number(text, number)
}

/// Adds numbers, each behind a space.
pub(crate) fn push_numbers(text: &mut Text, numbers: &[i64]) -> Result<(), NoMemory>
    ensures { Adds result text.old text.new (flat_map behind_space
        (map signed_decimal numbers.now)) }
{
    for number in numbers {
        push_number_word(text, *number)?;
    }
    Ok(())
}

/// Adds the numbers of all legs: one where they are equal.
pub(crate) fn push_triple(text: &mut Text, numbers: &Triple<i64>) -> Result<(), NoMemory>
    ensures { Adds result text.old text.new (flat_map behind_space (triple_words numbers.now)) }
{
    if are_equal(numbers) {
        return push_number_word(text, numbers.a);
    }
    push_number_word(text, numbers.a)?;
    push_number_word(text, numbers.b)?;
    push_number_word(text, numbers.c)
}

/// Whether all legs' numbers are equal.
fn are_equal(numbers: &Triple<i64>) -> bool
    ensures { result ≡ (int_eq numbers.now.a numbers.now.b && int_eq numbers.now.a numbers.now.c) }
{
    numbers.a == numbers.b && numbers.a == numbers.c
}

/// Adds a leg's letter behind a space.
pub(crate) fn push_leg(text: &mut Text, leg: Leg) -> Result<(), NoMemory>
    ensures { Adds result text.old text.new (behind_space (leg_word leg)) }
{
    match leg {
        Leg::A => push_bytes(text, b" A"),
        Leg::B => push_bytes(text, b" B"),
        Leg::C => push_bytes(text, b" C"),
    }
}

/// Adds a side's word behind a space, where one is named.
pub(crate) fn push_side(text: &mut Text, side: Option<Side>) -> Result<(), NoMemory>
    ensures { Adds result text.old text.new (flat_map behind_space (side_words side)) }
{
    match side {
        None => Ok(()),
        Some(Side::Left) => push_bytes(text, b" LEFT"),
        Some(Side::Right) => push_bytes(text, b" RIGHT"),
    }
}

/// Adds the letters of a schedule.
pub(crate) fn push_letters(text: &mut Text, legs: &[Leg]) -> Result<(), NoMemory>
    ensures { Adds result text.old text.new (flat_map leg_word legs.now) }
{
    for leg in legs {
        push_letter(text, *leg)?;
    }
    Ok(())
}

/// Adds a leg's letter.
fn push_letter(text: &mut Text, leg: Leg) -> Result<(), NoMemory>
    ensures { Adds result text.old text.new (leg_word leg) }
{
    match leg {
        Leg::A => push_bytes(text, b"A"),
        Leg::B => push_bytes(text, b"B"),
        Leg::C => push_bytes(text, b"C"),
    }
}

/// Adds the hexadecimal digits of bytes.
pub(crate) fn push_hex(text: &mut Text, bytes: &[u8]) -> Result<(), NoMemory>
    ensures { Adds result text.old text.new (flat_map hex_of bytes.now) }
{
    for byte in bytes {
        push_byte(text, *byte)?;
    }
    Ok(())
}

/// Adds the two digits of a byte.
fn push_byte(text: &mut Text, byte: u8) -> Result<(), NoMemory>
    ensures { Adds result text.old text.new (hex_of byte) }
{
    push_bytes(text, &[digit(byte / 16), digit(byte % 16)])
}

/// The capital hexadecimal digit of a value.
fn digit(value: u8) -> u8
    requires { value < 16 }
    ensures { result ≡ digit_of value }
{
    b"0123456789ABCDEF"[value as usize]
}
