ghost use Rattle.std.specs.Prelude.{◌≡◌, ◌≤◌, ◌+◌, ◌*◌, ◌++◌, length, slice_get, OnOk};
ghost use Rattle.modbus_face.specs.Data.{bit_of, bits_of, byte_from, register_of, registers_of};
ghost use Rattle.modbus_face.specs.Frames.{two_bytes};

use tri_base::{NoMemory, Text, push_bytes};

/// Adds values as bits, eight to a byte, the first as the lowest bit.
pub fn push_bits(text: &mut Text, values: &[i64]) -> Result<(), NoMemory>
    ensures { OnOk result (text.new.list ≡ text.old.list ++ bits_of values.now) }
{
    for turn in 0..values.len().div_ceil(8) {
        push_bytes(text, &[byte_from(values, 8 * turn)])?;
    }
    Ok(())
}

/// The byte of the bits of eight values from a place on.
fn byte_from(values: &[i64], place: usize) -> u8
    requires { place ≤ length values.now }
    ensures { result ≡ byte_from values.now place }
{
    bit_at(values, place)
        + 2 * bit_at(values, place + 1)
        + 4 * bit_at(values, place + 2)
        + 8 * bit_at(values, place + 3)
        + 16 * bit_at(values, place + 4)
        + 32 * bit_at(values, place + 5)
        + 64 * bit_at(values, place + 6)
        + 128 * bit_at(values, place + 7)
}

/// The bit of the value at a place; 0 behind the last one.
fn bit_at(values: &[i64], place: usize) -> u8
    ensures value { result ≡ bit_of (slice_get values.now place) }
    ensures one_bit { result ≤ 1 }
{
    match values.get(place) {
        Some(value) => u8::from(*value != 0),
        None => 0,
    }
}

/// Adds values as registers, each of two bytes.
pub fn push_registers(text: &mut Text, values: &[i64]) -> Result<(), NoMemory>
    ensures { OnOk result (text.new.list ≡ text.old.list ++ registers_of values.now) }
{
    for value in values {
        push_bytes(text, &register_bytes(*value))?;
    }
    Ok(())
}

/// A value's 16 bits in two's complement, the high byte first.
fn register_bytes(value: i64) -> [u8; 2]
    ensures { result ≡ two_bytes (register_of value) }
{
    let register = value.rem_euclid(65_536);
    [(register / 256) as u8, (register % 256) as u8]
}
