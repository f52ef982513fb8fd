ghost use Rattle.std.specs.Prelude.{◌≡◌, ◌≤◌, ◌+◌, ◌++◌, length, IsOk, OnOk, OnErr, pos, true, option_map};
ghost use Rattle.std.specs.List.{list_all};
ghost use Rattle.std.specs.Char.{is_ascii_digit};
ghost use Rattle.std.specs.Str.Parse.{digits_value};
ghost use Rattle.std.specs.Fmt.{signed_decimal};
ghost use Rattle.tri_base.specs.Rows.{KeepsRoom};
ghost use Rattle.tri_base.specs.Numbers.{number_of, size_of, is_short_numeral};

use crate::memory::NoMemory;
use crate::text::{Text, push_bytes};
use itoa::Buffer;

/// The number that a text spells: an optional `-` and 1 to 18 decimal digits.
pub fn read_number(text: &[u8]) -> Option<i64>
    ensures { result ≡ number_of text.now }
{
    match text {
        [b'-', digits @ ..] => read_digits(digits).map(|value| -value),
        digits => read_digits(digits),
    }
}

/// Adds the shortest decimal text of a number, all of it or nothing.
pub fn push_number(text: &mut Text, value: i64) -> Result<(), NoMemory>
    ensures list { OnOk result (text.new.list ≡ text.old.list ++ signed_decimal value) }
    ensures room { KeepsRoom text.old text.new }
    ensures room_serves { length (signed_decimal value) ≤ text.old.spare → IsOk result }
    ensures refused { OnErr result (text.new ≡ text.old) }
{
    let mut buffer = Buffer::new();
    push_bytes(text, buffer.format(value).as_bytes())
}

/// The value of 1 to 18 decimal digits.
fn read_digits(text: &[u8]) -> Option<i64>
    ensures { result ≡ option_map (λ n. pos n) (size_of text.now) }
{
    if is_numeral(text) {
        Some(value_of_digits(text))
    } else {
        None
    }
}

/// Whether a text is 1 to 18 decimal digits.
fn is_numeral(text: &[u8]) -> bool
    ensures { result ≡ is_short_numeral text.now }
{
    if text.is_empty() || text.len() > 18 {
        return false;
    }
    are_digits(text)
}

/// Whether each byte is a decimal digit.
fn are_digits(text: &[u8]) -> bool
    ensures { result ≡ list_all is_ascii_digit text.now }
{
    text.iter().all(|byte| byte.is_ascii_digit())
}

/// The number that 1 to 18 decimal digits write.
fn value_of_digits(text: &[u8]) -> i64
    requires { is_short_numeral text.now ≡ true }
    ensures { result ≡ pos (digits_value 10 text.now) }
{
    let mut value = 0u64;
    for byte in text {
        value = 10 * value + (*byte - b'0') as u64;
    }
    value as i64
}
