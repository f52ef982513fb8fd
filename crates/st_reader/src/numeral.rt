ghost use Rattle.std.specs.Prelude.{◌≡◌, ◌≤◌, ◌+◌, min, length, drop, fold, false};
ghost use Rattle.std.specs.Char.{digit_value};
ghost use Rattle.st_tree.specs.Numerals as spec;
ghost use Rattle.st_tree.specs.Numerals.{greatest_number};

use tri_base::LexCause;

/// The greatest number.
const GREATEST: u32 = 2_147_483_648;

/// The value of a digit in either case, up to 35; 36 where the byte is none.
fn digit(byte: u8) -> u8
    ensures value { result ≡ digit_value byte }
    ensures small { result ≤ 36 }
{
    match byte {
        b'0'..=b'9' => byte - b'0',
        b'A'..=b'Z' => byte - b'A' + 10,
        b'a'..=b'z' => byte - b'a' + 10,
        _ => 36,
    }
}

fn base(text: &[u8]) -> u8
    ensures value { result ≡ spec.base text.now }
    ensures some { 1 ≤ result }
{
    if text.starts_with(b"16#") {
        16
    } else if text.starts_with(b"2#") {
        2
    } else if text.starts_with(b"8#") {
        8
    } else {
        10
    }
}

fn digits(text: &[u8]) -> &[u8]
    ensures { result.now ≡ spec.digits text.now }
{
    if text.starts_with(b"16#") {
        &text[3..]
    } else if text.starts_with(b"2#") || text.starts_with(b"8#") {
        &text[2..]
    } else {
        text
    }
}

fn are_digits(base: u8, mut text: &[u8]) -> bool
    ensures { result ≡ spec.are_digits base false text.entry.now }
{
    let mut behind_digit = false;
    while let [byte, rest @ ..] = text {
        if *byte == b'_' {
            if !behind_digit {
                return false;
            }
            behind_digit = false;
        } else {
            if digit(*byte) >= base {
                return false;
            }
            behind_digit = true;
        }
        text = rest;
    }
    behind_digit
}

/// The number with one digit more, or one more than the greatest where it is above that.
fn with_digit(base: u8, number: u32, byte: u8) -> u32
    requires { number ≤ greatest_number + 1 }
    ensures value { result ≡ min (spec.with_digit base number byte) (greatest_number + 1) }
    ensures small { result ≤ greatest_number + 1 }
{
    if byte == b'_' {
        return number;
    }
    let longer = u64::from(number) * u64::from(base) + u64::from(digit(byte));
    longer.min(u64::from(GREATEST) + 1) as u32
}

fn value(base: u8, text: &[u8]) -> u32
    requires { 1 ≤ base }
    ensures value { result ≡ min (spec.value base text.now) (greatest_number + 1) }
{
    let mut number = 0;
    for byte in text {
        number = with_digit(base, number, *byte);
    }
    number
}

/// The number that a text spells, from its first digit to its end.
#[tactic(auto, unfolding(st_tree::specs::Numerals::numeral))]
pub fn numeral(text: &[u8]) -> Result<u32, LexCause>
    ensures { result ≡ spec.numeral text.now }
{
    let base = base(text);
    let digits = digits(text);
    if !are_digits(base, digits) {
        return Err(LexCause::BadNumber);
    }
    let number = value(base, digits);
    if number > GREATEST {
        return Err(LexCause::NumberTooLarge);
    }
    Ok(number)
}
