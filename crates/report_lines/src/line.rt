ghost use Rattle.std.specs.Prelude.{◌≡◌, ◌++◌, ◌∷◌, OnOk};
ghost use Rattle.std.specs.List.{flat_map};
ghost use Rattle.tri_base.specs.Rows.{KeepsRoom};
ghost use Rattle.report_lines.specs.Lines.{line, spaced};

use tri_base::{NoMemory, Text, push_bytes, push_number};

/// Adds a line: a word, and numbers behind it. Where memory fails, a part of it may stand there.
pub fn push_line(text: &mut Text, word: &[u8], numbers: &[i64]) -> Result<(), NoMemory>
    ensures text { OnOk result (text.new.list ≡ text.old.list ++ line word.now numbers.now) }
    ensures room { KeepsRoom text.old text.new }
{
    push_bytes(text, word)?;
    push_numbers(text, numbers)?;
    push_bytes(text, b"\n")
}

/// Adds a line: a word, a number, and numbers behind it. Where memory fails, a part of it may stand
/// there.
pub fn push_led_line(
    text: &mut Text,
    word: &[u8],
    first: i64,
    numbers: &[i64],
) -> Result<(), NoMemory>
    ensures text { OnOk result
        (text.new.list ≡ text.old.list ++ line word.now (first ∷ numbers.now)) }
    ensures room { KeepsRoom text.old text.new }
{
    push_bytes(text, word)?;
    push_spaced(text, first)?;
    push_numbers(text, numbers)?;
    push_bytes(text, b"\n")
}

/// Adds a space and a number. Where memory fails, the space may stand there.
pub fn push_spaced(text: &mut Text, number: i64) -> Result<(), NoMemory>
    ensures text { OnOk result (text.new.list ≡ text.old.list ++ spaced number) }
    ensures room { KeepsRoom text.old text.new }
{
    // A number of one digit, as each discrete value is, takes one write.
    if 0 <= number && number < 10 {
        return push_bytes(text, &[b' ', b'0' + number as u8]);
    }
    push_bytes(text, b" ")?;
    push_number(text, number)
}

/// Adds a space and a number for each.
fn push_numbers(text: &mut Text, numbers: &[i64]) -> Result<(), NoMemory>
    ensures text { OnOk result (text.new.list ≡ text.old.list ++ flat_map spaced numbers.now) }
    ensures room { KeepsRoom text.old text.new }
{
    for number in numbers {
        push_spaced(text, *number)?;
    }
    Ok(())
}
