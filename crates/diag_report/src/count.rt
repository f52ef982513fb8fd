ghost use Rattle.std.specs.Prelude.{◌≡◌, ◌++◌, [], ◌∷◌, OnOk, pos};
ghost use Rattle.report_lines.specs.Lines.{line};

use report_lines::push_led_line;
use tri_base::{NoMemory, Text};

/// Adds a line of a word and a number.
pub(crate) fn push_count(text: &mut Text, word: &[u8], count: u32) -> Result<(), NoMemory>
    ensures { OnOk result (text.new.list ≡ text.old.list ++ line word.now (pos count ∷ [])) }
{
    push_led_line(text, word, i64::from(count), &[])
}
