// Counters.

ghost use Rattle.std.specs.Prelude.{◌≡◌, [], ◌∷◌, length, map};
ghost use Rattle.function_blocks.specs.Fields.{read_fields};
ghost use Rattle.function_blocks.specs.Blocks.{counted_up, counted_down, ctu, ctd};
ghost use Rattle.function_blocks.specs.Values.{IsOperand, number, word_of};

use crate::blocks::BlockKind;
use crate::reading::{read_bool, read_int};

// Writes the fields of a counter.
fn write(fields: &mut [i64], input: bool, reset: bool, preset: i64, output: bool, count: i64)
    requires { length fields.old ≡ 6 }
    ensures { fields.new
        ≡ number input ∷ number reset ∷ preset ∷ number output ∷ count ∷ number input ∷ [] }
{
    let input = i64::from(input);
    let reset = i64::from(reset);
    fields.copy_from_slice(&[input, reset, preset, i64::from(output), count, input]);
}

/// CTU.
pub(crate) fn count_up(fields: &mut [i64])
    requires { length fields.old ≡ 6 }
    ensures { fields.new ≡ map word_of (ctu (read_fields BlockKind.Ctu fields.old)) }
{
    let up = read_bool(fields, 0);
    let reset = read_bool(fields, 1);
    let preset = read_int(fields, 2);
    let count = next_up(up, reset, read_int(fields, 4), read_bool(fields, 5));
    write(fields, up, reset, preset, preset <= count, count);
}

// The count after a call of CTU.
fn next_up(up: bool, reset: bool, count: i64, memory: bool) -> i64
    requires { IsOperand count }
    ensures { result ≡ counted_up up reset count memory }
{
    if reset {
        0
    } else if up && !memory && count < 32_767 {
        count + 1
    } else {
        count
    }
}

/// CTD.
pub(crate) fn count_down(fields: &mut [i64])
    requires { length fields.old ≡ 6 }
    ensures { fields.new ≡ map word_of (ctd (read_fields BlockKind.Ctd fields.old)) }
{
    let down = read_bool(fields, 0);
    let load = read_bool(fields, 1);
    let preset = read_int(fields, 2);
    let count = next_down(
        down,
        load,
        preset,
        read_int(fields, 4),
        read_bool(fields, 5),
    );
    write(fields, down, load, preset, count <= 0, count);
}

// The count after a call of CTD.
fn next_down(down: bool, load: bool, preset: i64, count: i64, memory: bool) -> i64
    requires { IsOperand count }
    ensures { result ≡ counted_down down load preset count memory }
{
    if load {
        preset
    } else if down && !memory && count > -32_768 {
        count - 1
    } else {
        count
    }
}
