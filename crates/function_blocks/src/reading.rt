// The fields of a block, read in their types.

ghost use Rattle.std.specs.Prelude.{◌≡◌, ◌<◌, pos, length, slice_index_or};
ghost use Rattle.function_blocks.specs.Values.{IsOperand, is_on, clamped};

use crate::kinds::{Kind, clamp_to};

/// A field as a BOOL.
pub(crate) fn read_bool(fields: &[i64], at: usize) -> bool
    requires { at < length fields.now }
    ensures { result ≡ is_on (slice_index_or fields.now at (pos 0)) }
{
    fields[at] != 0
}

/// A field as an INT.
pub(crate) fn read_int(fields: &[i64], at: usize) -> i64
    requires { at < length fields.now }
    ensures value { result ≡ clamped Kind.Int (slice_index_or fields.now at (pos 0)) }
    ensures operand { IsOperand result }
{
    clamp_to(Kind::Int, fields[at])
}

/// A field as a DINT.
pub(crate) fn read_dint(fields: &[i64], at: usize) -> i64
    requires { at < length fields.now }
    ensures value { result ≡ clamped Kind.Dint (slice_index_or fields.now at (pos 0)) }
    ensures operand { IsOperand result }
{
    clamp_to(Kind::Dint, fields[at])
}
