// Edge detection and bistable elements.

ghost use Rattle.std.specs.Prelude.{◌≡◌, length, map};
ghost use Rattle.function_blocks.specs.Fields.{read_fields};
ghost use Rattle.function_blocks.specs.Values.{word_of};
ghost use Rattle.function_blocks.specs.Blocks.{r_trig, f_trig, sr, rs};

use crate::blocks::BlockKind;

/// R_TRIG.
pub(crate) fn rising_edge(fields: &mut [i64])
    requires { length fields.old ≡ 3 }
    ensures { fields.new ≡ map word_of (r_trig (read_fields BlockKind.RTrig fields.old)) }
{
    let clock = i64::from(fields[0] != 0);
    let rises = i64::from(fields[0] != 0 && fields[2] == 0);
    fields.copy_from_slice(&[clock, rises, clock]);
}

/// F_TRIG.
pub(crate) fn falling_edge(fields: &mut [i64])
    requires { length fields.old ≡ 3 }
    ensures { fields.new ≡ map word_of (f_trig (read_fields BlockKind.FTrig fields.old)) }
{
    let clock = i64::from(fields[0] != 0);
    let memory = i64::from(fields[0] == 0);
    let falls = i64::from(fields[0] == 0 && fields[2] == 0);
    fields.copy_from_slice(&[clock, falls, memory]);
}

/// SR.
pub(crate) fn set_first(fields: &mut [i64])
    requires { length fields.old ≡ 3 }
    ensures { fields.new ≡ map word_of (sr (read_fields BlockKind.Sr fields.old)) }
{
    let set = fields[0] != 0;
    let reset = fields[1] != 0;
    let output = set || (!reset && fields[2] != 0);
    fields.copy_from_slice(&[i64::from(set), i64::from(reset), i64::from(output)]);
}

/// RS.
pub(crate) fn reset_first(fields: &mut [i64])
    requires { length fields.old ≡ 3 }
    ensures { fields.new ≡ map word_of (rs (read_fields BlockKind.Rs fields.old)) }
{
    let set = fields[0] != 0;
    let reset = fields[1] != 0;
    let output = !reset && (set || fields[2] != 0);
    fields.copy_from_slice(&[i64::from(set), i64::from(reset), i64::from(output)]);
}
