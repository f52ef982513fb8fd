ghost use Rattle.std.specs.Prelude.{◌≡◌};
ghost use Rattle.function_blocks.specs.Values.{clamped, is_on, IsOperand};

/// The type of a word (IEC 61131-3:2013, 6.4.2).
#[derive(Clone, Copy, Debug, PartialEq, Eq)]
pub enum Kind {
    /// FALSE and TRUE, as 0 and 1.
    Bool,
    /// 16 bits, signed.
    Int,
    /// 32 bits, signed.
    Dint,
}

/// The value of the kind that is nearest to a number; for BOOL, whether the number isn't 0.
#[inline]
pub fn clamp_to(kind: Kind, value: i64) -> i64
    ensures value { result ≡ clamped kind value }
    ensures operand { IsOperand result }
{
    match kind {
        Kind::Bool => i64::from(value != 0),
        Kind::Int => value.clamp(-32_768, 32_767),
        Kind::Dint => value.clamp(-2_147_483_648, 2_147_483_647),
    }
}

/// Whether a number counts as TRUE: where it isn't 0.
#[inline]
pub fn is_on(value: i64) -> bool
    ensures { result ≡ is_on value }
{
    value != 0
}
