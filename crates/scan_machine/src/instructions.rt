ghost use Rattle.std.specs.Prelude.{◌≡◌, ◌≤◌};
ghost use Rattle.scan_machine.specs.Inner.Reaches.{array_reach, reach, store_reach};
ghost use Rattle.scan_machine.specs.Rules.{takes, gives, named};

use function_blocks::{BlockKind, Kind, field_count};

/// One instruction of the scan machine. Operands are pushed in the order of the source: the last
/// one is on top.
#[derive(Clone, Copy, Debug, PartialEq, Eq)]
pub enum Instr {
    /// Pushes a constant.
    Push(i64),
    /// Pushes the word at the address, clamped to the kind.
    Load(usize, Kind),
    /// Pops a number into the word at the address, clamped to the kind.
    Store(usize, Kind),
    /// Pops an index, clamps it to `low` and `high` with a flag, and pushes the word at
    /// `address + index - low`, clamped to the kind.
    LoadAt {
        /// The word of the lowest index.
        address: usize,
        /// The kind of each word.
        kind: Kind,
        /// The lowest index.
        low: i64,
        /// The highest index.
        high: i64,
    },
    /// Pops a value and then an index, clamps the index to `low` and `high` with a flag, and stores
    /// the value, clamped to the kind, at `address + index - low`.
    StoreAt {
        /// The word of the lowest index.
        address: usize,
        /// The kind of each word.
        kind: Kind,
        /// The lowest index.
        low: i64,
        /// The highest index.
        high: i64,
    },
    /// The sum, clamped with a flag.
    Add(Kind),
    /// The first operand less the second, clamped with a flag.
    Sub(Kind),
    /// The product, clamped with a flag.
    Mul(Kind),
    /// The first operand by the second, truncated toward zero, clamped with a flag; 0 with a flag
    /// where the second is 0.
    Div(Kind),
    /// What the truncated quotient leaves of the first operand; 0 with a flag where the second
    /// is 0.
    Mod(Kind),
    /// The lesser of two operands, clamped with a flag.
    Min(Kind),
    /// The greater of two operands, clamped with a flag.
    Max(Kind),
    /// The operand with the other sign, clamped with a flag.
    Neg(Kind),
    /// The operand without its sign, clamped with a flag.
    Abs(Kind),
    /// The operand, clamped to another kind with a flag.
    Convert(Kind),
    /// `MIN(MAX(IN, MN), MX)` of the operands MN, IN, MX.
    Limit,
    /// Of the operands G, IN0, IN1: IN0 where G is FALSE, else IN1.
    Select,
    /// 1 where both operands are TRUE, else 0.
    And,
    /// 1 where an operand is TRUE, else 0.
    Or,
    /// 1 where one operand alone is TRUE, else 0.
    Xor,
    /// 1 where the operand is FALSE, else 0.
    Not,
    /// 1 where the operands are equal, else 0.
    Eq,
    /// 1 where the operands differ, else 0.
    Ne,
    /// 1 where the first operand is below the second, else 0.
    Lt,
    /// 1 where the first operand is above the second, else 0.
    Gt,
    /// 1 where the first operand isn't above the second, else 0.
    Le,
    /// 1 where the first operand isn't below the second, else 0.
    Ge,
    /// 1 where the operand lies from the first number to the second, else 0.
    Within(i64, i64),
    /// Goes to a later instruction.
    Jump(usize),
    /// Pops an operand, and goes to a later instruction where it is FALSE.
    JumpFalse(usize),
    /// Where the word, clamped to the kind, and the step aren't past `last`: stores their sum there
    /// and goes back.
    Next {
        /// The word that counts.
        address: usize,
        /// Its kind.
        kind: Kind,
        /// What one turn adds to it.
        step: i64,
        /// The number that it doesn't pass.
        last: i64,
        /// The first instruction of the loop.
        back: usize,
    },
    /// One call of a block, on its words from the address on.
    Call(BlockKind, usize),
}

// The words from the first to the last index of an array, where there are any.
fn array_reach(address: usize, low: i64, high: i64) -> Option<(usize, usize)>
    ensures { result ≡ array_reach address low high }
{
    if low <= high {
        Some((address, high.abs_diff(low) as usize))
    } else {
        None
    }
}

impl Instr {
    /// The first word that the instruction can touch, and how many more it can touch behind it.
    pub(crate) fn reach(&self) -> Option<(usize, usize)>
        ensures { result ≡ reach self.now }
    {
        match *self {
            Instr::Load(address, _) => Some((address, 0)),
            Instr::Store(address, _) => Some((address, 0)),
            Instr::Next { address, .. } => Some((address, 0)),
            Instr::LoadAt {
                address,
                low,
                high,
                ..
            } => array_reach(address, low, high),
            Instr::StoreAt {
                address,
                low,
                high,
                ..
            } => array_reach(address, low, high),
            Instr::Call(kind, address) => Some((address, field_count(kind) - 1)),
            _ => None,
        }
    }

    /// The first word that the instruction can store to, and how many more behind it.
    pub(crate) fn store_reach(&self) -> Option<(usize, usize)>
        ensures { result ≡ store_reach self.now }
    {
        match *self {
            Instr::Store(..) | Instr::StoreAt { .. } | Instr::Next { .. } | Instr::Call(..) => {
                self.reach()
            }
            _ => None,
        }
    }

    /// How many operands it pops.
    pub(crate) fn takes(&self) -> usize
        ensures { result ≡ takes self.now }
    {
        match self {
            Instr::Push(_) | Instr::Load(..) => 0,
            Instr::Jump(_) | Instr::Next { .. } | Instr::Call(..) => 0,
            Instr::Store(..) | Instr::LoadAt { .. } => 1,
            Instr::Neg(_) | Instr::Abs(_) | Instr::Convert(_) | Instr::Not => 1,
            Instr::Within(..) | Instr::JumpFalse(_) => 1,
            Instr::Limit | Instr::Select => 3,
            _ => 2,
        }
    }

    /// How many operands it pushes.
    pub(crate) fn gives(&self) -> usize
        ensures value { result ≡ gives self.now }
        ensures within { result ≤ 1 }
    {
        match self {
            Instr::Store(..) | Instr::StoreAt { .. } => 0,
            Instr::Jump(_) | Instr::JumpFalse(_) => 0,
            Instr::Next { .. } | Instr::Call(..) => 0,
            _ => 1,
        }
    }

    /// The place that it names.
    pub(crate) fn named(&self) -> Option<usize>
        ensures { result ≡ named self.now }
    {
        match *self {
            Instr::Jump(target) => Some(target),
            Instr::JumpFalse(target) => Some(target),
            Instr::Next { back, .. } => Some(back),
            _ => None,
        }
    }
}
