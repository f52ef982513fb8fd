//! The instructions of operators.

ghost use Rattle.std.specs.Prelude.{◌≡◌};
ghost use Rattle.st_core.specs.Codes.{binary_instr};
ghost use Rattle.st_meaning.specs.Expressions.{equal_operator, compare_operator, add_operator, multiply_operator};

use function_blocks::Kind;
use scan_machine::Instr;
use st_tree::{AddOperator, CompareOperator, EqualOperator, MultiplyOperator};

/// `=` and `<>`
pub(crate) fn equal_instr(operator: EqualOperator) -> Instr
    ensures { result ≡ binary_instr (equal_operator operator) }
{
    match operator {
        EqualOperator::Equal => Instr::Eq,
        EqualOperator::Unequal => Instr::Ne,
    }
}

/// `<`, `>`, `<=` and `>=`
pub(crate) fn compare_instr(operator: CompareOperator) -> Instr
    ensures { result ≡ binary_instr (compare_operator operator) }
{
    match operator {
        CompareOperator::Less => Instr::Lt,
        CompareOperator::Greater => Instr::Gt,
        CompareOperator::AtMost => Instr::Le,
        CompareOperator::AtLeast => Instr::Ge,
    }
}

/// `+` and `-`, where this type is asked for.
pub(crate) fn add_instr(operator: AddOperator, asked: Kind) -> Instr
    ensures { result ≡ binary_instr (add_operator operator asked) }
{
    match operator {
        AddOperator::Add => Instr::Add(asked),
        AddOperator::Subtract => Instr::Sub(asked),
    }
}

/// `*`, `/` and MOD, where this type is asked for.
pub(crate) fn multiply_instr(operator: MultiplyOperator, asked: Kind) -> Instr
    ensures { result ≡ binary_instr (multiply_operator operator asked) }
{
    match operator {
        MultiplyOperator::Multiply => Instr::Mul(asked),
        MultiplyOperator::Divide => Instr::Div(asked),
        MultiplyOperator::Modulo => Instr::Mod(asked),
    }
}
