//! The tokens that stand for an operator, a function, a truth value, a sign or a type.

ghost use Rattle.std.specs.Prelude.{◌≡◌};
ghost use Rattle.st_parser.specs.Inner.Tables as spec;

use st_tree::{
    AddOperator, BlockKind, CompareOperator, EqualOperator, Fixed, Function, MultiplyOperator,
    Sign, Simple,
};

pub fn equal_operator(word: Fixed) -> Option<EqualOperator>
    ensures { result ≡ spec.equal_of word }
{
    match word {
        Fixed::Equals => Some(EqualOperator::Equal),
        Fixed::Unequal => Some(EqualOperator::Unequal),
        _ => None,
    }
}

pub fn compare_operator(word: Fixed) -> Option<CompareOperator>
    ensures { result ≡ spec.compare_of word }
{
    match word {
        Fixed::Less => Some(CompareOperator::Less),
        Fixed::Greater => Some(CompareOperator::Greater),
        Fixed::AtMost => Some(CompareOperator::AtMost),
        Fixed::AtLeast => Some(CompareOperator::AtLeast),
        _ => None,
    }
}

pub fn add_operator(word: Fixed) -> Option<AddOperator>
    ensures { result ≡ spec.add_of word }
{
    match word {
        Fixed::Plus => Some(AddOperator::Add),
        Fixed::Minus => Some(AddOperator::Subtract),
        _ => None,
    }
}

pub fn multiply_operator(word: Fixed) -> Option<MultiplyOperator>
    ensures { result ≡ spec.multiply_of word }
{
    match word {
        Fixed::Times => Some(MultiplyOperator::Multiply),
        Fixed::Divide => Some(MultiplyOperator::Divide),
        Fixed::Mod => Some(MultiplyOperator::Modulo),
        _ => None,
    }
}

pub fn function_word(word: Fixed) -> Option<Function>
    ensures { result ≡ spec.function_of word }
{
    match word {
        Fixed::Abs => Some(Function::Abs),
        Fixed::Min => Some(Function::Min),
        Fixed::Max => Some(Function::Max),
        Fixed::Limit => Some(Function::Limit),
        Fixed::Sel => Some(Function::Sel),
        Fixed::IntToDint => Some(Function::IntToDint),
        Fixed::DintToInt => Some(Function::DintToInt),
        _ => None,
    }
}

pub fn truth_value(word: Fixed) -> Option<bool>
    ensures { result ≡ spec.truth_of word }
{
    match word {
        Fixed::True => Some(true),
        Fixed::False => Some(false),
        _ => None,
    }
}

pub fn sign_word(word: Fixed) -> Option<Sign>
    ensures { result ≡ spec.sign_of word }
{
    match word {
        Fixed::Plus => Some(Sign::Plus),
        Fixed::Minus => Some(Sign::Minus),
        _ => None,
    }
}

pub fn simple_type(word: Fixed) -> Option<Simple>
    ensures { result ≡ spec.simple_of word }
{
    match word {
        Fixed::Bool => Some(Simple::Bool),
        Fixed::Int => Some(Simple::Int),
        Fixed::Dint => Some(Simple::Dint),
        _ => None,
    }
}

pub fn block_kind(word: Fixed) -> Option<BlockKind>
    ensures { result ≡ spec.block_of word }
{
    match word {
        Fixed::RTrig => Some(BlockKind::RTrig),
        Fixed::FTrig => Some(BlockKind::FTrig),
        Fixed::Sr => Some(BlockKind::Sr),
        Fixed::Rs => Some(BlockKind::Rs),
        Fixed::Ctu => Some(BlockKind::Ctu),
        Fixed::Ctd => Some(BlockKind::Ctd),
        Fixed::Ton => Some(BlockKind::Ton),
        Fixed::Tof => Some(BlockKind::Tof),
        Fixed::Tp => Some(BlockKind::Tp),
        _ => None,
    }
}
