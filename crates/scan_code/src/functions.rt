//! The standard functions (IEC 61131-3:2013, 6.6.2.5).

ghost use Rattle.std.specs.Prelude.{◌≡◌};
ghost use Rattle.st_meaning.specs.Functions as meaning;
ghost use Rattle.scan_code.specs.Inner.Operators.{operator_instr};

use function_blocks::Kind;
use scan_machine::Instr;
use st_tree::Function;

/// The instruction of a function, where this type is asked for.
pub(crate) fn function_instr(function: Function, asked: Kind) -> Instr
    ensures { result ≡ operator_instr (meaning.operator_of function asked) }
{
    match function {
        Function::Abs => Instr::Abs(asked),
        Function::Min => Instr::Min(asked),
        Function::Max => Instr::Max(asked),
        Function::Limit => Instr::Limit,
        Function::Sel => Instr::Select,
        Function::IntToDint => Instr::Convert(Kind::Dint),
        Function::DintToInt => Instr::Convert(Kind::Int),
    }
}

/// The type that the first argument is asked for.
pub(crate) fn first_asked(function: Function, asked: Kind) -> Kind
    ensures { result ≡ meaning.first_asked function asked }
{
    match function {
        Function::Sel => Kind::Bool,
        Function::IntToDint => Kind::Int,
        Function::DintToInt => Kind::Dint,
        _ => asked,
    }
}

/// What the type of the first argument says of the function's own.
pub(crate) fn first_own(function: Function, own: Option<Kind>) -> Option<Kind>
    ensures { result ≡ meaning.first_own function own }
{
    match function {
        Function::Sel => None,
        Function::IntToDint => Some(Kind::Dint),
        Function::DintToInt => Some(Kind::Int),
        _ => own,
    }
}
