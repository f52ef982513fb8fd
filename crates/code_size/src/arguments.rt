//! The arguments of the standard functions (IEC 61131-3:2013, 6.6.2.5).

ghost use Rattle.std.specs.Prelude.{◌≡◌};
ghost use Rattle.function_blocks.specs.declared.kinds.Kind.{Kind};
ghost use Rattle.st_meaning.specs.Functions.{operator_of};
ghost use Rattle.code_size.specs.Inner.Functions.{further};

use st_tree::Function;

/// How many arguments a function has behind the first.
pub fn further_arguments(function: Function) -> usize
    ensures { (asked : Kind) → result ≡ further (operator_of function asked) }
{
    match function {
        Function::Abs | Function::IntToDint | Function::DintToInt => 0,
        Function::Min | Function::Max => 1,
        Function::Limit | Function::Sel => 2,
    }
}
