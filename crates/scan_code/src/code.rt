//! Instructions one behind another.

ghost use Rattle.std.specs.Prelude.{◌≡◌, [], ◌∷◌, ◌+◌, ℕ, IfOk, pos};
ghost use Rattle.function_blocks.specs.Values.{number};
ghost use Rattle.scan_machine.specs.declared.instructions.Instr.TheVariants as i;
ghost use Rattle.st_tree.specs.Integers.{integer_value};
ghost use Rattle.code_size.specs.Limits.{limited};
ghost use Rattle.scan_code.specs.Inner.Emits.{Emits};

use code_size::TOLD_LIMIT;
use scan_machine::Instr;
use st_tree::Integer;
use tri_base::NoMemory;

/// Adds an instruction.
pub(crate) fn put(code: &mut Vec<Instr>, instr: Instr) -> Result<(), NoMemory>
    ensures { Emits result code.old.items code.new.items (instr ∷ []) }
{
    code.push(instr).map_err(|_| NoMemory)
}

/// The place behind so many instructions. No memory holds as many as the limit.
pub(crate) fn ahead(from: usize, size: usize) -> Result<usize, NoMemory>
    ensures { IfOk result (λ to. (n : ℕ) → size ≡ limited n → to ≡ from + n) }
{
    if size >= TOLD_LIMIT {
        return Err(NoMemory);
    }
    match from.checked_add(size) {
        Some(to) => Ok(to),
        None => Err(NoMemory),
    }
}

/// Pushes a number.
pub(crate) fn push_number(value: u32) -> Instr
    ensures { result ≡ i.Push (pos value) }
{
    Instr::Push(i64::from(value))
}

/// Pushes FALSE or TRUE.
pub(crate) fn push_truth(value: bool) -> Instr
    ensures { result ≡ i.Push (number value) }
{
    if value {
        Instr::Push(1)
    } else {
        Instr::Push(0)
    }
}

/// Pushes a number with a sign or without.
pub(crate) fn push_integer(integer: Integer) -> Instr
    ensures { result ≡ i.Push (integer_value integer) }
{
    Instr::Push(integer.value())
}
