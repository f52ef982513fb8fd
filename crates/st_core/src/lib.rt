//! The core language: what terms and acts of a program mean and cost, and the law that they have
//! code of the scan machine. There is nothing here that runs.
#![tactic(auto)]

ghost use Rattle.st_core.specs.Compiled.{HasCode};
ghost use Rattle.st_core.specs.Laws.{FitsWhereSound, HasTurns};

/// Each body that fits has verified code, which does what the body does in as many instructions as
/// it costs at most.
pub fn has_code()
    ensures { HasCode }
{}

/// A body fits where it is sound, as typing has it, and its terms stay low, as the limit of nesting
/// has it.
pub fn fits_where_sound()
    ensures { FitsWhereSound }
{}

/// A loop has one turn more than its steps fit between its first number and its last, or none.
pub fn has_turns()
    ensures { HasTurns }
{}
