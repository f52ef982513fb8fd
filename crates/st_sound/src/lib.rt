//! A well-typed program is sound: what it names is there, and its numbers can be constants of the
//! scan machine. There is nothing here that runs.
#![tactic(auto)]

ghost use Rattle.st_sound.specs.Laws.{WellTypedIsSound};

/// The statements of a well-typed program name only fields, elements and blocks that are there;
/// their numbers can be constants of the machine; no loop's tag is set within the loop, no loop
/// has a step of 0, and EXIT stands within a loop. Where they nest no deeper than the limit too,
/// they have code that keeps the machine's rules.
pub fn well_typed_programs_are_sound()
    ensures { WellTypedIsSound }
{}
