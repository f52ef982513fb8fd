//! What holds of all scripts over an engine: nothing is called.

ghost use Rattle.plant_script.specs.Laws.{BlocksAreNoPrograms};

/// A block is refused for what is wrong with a text: neither for a reason against a change, nor for
/// want of memory.
pub fn refused_blocks_are_no_programs()
    ensures { BlocksAreNoPrograms }
{}
