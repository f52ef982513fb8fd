//! What holds of all histories, as a contract of a function that does nothing.

ghost use Rattle.fault_history.specs.Histories.{KeepsTheLast};

/// However much is noted, a history has the last of what it keeps.
pub fn keeps_the_last()
    ensures { KeepsTheLast }
{}
