//! What holds of all runs, as a contract of a function that does nothing.

ghost use Rattle.scan_machine.specs.Laws.{HasNotedStores, HasOneRun};

/// From the same words and stores, code has one run at most.
pub fn has_one_run()
    ensures { HasOneRun }
{}

/// A run of verified code notes each word that it changes, with the number that stood there before.
pub fn has_noted_stores()
    ensures { HasNotedStores }
{}
