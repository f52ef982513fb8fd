//! What holds of all engines, as contracts of functions that do nothing.

ghost use Rattle.engine_face.specs.Laws.{ChangesKnowNames, StoresRestore};

/// With the number that each store found put back, the words are those before the scan.
pub fn stores_restore()
    ensures { StoresRestore }
{}

/// Where nothing forbids a change, the new text builds and the renames' names are known.
pub fn changes_know_names()
    ensures { ChangesKnowNames }
{}
