//! What holds of all plays of the one controller: nothing is called.

ghost use Rattle.single_controller.specs.Laws.{HasTheText};

/// The controller's text is the one by which legs are called suspect and downloads are checked.
pub fn has_the_text()
    ensures { HasTheText }
{}
