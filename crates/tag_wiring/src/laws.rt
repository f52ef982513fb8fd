//! What holds of the words that stand for points: nothing is called.

ghost use Rattle.tag_wiring.specs.Laws.{WordsHold, EnvironmentComesBack, InputsAreSet, OutputsAreTaken, OutputsLieWithin, StoresTellInputs};

/// As many words as a shape has hold an environment of that shape.
pub fn words_hold_an_environment()
    ensures { WordsHold }
{}

/// The words of an environment hold just that environment.
pub fn an_environment_comes_back()
    ensures { EnvironmentComesBack }
{}

/// The words after the inputs were set are those of the environment after they were set.
pub fn inputs_are_set()
    ensures { InputsAreSet }
{}

/// The outputs from the words are those of the environment that they hold.
pub fn outputs_are_taken()
    ensures { OutputsAreTaken }
{}

/// Each output lies in its point's range.
pub fn outputs_lie_within()
    ensures { OutputsLieWithin }
{}

/// The stores tell what setting the inputs did to the words.
pub fn stores_tell_inputs()
    ensures { StoresTellInputs }
{}
