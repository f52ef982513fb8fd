//! A law of the tokens of a text: nothing is called.

ghost use Rattle.st_reader.specs.LexLaws.{OneLexing};

/// A text spells one list of tokens, or has one lexical fault.
pub fn one_lexing()
    ensures { OneLexing }
{}
