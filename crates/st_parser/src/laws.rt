//! Laws of the grammar alone: nothing is called.

ghost use Rattle.st_parser.specs.TreeLaws.{OneTree, NestsAsItsTokens};

/// No tokens have two trees.
pub fn one_tree()
    ensures { OneTree }
{}

/// A tree nests at most 64 deep exactly where no token that it spells becomes nested 65 deep.
pub fn nests_as_its_tokens()
    ensures { NestsAsItsTokens }
{}
