ghost use Rattle.std.specs.Prelude.{◌≡◌, None};
ghost use Rattle.st_tree.specs.declared.program.Tree.{Tree};
ghost use Rattle.st_tree.specs.Nesting.{first_too_deep};
ghost use Rattle.st_tree.specs.Programs.{Spells};
ghost use Rattle.st_parser.specs.Parsing.{IsParsed, IsTree};

use crate::fault::ParseFault;
use crate::program::whole;
use crate::refusal::Refusal;
use st_tree::{Token, Tree};
use std::alloc::Global;

/// The program that the tokens spell, or the first token with which no program goes on. Tokens
/// count from 0. The recursion goes as deep as the tokens nest: `first_too_deep` tells whether they
/// are for this call.
pub fn parse(alloc: Global, tokens: &[Token]) -> Result<Tree, ParseFault>
    requires { first_too_deep tokens.now ≡ None }
    ensures answer { IsParsed tokens.now result }
    ensures only { (tree : Tree) → Spells tree tokens.now → IsTree tree result }
{
    match whole(alloc, tokens) {
        Ok(tree) => Ok(tree),
        Err(Refusal::NoMemory) => Err(ParseFault::NoMemory),
        Err(Refusal::Left(left)) => {
            let token = tokens.len().saturating_sub(left);
            Err(ParseFault::Syntax { token })
        }
    }
}
