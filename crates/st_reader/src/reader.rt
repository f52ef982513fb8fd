ghost use Rattle.st_reader.specs.Reading.{IsRead, GivesTheTree};

use crate::fault::ReadFault;
use st_parser::{ParseFault, first_too_deep, parse};
use st_tree::{Tokens, Tree};
use std::alloc::Global;

/// The program that the tokens spell, or the first token at which it nests too deep, or else the
/// first token with which no program goes on. Tokens count from 0.
pub fn read_program(alloc: Global, tokens: &Tokens) -> Result<Tree, ReadFault>
    ensures answer { IsRead tokens.now result }
    ensures only { GivesTheTree tokens.now result }
{
    let tokens = tokens.items();
    if let Some(token) = first_too_deep(tokens) {
        return Err(ReadFault::TooDeep { token });
    }
    match parse(alloc, tokens) {
        Ok(tree) => Ok(tree),
        Err(ParseFault::NoMemory) => Err(ReadFault::NoMemory),
        Err(ParseFault::Syntax { token }) => Err(ReadFault::Syntax { token }),
    }
}
