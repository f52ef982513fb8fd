//! Programs.

ghost use Rattle.std.specs.Prelude.{◌≡◌, ◌<◌, ◌+◌, ◌^◌, length};
ghost use Rattle.st_parser.specs.Inner.Parsers.{Reads};
ghost use Rattle.st_parser.specs.Inner.ReadPrograms as spec;

use crate::cursor::Cursor;
use crate::declarations::block;
use crate::many::many;
use crate::refusal::Refusal;
use crate::statements::statements;
use st_tree::{Block, Fixed, Token, Tree};
use std::alloc::Global;

#[tactic(auto, unfolding(crate::specs::Inner::ReadPrograms::program))]
fn program(alloc: Global, tokens: &mut Cursor<'_>, turns: usize) -> Result<Tree, Refusal>
    ensures { Reads (spec.program turns tokens.old) result tokens.new }
{
    tokens.expect(Fixed::Program)?;
    let name = tokens.name()?;
    let blocks = many(
        alloc,
        turns,
        tokens,
        |tokens| tokens.sees_block(),
        |tokens| block(alloc, tokens, turns),
    )?;
    let statements = statements(alloc, tokens, turns)?;
    tokens.expect(Fixed::EndProgram)?;
    Ok(Tree {
        name,
        blocks,
        statements,
    })
}

/// The program that all of the tokens spell.
#[tactic(auto, unfolding(crate::specs::Inner::ReadPrograms::whole))]
pub fn whole(alloc: Global, tokens: &[Token]) -> Result<Tree, Refusal>
    ensures { spec.Gives (spec.whole (length tokens.now + 1) tokens.now) result }
{
    let mut cursor = Cursor::new(tokens);
    let tree = program(alloc, &mut cursor, tokens.len() + 1)?;
    cursor.end()?;
    Ok(tree)
}
