//! Declarations, with bounds on how often a part may be repeated: more than there are tokens.

ghost use Rattle.st_parser.specs.Inner.Parsers.{Reads};
ghost use Rattle.st_parser.specs.Inner.ReadDeclarations as spec;

use crate::cursor::Cursor;
use crate::many::many;
use crate::refusal::Refusal;
use crate::tables::{block_kind, sign_word, simple_type, truth_value};
use st_tree::{
    Block, Constant, Declaration, DeclaredType, ExternalDeclaration, Fixed, Integer, Names,
    PlacedName, Sign, Simple,
};
use std::alloc::Global;

fn sign(tokens: &mut Cursor<'_>) -> Result<Option<(Sign, usize)>, Refusal>
    ensures { Reads (spec.sign_part tokens.old) result tokens.new }
{
    if !tokens.sees_some(sign_word) {
        return Ok(None);
    }
    Ok(Some(tokens.entry_at(sign_word)?))
}

#[tactic(auto, unfolding(crate::specs::Inner::ReadDeclarations::integer))]
pub fn integer(tokens: &mut Cursor<'_>) -> Result<Integer, Refusal>
    ensures { Reads (spec.integer tokens.old) result tokens.new }
{
    let sign = sign(tokens)?;
    let (number, place) = tokens.number()?;
    Ok(Integer {
        sign,
        number,
        place,
    })
}

#[tactic(auto, unfolding(crate::specs::Inner::ReadDeclarations::constant))]
fn constant(tokens: &mut Cursor<'_>) -> Result<Constant, Refusal>
    ensures { Reads (spec.constant tokens.old) result tokens.new }
{
    if tokens.sees_some(truth_value) {
        let (value, place) = tokens.entry_at(truth_value)?;
        return Ok(Constant::Truth(value, place));
    }
    Ok(Constant::Integer(integer(tokens)?))
}

fn simple(tokens: &mut Cursor<'_>) -> Result<Simple, Refusal>
    ensures { Reads (spec.simple tokens.old) result tokens.new }
{
    tokens.entry(simple_type)
}

#[tactic(auto, unfolding(crate::specs::Inner::ReadDeclarations::array))]
fn array(tokens: &mut Cursor<'_>) -> Result<DeclaredType, Refusal>
    ensures { Reads (spec.array tokens.old) result tokens.new }
{
    tokens.expect(Fixed::Array)?;
    tokens.expect(Fixed::OpenBracket)?;
    let low = integer(tokens)?;
    tokens.expect(Fixed::Range)?;
    let high = integer(tokens)?;
    tokens.expect(Fixed::CloseBracket)?;
    tokens.expect(Fixed::Of)?;
    let element = simple(tokens)?;
    Ok(DeclaredType::Array { low, high, element })
}

#[tactic(auto, unfolding(crate::specs::Inner::ReadDeclarations::declared_type))]
fn declared_type(tokens: &mut Cursor<'_>) -> Result<DeclaredType, Refusal>
    ensures { Reads (spec.declared_type tokens.old) result tokens.new }
{
    if tokens.sees(Fixed::Array) {
        return array(tokens);
    }
    if tokens.sees_some(simple_type) {
        return Ok(DeclaredType::Simple(simple(tokens)?));
    }
    Ok(DeclaredType::Block(tokens.entry(block_kind)?))
}

#[tactic(auto, unfolding(crate::specs::Inner::ReadDeclarations::next_name))]
fn next_name(tokens: &mut Cursor<'_>) -> Result<PlacedName, Refusal>
    ensures { Reads (spec.next_name tokens.old) result tokens.new }
{
    tokens.expect(Fixed::Comma)?;
    tokens.name()
}

#[tactic(auto, unfolding(crate::specs::Inner::ReadDeclarations::names))]
fn names(alloc: Global, tokens: &mut Cursor<'_>, turns: usize) -> Result<Names, Refusal>
    ensures { Reads (spec.names turns tokens.old) result tokens.new }
{
    let first = tokens.name()?;
    let more = many(
        alloc,
        turns,
        tokens,
        |tokens| tokens.sees(Fixed::Comma),
        |tokens| next_name(tokens),
    )?;
    Ok(Names { first, more })
}

fn first_value(tokens: &mut Cursor<'_>) -> Result<Option<Constant>, Refusal>
    ensures { Reads (spec.first_value tokens.old) result tokens.new }
{
    if !tokens.sees(Fixed::Assign) {
        return Ok(None);
    }
    tokens.expect(Fixed::Assign)?;
    Ok(Some(constant(tokens)?))
}

#[tactic(auto, unfolding(crate::specs::Inner::ReadDeclarations::declaration))]
fn declaration(alloc: Global, tokens: &mut Cursor<'_>, turns: usize) -> Result<Declaration, Refusal>
    ensures { Reads (spec.declaration turns tokens.old) result tokens.new }
{
    let names = names(alloc, tokens, turns)?;
    tokens.expect(Fixed::Colon)?;
    let declared = declared_type(tokens)?;
    let constant = first_value(tokens)?;
    tokens.expect(Fixed::Semicolon)?;
    Ok(Declaration {
        names,
        declared,
        constant,
    })
}

#[tactic(auto, unfolding(crate::specs::Inner::ReadDeclarations::external))]
fn external(
    alloc: Global,
    tokens: &mut Cursor<'_>,
    turns: usize,
) -> Result<ExternalDeclaration, Refusal>
    ensures { Reads (spec.external turns tokens.old) result tokens.new }
{
    let names = names(alloc, tokens, turns)?;
    tokens.expect(Fixed::Colon)?;
    let declared = simple(tokens)?;
    tokens.expect(Fixed::Semicolon)?;
    Ok(ExternalDeclaration { names, declared })
}

#[tactic(auto, unfolding(crate::specs::Inner::ReadDeclarations::plain_block))]
fn plain_block(alloc: Global, tokens: &mut Cursor<'_>, turns: usize) -> Result<Block, Refusal>
    ensures { Reads (spec.plain_block turns tokens.old) result tokens.new }
{
    tokens.expect(Fixed::Var)?;
    let found = many(
        alloc,
        turns,
        tokens,
        |tokens| tokens.sees_name(),
        |tokens| declaration(alloc, tokens, turns),
    )?;
    tokens.expect(Fixed::EndVar)?;
    Ok(Block::Plain(found))
}

#[tactic(auto, unfolding(crate::specs::Inner::ReadDeclarations::external_block))]
fn external_block(alloc: Global, tokens: &mut Cursor<'_>, turns: usize) -> Result<Block, Refusal>
    ensures { Reads (spec.external_block turns tokens.old) result tokens.new }
{
    tokens.expect(Fixed::VarExternal)?;
    let found = many(
        alloc,
        turns,
        tokens,
        |tokens| tokens.sees_name(),
        |tokens| external(alloc, tokens, turns),
    )?;
    tokens.expect(Fixed::EndVar)?;
    Ok(Block::External(found))
}

#[tactic(auto, unfolding(crate::specs::Inner::ReadDeclarations::block))]
pub fn block(alloc: Global, tokens: &mut Cursor<'_>, turns: usize) -> Result<Block, Refusal>
    ensures { Reads (spec.block turns tokens.old) result tokens.new }
{
    if tokens.sees(Fixed::Var) {
        plain_block(alloc, tokens, turns)
    } else {
        external_block(alloc, tokens, turns)
    }
}
