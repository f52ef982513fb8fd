//! Statements. Each rule takes the reader of the statements inside as a value, so that it is proved
//! by itself.

ghost use Rattle.st_parser.specs.Inner.Parsers.{Reads};
ghost use Rattle.st_parser.specs.Inner.ReadStatements as spec;
ghost use Rattle.st_parser.specs.Inner.ReadStatements.{statements_at, within};
ghost use Rattle.st_parser.specs.Inner.ReadExpressions.{expr_at};
ghost use Rattle.st_parser.specs.Inner.InnerStatements.{InnerStatements};

use crate::bounds::Bounds;
use crate::cursor::Cursor;
use crate::declarations::integer;
use crate::expressions::expr;
use crate::many::many;
use crate::refusal::Refusal;
use st_tree::{
    Assignment, BlockCall, Branch, Element, Expr, Fixed, Input, Inputs, Integer, Items, Label,
    Statement,
};
use std::alloc::Global;

fn range_end(tokens: &mut Cursor<'_>) -> Result<Option<Integer>, Refusal>
    ensures { Reads (spec.range_end tokens.old) result tokens.new }
{
    if !tokens.sees(Fixed::Range) {
        return Ok(None);
    }
    tokens.expect(Fixed::Range)?;
    Ok(Some(integer(tokens)?))
}

#[tactic(auto, unfolding(crate::specs::Inner::ReadStatements::label))]
fn label(tokens: &mut Cursor<'_>) -> Result<Label, Refusal>
    ensures { Reads (spec.label tokens.old) result tokens.new }
{
    let low = integer(tokens)?;
    let high = range_end(tokens)?;
    Ok(Label { low, high })
}

#[tactic(auto, unfolding(crate::specs::Inner::ReadStatements::next_label))]
fn next_label(tokens: &mut Cursor<'_>) -> Result<Label, Refusal>
    ensures { Reads (spec.next_label tokens.old) result tokens.new }
{
    tokens.expect(Fixed::Comma)?;
    label(tokens)
}

fn step(tokens: &mut Cursor<'_>) -> Result<Option<Integer>, Refusal>
    ensures { Reads (spec.step tokens.old) result tokens.new }
{
    if !tokens.sees(Fixed::By) {
        return Ok(None);
    }
    tokens.expect(Fixed::By)?;
    Ok(Some(integer(tokens)?))
}

#[derive(Clone, Copy)]
pub struct StatementRules<G> {
    pub alloc: Global,
    pub bounds: Bounds,
    pub inner: G,
}

impl<G: Fn(Global, &mut Cursor<'_>, usize) -> Result<Items<Statement>, Refusal>> StatementRules<G> {
    fn inner(&self, tokens: &mut Cursor<'_>) -> Result<Items<Statement>, Refusal>
        requires { InnerStatements self.now.bounds (G.pre self.now.inner) (G.post self.now.inner) }
        ensures { Reads (statements_at self.now.bounds.levels tokens.old) result tokens.new }
    {
        (self.inner)(self.alloc, tokens, self.bounds.levels)
    }

    fn expr(&self, tokens: &mut Cursor<'_>) -> Result<Expr, Refusal>
        ensures { Reads (expr_at self.now.bounds.levels tokens.old) result tokens.new }
    {
        expr(self.alloc, tokens, self.bounds.levels)
    }

    #[tactic(auto, unfolding(crate::specs::Inner::ReadStatements::input))]
    fn input(&self, tokens: &mut Cursor<'_>) -> Result<Input, Refusal>
        requires { InnerStatements self.now.bounds (G.pre self.now.inner) (G.post self.now.inner) }
        ensures { Reads (within spec.input self.now.bounds tokens.old) result tokens.new }
    {
        let name = tokens.name()?;
        tokens.expect(Fixed::Assign)?;
        let value = self.expr(tokens)?;
        Ok(Input { name, value })
    }

    #[tactic(auto, unfolding(crate::specs::Inner::ReadStatements::next_input))]
    fn next_input(&self, tokens: &mut Cursor<'_>) -> Result<Input, Refusal>
        requires { InnerStatements self.now.bounds (G.pre self.now.inner) (G.post self.now.inner) }
        ensures { Reads (within spec.next_input self.now.bounds tokens.old) result tokens.new }
    {
        tokens.expect(Fixed::Comma)?;
        self.input(tokens)
    }

    #[tactic(auto, unfolding(crate::specs::Inner::ReadStatements::inputs))]
    fn inputs(&self, tokens: &mut Cursor<'_>) -> Result<Inputs, Refusal>
        requires { InnerStatements self.now.bounds (G.pre self.now.inner) (G.post self.now.inner) }
        ensures { Reads (within spec.inputs self.now.bounds tokens.old) result tokens.new }
    {
        let first = self.input(tokens)?;
        let more = many(
            self.alloc,
            self.bounds.turns,
            tokens,
            |tokens| tokens.sees(Fixed::Comma),
            |tokens| self.next_input(tokens),
        )?;
        Ok(Inputs { first, more })
    }

    fn some_inputs(&self, tokens: &mut Cursor<'_>) -> Result<Option<Inputs>, Refusal>
        requires { InnerStatements self.now.bounds (G.pre self.now.inner) (G.post self.now.inner) }
        ensures { Reads (within spec.some_inputs self.now.bounds tokens.old) result tokens.new }
    {
        if !tokens.sees_name() {
            return Ok(None);
        }
        Ok(Some(self.inputs(tokens)?))
    }

    #[tactic(auto, unfolding(crate::specs::Inner::ReadStatements::call_part))]
    fn call_part(&self, tokens: &mut Cursor<'_>) -> Result<Option<Inputs>, Refusal>
        requires { InnerStatements self.now.bounds (G.pre self.now.inner) (G.post self.now.inner) }
        ensures { Reads (within spec.call_part self.now.bounds tokens.old) result tokens.new }
    {
        tokens.expect(Fixed::OpenParen)?;
        let inputs = self.some_inputs(tokens)?;
        tokens.expect(Fixed::CloseParen)?;
        tokens.expect(Fixed::Semicolon)?;
        Ok(inputs)
    }

    #[tactic(auto, unfolding(crate::specs::Inner::ReadStatements::index_part))]
    fn index_part(&self, tokens: &mut Cursor<'_>) -> Result<Expr, Refusal>
        requires { InnerStatements self.now.bounds (G.pre self.now.inner) (G.post self.now.inner) }
        ensures { Reads (within spec.index_part self.now.bounds tokens.old) result tokens.new }
    {
        tokens.expect(Fixed::OpenBracket)?;
        let index = self.expr(tokens)?;
        tokens.expect(Fixed::CloseBracket)?;
        Ok(index)
    }

    fn some_index(&self, tokens: &mut Cursor<'_>) -> Result<Option<Expr>, Refusal>
        requires { InnerStatements self.now.bounds (G.pre self.now.inner) (G.post self.now.inner) }
        ensures { Reads (within spec.some_index self.now.bounds tokens.old) result tokens.new }
    {
        if !tokens.sees(Fixed::OpenBracket) {
            return Ok(None);
        }
        Ok(Some(self.index_part(tokens)?))
    }

    #[tactic(auto, unfolding(crate::specs::Inner::ReadStatements::assigned))]
    fn assigned(&self, tokens: &mut Cursor<'_>) -> Result<(Option<Expr>, Expr), Refusal>
        requires { InnerStatements self.now.bounds (G.pre self.now.inner) (G.post self.now.inner) }
        ensures { Reads (within spec.assigned self.now.bounds tokens.old) result tokens.new }
    {
        let index = self.some_index(tokens)?;
        tokens.expect(Fixed::Assign)?;
        let value = self.expr(tokens)?;
        tokens.expect(Fixed::Semicolon)?;
        Ok((index, value))
    }

    #[tactic(auto, unfolding(crate::specs::Inner::ReadStatements::named_statement))]
    fn named_statement(&self, tokens: &mut Cursor<'_>) -> Result<Statement, Refusal>
        requires { InnerStatements self.now.bounds (G.pre self.now.inner) (G.post self.now.inner) }
        ensures { Reads (within spec.named_statement self.now.bounds tokens.old) result tokens.new }
    {
        let name = tokens.name()?;
        if tokens.sees(Fixed::OpenParen) {
            let inputs = self.call_part(tokens)?;
            return Ok(Statement::BlockCall(BlockCall {
                block: name,
                inputs,
            }));
        }
        let (index, value) = self.assigned(tokens)?;
        Ok(Statement::Assignment(Assignment {
            target: name,
            index,
            value,
        }))
    }

    #[tactic(auto, unfolding(crate::specs::Inner::ReadStatements::element))]
    fn element(&self, tokens: &mut Cursor<'_>) -> Result<Element, Refusal>
        requires { InnerStatements self.now.bounds (G.pre self.now.inner) (G.post self.now.inner) }
        ensures { Reads (within spec.element self.now.bounds tokens.old) result tokens.new }
    {
        let first = label(tokens)?;
        let more = many(
            self.alloc,
            self.bounds.turns,
            tokens,
            |tokens| tokens.sees(Fixed::Comma),
            |tokens| next_label(tokens),
        )?;
        tokens.expect(Fixed::Colon)?;
        let body = self.inner(tokens)?;
        Ok(Element { first, more, body })
    }

    #[tactic(auto, unfolding(crate::specs::Inner::ReadStatements::branch))]
    fn branch(&self, tokens: &mut Cursor<'_>) -> Result<Branch, Refusal>
        requires { InnerStatements self.now.bounds (G.pre self.now.inner) (G.post self.now.inner) }
        ensures { Reads (within spec.branch self.now.bounds tokens.old) result tokens.new }
    {
        let condition = self.expr(tokens)?;
        tokens.expect(Fixed::Then)?;
        let body = self.inner(tokens)?;
        Ok(Branch { condition, body })
    }

    #[tactic(auto, unfolding(crate::specs::Inner::ReadStatements::next_branch))]
    fn next_branch(&self, tokens: &mut Cursor<'_>) -> Result<Branch, Refusal>
        requires { InnerStatements self.now.bounds (G.pre self.now.inner) (G.post self.now.inner) }
        ensures { Reads (within spec.next_branch self.now.bounds tokens.old) result tokens.new }
    {
        tokens.expect(Fixed::Elsif)?;
        self.branch(tokens)
    }

    #[tactic(auto, unfolding(crate::specs::Inner::ReadStatements::otherwise))]
    fn otherwise(&self, tokens: &mut Cursor<'_>) -> Result<Option<Items<Statement>>, Refusal>
        requires { InnerStatements self.now.bounds (G.pre self.now.inner) (G.post self.now.inner) }
        ensures { Reads (within spec.otherwise self.now.bounds tokens.old) result tokens.new }
    {
        if !tokens.sees(Fixed::Else) {
            return Ok(None);
        }
        tokens.expect(Fixed::Else)?;
        Ok(Some(self.inner(tokens)?))
    }

    #[tactic(auto, unfolding(crate::specs::Inner::ReadStatements::conditional))]
    fn conditional(&self, tokens: &mut Cursor<'_>) -> Result<Statement, Refusal>
        requires { InnerStatements self.now.bounds (G.pre self.now.inner) (G.post self.now.inner) }
        ensures { Reads (within spec.conditional self.now.bounds tokens.old) result tokens.new }
    {
        tokens.expect(Fixed::If)?;
        let first = self.branch(tokens)?;
        let more = many(
            self.alloc,
            self.bounds.turns,
            tokens,
            |tokens| tokens.sees(Fixed::Elsif),
            |tokens| self.next_branch(tokens),
        )?;
        let otherwise = self.otherwise(tokens)?;
        tokens.expect(Fixed::EndIf)?;
        tokens.expect(Fixed::Semicolon)?;
        Ok(Statement::If {
            first,
            more,
            otherwise,
        })
    }

    #[tactic(auto, unfolding(crate::specs::Inner::ReadStatements::choice))]
    fn choice(&self, tokens: &mut Cursor<'_>) -> Result<Statement, Refusal>
        requires { InnerStatements self.now.bounds (G.pre self.now.inner) (G.post self.now.inner) }
        ensures { Reads (within spec.choice self.now.bounds tokens.old) result tokens.new }
    {
        tokens.expect(Fixed::Case)?;
        let selector = self.expr(tokens)?;
        tokens.expect(Fixed::Of)?;
        let first = self.element(tokens)?;
        let more = many(
            self.alloc,
            self.bounds.turns,
            tokens,
            |tokens| tokens.sees_label(),
            |tokens| self.element(tokens),
        )?;
        let otherwise = self.otherwise(tokens)?;
        tokens.expect(Fixed::EndCase)?;
        tokens.expect(Fixed::Semicolon)?;
        Ok(Statement::Case {
            selector,
            first,
            more,
            otherwise,
        })
    }

    #[tactic(auto, unfolding(crate::specs::Inner::ReadStatements::counted))]
    fn counted(&self, tokens: &mut Cursor<'_>) -> Result<Statement, Refusal>
        requires { InnerStatements self.now.bounds (G.pre self.now.inner) (G.post self.now.inner) }
        ensures { Reads (within spec.counted self.now.bounds tokens.old) result tokens.new }
    {
        tokens.expect(Fixed::For)?;
        let tag = tokens.name()?;
        tokens.expect(Fixed::Assign)?;
        let first = integer(tokens)?;
        tokens.expect(Fixed::To)?;
        let last = integer(tokens)?;
        let step = step(tokens)?;
        tokens.expect(Fixed::Do)?;
        let body = self.inner(tokens)?;
        tokens.expect(Fixed::EndFor)?;
        tokens.expect(Fixed::Semicolon)?;
        Ok(Statement::For {
            tag,
            first,
            last,
            step,
            body,
        })
    }

    #[tactic(auto, unfolding(crate::specs::Inner::ReadStatements::exit_of))]
    fn exit(&self, tokens: &mut Cursor<'_>) -> Result<Statement, Refusal>
        requires { InnerStatements self.now.bounds (G.pre self.now.inner) (G.post self.now.inner) }
        ensures { Reads (within spec.exit_of self.now.bounds tokens.old) result tokens.new }
    {
        let place = tokens.place_of(Fixed::Exit)?;
        tokens.expect(Fixed::Semicolon)?;
        Ok(Statement::Exit(place))
    }

    #[tactic(auto, unfolding(crate::specs::Inner::ReadStatements::return_of))]
    fn return_statement(&self, tokens: &mut Cursor<'_>) -> Result<Statement, Refusal>
        requires { InnerStatements self.now.bounds (G.pre self.now.inner) (G.post self.now.inner) }
        ensures { Reads (within spec.return_of self.now.bounds tokens.old) result tokens.new }
    {
        tokens.expect(Fixed::Return)?;
        tokens.expect(Fixed::Semicolon)?;
        Ok(Statement::Return)
    }

    #[tactic(auto, unfolding(crate::specs::Inner::ReadStatements::statement))]
    fn statement(&self, tokens: &mut Cursor<'_>) -> Result<Statement, Refusal>
        requires { InnerStatements self.now.bounds (G.pre self.now.inner) (G.post self.now.inner) }
        ensures { Reads (within spec.statement self.now.bounds tokens.old) result tokens.new }
    {
        if tokens.sees(Fixed::Semicolon) {
            tokens.expect(Fixed::Semicolon)?;
            return Ok(Statement::Empty);
        }
        if tokens.sees_name() {
            self.named_statement(tokens)
        } else if tokens.sees(Fixed::If) {
            self.conditional(tokens)
        } else if tokens.sees(Fixed::Case) {
            self.choice(tokens)
        } else if tokens.sees(Fixed::For) {
            self.counted(tokens)
        } else if tokens.sees(Fixed::Exit) {
            self.exit(tokens)
        } else {
            self.return_statement(tokens)
        }
    }

    pub fn several(&self, tokens: &mut Cursor<'_>) -> Result<Items<Statement>, Refusal>
        requires { InnerStatements self.now.bounds (G.pre self.now.inner) (G.post self.now.inner) }
        ensures { Reads (within spec.several self.now.bounds tokens.old) result tokens.new }
    {
        many(
            self.alloc,
            self.bounds.turns,
            tokens,
            |tokens| tokens.sees_statement(),
            |tokens| self.statement(tokens),
        )
    }
}

/// Statements one after the other, nested in fewer levels than this. There are fewer tokens than
/// levels.
pub fn statements(
    alloc: Global,
    tokens: &mut Cursor<'_>,
    levels: usize,
) -> Result<Items<Statement>, Refusal>
    ensures { Reads (statements_at levels tokens.old) result tokens.new }
{
    if levels == 0 {
        return Err(tokens.refusal());
    }
    StatementRules {
        alloc,
        bounds: Bounds {
            turns: levels,
            levels: levels - 1,
        },
        inner: statements,
    }
    .several(tokens)
}
