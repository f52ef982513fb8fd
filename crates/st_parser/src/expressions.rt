//! Expressions. Each rule takes the reader of whole expressions as a value, so that it is proved by
//! itself.

ghost use Rattle.st_parser.specs.Inner.Parsers.{Reads};
ghost use Rattle.st_parser.specs.Inner.ReadExpressions as spec;
ghost use Rattle.st_parser.specs.Inner.ReadExpressions.{expr_at, within};
ghost use Rattle.st_parser.specs.Inner.InnerExpr.{InnerExpr};

use crate::bounds::Bounds;
use crate::cursor::Cursor;
use crate::many::many;
use crate::refusal::Refusal;
use crate::tables::{
    add_operator, compare_operator, equal_operator, function_word, multiply_operator, truth_value,
};
use st_tree::{
    AddOperator, Arguments, Boxed, CompareOperator, Comparison, Conjunction, EqualOperator,
    Equality, Exclusive, Expr, Fixed, MultiplyOperator, Operation, Primary, Product, Sum, Unary,
};
use std::alloc::Global;

#[derive(Clone, Copy)]
pub struct Expressions<F> {
    pub alloc: Global,
    pub bounds: Bounds,
    pub inner: F,
}

impl<F: Fn(Global, &mut Cursor<'_>, usize) -> Result<Expr, Refusal>> Expressions<F> {
    fn inner(&self, tokens: &mut Cursor<'_>) -> Result<Expr, Refusal>
        requires { InnerExpr self.now.bounds (F.pre self.now.inner) (F.post self.now.inner) }
        ensures { Reads (expr_at self.now.bounds.levels tokens.old) result tokens.new }
    {
        (self.inner)(self.alloc, tokens, self.bounds.levels)
    }

    fn index(&self, tokens: &mut Cursor<'_>) -> Result<Expr, Refusal>
        requires { InnerExpr self.now.bounds (F.pre self.now.inner) (F.post self.now.inner) }
        ensures { Reads (within spec.index self.now.bounds tokens.old) result tokens.new }
    {
        let index = self.inner(tokens)?;
        tokens.expect(Fixed::CloseBracket)?;
        Ok(index)
    }

    fn named_primary(&self, tokens: &mut Cursor<'_>) -> Result<Primary, Refusal>
        requires { InnerExpr self.now.bounds (F.pre self.now.inner) (F.post self.now.inner) }
        ensures { Reads (within spec.named_primary self.now.bounds tokens.old) result tokens.new }
    {
        let name = tokens.name()?;
        if tokens.sees(Fixed::Dot) {
            tokens.expect(Fixed::Dot)?;
            Ok(Primary::Field(name, tokens.name()?))
        } else if tokens.sees(Fixed::OpenBracket) {
            tokens.expect(Fixed::OpenBracket)?;
            let index = self.index(tokens)?;
            let index = Boxed::new(self.alloc, index).map_err(|_| Refusal::NoMemory)?;
            Ok(Primary::Element(name, index))
        } else {
            Ok(Primary::Tag(name))
        }
    }

    fn bracketed(&self, tokens: &mut Cursor<'_>) -> Result<Primary, Refusal>
        requires { InnerExpr self.now.bounds (F.pre self.now.inner) (F.post self.now.inner) }
        ensures { Reads (within spec.bracketed self.now.bounds tokens.old) result tokens.new }
    {
        let place = tokens.place_of(Fixed::OpenParen)?;
        let inside = self.inner(tokens)?;
        tokens.expect(Fixed::CloseParen)?;
        let inside = Boxed::new(self.alloc, inside).map_err(|_| Refusal::NoMemory)?;
        Ok(Primary::Bracketed(place, inside))
    }

    fn next_argument(&self, tokens: &mut Cursor<'_>) -> Result<Expr, Refusal>
        requires { InnerExpr self.now.bounds (F.pre self.now.inner) (F.post self.now.inner) }
        ensures { Reads (within spec.next_argument self.now.bounds tokens.old) result tokens.new }
    {
        tokens.expect(Fixed::Comma)?;
        self.inner(tokens)
    }

    fn arguments(&self, tokens: &mut Cursor<'_>) -> Result<Arguments, Refusal>
        requires { InnerExpr self.now.bounds (F.pre self.now.inner) (F.post self.now.inner) }
        ensures { Reads (within spec.arguments self.now.bounds tokens.old) result tokens.new }
    {
        let first = self.inner(tokens)?;
        let more = many(
            self.alloc,
            self.bounds.turns,
            tokens,
            |tokens| tokens.sees(Fixed::Comma),
            |tokens| self.next_argument(tokens),
        )?;
        Ok(Arguments { first, more })
    }

    fn call(&self, tokens: &mut Cursor<'_>) -> Result<Primary, Refusal>
        requires { InnerExpr self.now.bounds (F.pre self.now.inner) (F.post self.now.inner) }
        ensures { Reads (within spec.call self.now.bounds tokens.old) result tokens.new }
    {
        let (function, place) = tokens.entry_at(function_word)?;
        tokens.expect(Fixed::OpenParen)?;
        let arguments = self.arguments(tokens)?;
        tokens.expect(Fixed::CloseParen)?;
        let arguments = Boxed::new(self.alloc, arguments).map_err(|_| Refusal::NoMemory)?;
        Ok(Primary::Call(function, place, arguments))
    }

    #[tactic(auto, unfolding(crate::specs::Inner::ReadExpressions::primary_of))]
    fn primary(&self, tokens: &mut Cursor<'_>) -> Result<Primary, Refusal>
        requires { InnerExpr self.now.bounds (F.pre self.now.inner) (F.post self.now.inner) }
        ensures { Reads (within spec.primary_of self.now.bounds tokens.old) result tokens.new }
    {
        if tokens.sees_number() {
            let (number, place) = tokens.number()?;
            return Ok(Primary::Number(number, place));
        }
        if tokens.sees_some(truth_value) {
            let (value, place) = tokens.entry_at(truth_value)?;
            return Ok(Primary::Truth(value, place));
        }
        if tokens.sees_name() {
            self.named_primary(tokens)
        } else if tokens.sees(Fixed::OpenParen) {
            self.bracketed(tokens)
        } else {
            self.call(tokens)
        }
    }

    #[tactic(auto, unfolding(crate::specs::Inner::ReadExpressions::unary_of))]
    fn unary(&self, tokens: &mut Cursor<'_>) -> Result<Unary, Refusal>
        requires { InnerExpr self.now.bounds (F.pre self.now.inner) (F.post self.now.inner) }
        ensures { Reads (within spec.unary_of self.now.bounds tokens.old) result tokens.new }
    {
        if tokens.sees(Fixed::Minus) {
            let place = tokens.place_of(Fixed::Minus)?;
            Ok(Unary::Minus(place, self.primary(tokens)?))
        } else if tokens.sees(Fixed::Not) {
            let place = tokens.place_of(Fixed::Not)?;
            Ok(Unary::Not(place, self.primary(tokens)?))
        } else {
            Ok(Unary::Plain(self.primary(tokens)?))
        }
    }

    fn factor(&self, tokens: &mut Cursor<'_>) -> Result<Operation<MultiplyOperator, Unary>, Refusal>
        requires { InnerExpr self.now.bounds (F.pre self.now.inner) (F.post self.now.inner) }
        ensures { Reads (within spec.factor self.now.bounds tokens.old) result tokens.new }
    {
        let operator = tokens.entry(multiply_operator)?;
        let operand = self.unary(tokens)?;
        Ok(Operation { operator, operand })
    }

    #[tactic(auto, unfolding(crate::specs::Inner::ReadExpressions::product_of))]
    fn product(&self, tokens: &mut Cursor<'_>) -> Result<Product, Refusal>
        requires { InnerExpr self.now.bounds (F.pre self.now.inner) (F.post self.now.inner) }
        ensures { Reads (within spec.product_of self.now.bounds tokens.old) result tokens.new }
    {
        let first = self.unary(tokens)?;
        let more = many(
            self.alloc,
            self.bounds.turns,
            tokens,
            |tokens| tokens.sees_some(multiply_operator),
            |tokens| self.factor(tokens),
        )?;
        Ok(Product { first, more })
    }

    fn term(&self, tokens: &mut Cursor<'_>) -> Result<Operation<AddOperator, Product>, Refusal>
        requires { InnerExpr self.now.bounds (F.pre self.now.inner) (F.post self.now.inner) }
        ensures { Reads (within spec.term self.now.bounds tokens.old) result tokens.new }
    {
        let operator = tokens.entry(add_operator)?;
        let operand = self.product(tokens)?;
        Ok(Operation { operator, operand })
    }

    #[tactic(auto, unfolding(crate::specs::Inner::ReadExpressions::sum_of))]
    fn sum(&self, tokens: &mut Cursor<'_>) -> Result<Sum, Refusal>
        requires { InnerExpr self.now.bounds (F.pre self.now.inner) (F.post self.now.inner) }
        ensures { Reads (within spec.sum_of self.now.bounds tokens.old) result tokens.new }
    {
        let first = self.product(tokens)?;
        let more = many(
            self.alloc,
            self.bounds.turns,
            tokens,
            |tokens| tokens.sees_some(add_operator),
            |tokens| self.term(tokens),
        )?;
        Ok(Sum { first, more })
    }

    fn compared_part(
        &self,
        tokens: &mut Cursor<'_>,
    ) -> Result<Operation<CompareOperator, Sum>, Refusal>
        requires { InnerExpr self.now.bounds (F.pre self.now.inner) (F.post self.now.inner) }
        ensures { Reads (within spec.compared_part self.now.bounds tokens.old) result tokens.new }
    {
        let operator = tokens.entry(compare_operator)?;
        let operand = self.sum(tokens)?;
        Ok(Operation { operator, operand })
    }

    #[tactic(auto, unfolding(crate::specs::Inner::ReadExpressions::comparison_of))]
    fn comparison(&self, tokens: &mut Cursor<'_>) -> Result<Comparison, Refusal>
        requires { InnerExpr self.now.bounds (F.pre self.now.inner) (F.post self.now.inner) }
        ensures { Reads (within spec.comparison_of self.now.bounds tokens.old) result tokens.new }
    {
        let first = self.sum(tokens)?;
        let more = many(
            self.alloc,
            self.bounds.turns,
            tokens,
            |tokens| tokens.sees_some(compare_operator),
            |tokens| self.compared_part(tokens),
        )?;
        Ok(Comparison { first, more })
    }

    fn equated_part(
        &self,
        tokens: &mut Cursor<'_>,
    ) -> Result<Operation<EqualOperator, Comparison>, Refusal>
        requires { InnerExpr self.now.bounds (F.pre self.now.inner) (F.post self.now.inner) }
        ensures { Reads (within spec.equated_part self.now.bounds tokens.old) result tokens.new }
    {
        let operator = tokens.entry(equal_operator)?;
        let operand = self.comparison(tokens)?;
        Ok(Operation { operator, operand })
    }

    #[tactic(auto, unfolding(crate::specs::Inner::ReadExpressions::equality_of))]
    fn equality(&self, tokens: &mut Cursor<'_>) -> Result<Equality, Refusal>
        requires { InnerExpr self.now.bounds (F.pre self.now.inner) (F.post self.now.inner) }
        ensures { Reads (within spec.equality_of self.now.bounds tokens.old) result tokens.new }
    {
        let first = self.comparison(tokens)?;
        let more = many(
            self.alloc,
            self.bounds.turns,
            tokens,
            |tokens| tokens.sees_some(equal_operator),
            |tokens| self.equated_part(tokens),
        )?;
        Ok(Equality { first, more })
    }

    fn conjunct(&self, tokens: &mut Cursor<'_>) -> Result<Equality, Refusal>
        requires { InnerExpr self.now.bounds (F.pre self.now.inner) (F.post self.now.inner) }
        ensures { Reads (within spec.conjunct self.now.bounds tokens.old) result tokens.new }
    {
        tokens.expect(Fixed::And)?;
        self.equality(tokens)
    }

    #[tactic(auto, unfolding(crate::specs::Inner::ReadExpressions::conjunction_of))]
    fn conjunction(&self, tokens: &mut Cursor<'_>) -> Result<Conjunction, Refusal>
        requires { InnerExpr self.now.bounds (F.pre self.now.inner) (F.post self.now.inner) }
        ensures { Reads (within spec.conjunction_of self.now.bounds tokens.old) result tokens.new }
    {
        let first = self.equality(tokens)?;
        let more = many(
            self.alloc,
            self.bounds.turns,
            tokens,
            |tokens| tokens.sees(Fixed::And),
            |tokens| self.conjunct(tokens),
        )?;
        Ok(Conjunction { first, more })
    }

    fn exclusive_part(&self, tokens: &mut Cursor<'_>) -> Result<Conjunction, Refusal>
        requires { InnerExpr self.now.bounds (F.pre self.now.inner) (F.post self.now.inner) }
        ensures { Reads (within spec.exclusive_part self.now.bounds tokens.old) result tokens.new }
    {
        tokens.expect(Fixed::Xor)?;
        self.conjunction(tokens)
    }

    #[tactic(auto, unfolding(crate::specs::Inner::ReadExpressions::exclusive_of))]
    fn exclusive(&self, tokens: &mut Cursor<'_>) -> Result<Exclusive, Refusal>
        requires { InnerExpr self.now.bounds (F.pre self.now.inner) (F.post self.now.inner) }
        ensures { Reads (within spec.exclusive_of self.now.bounds tokens.old) result tokens.new }
    {
        let first = self.conjunction(tokens)?;
        let more = many(
            self.alloc,
            self.bounds.turns,
            tokens,
            |tokens| tokens.sees(Fixed::Xor),
            |tokens| self.exclusive_part(tokens),
        )?;
        Ok(Exclusive { first, more })
    }

    fn alternative(&self, tokens: &mut Cursor<'_>) -> Result<Exclusive, Refusal>
        requires { InnerExpr self.now.bounds (F.pre self.now.inner) (F.post self.now.inner) }
        ensures { Reads (within spec.alternative self.now.bounds tokens.old) result tokens.new }
    {
        tokens.expect(Fixed::Or)?;
        self.exclusive(tokens)
    }

    #[tactic(auto, unfolding(crate::specs::Inner::ReadExpressions::whole_of))]
    pub fn whole(&self, tokens: &mut Cursor<'_>) -> Result<Expr, Refusal>
        requires { InnerExpr self.now.bounds (F.pre self.now.inner) (F.post self.now.inner) }
        ensures { Reads (within spec.whole_of self.now.bounds tokens.old) result tokens.new }
    {
        let first = self.exclusive(tokens)?;
        let more = many(
            self.alloc,
            self.bounds.turns,
            tokens,
            |tokens| tokens.sees(Fixed::Or),
            |tokens| self.alternative(tokens),
        )?;
        Ok(Expr { first, more })
    }
}

/// A whole expression, nested in fewer levels than this. There are fewer tokens than levels.
pub fn expr(alloc: Global, tokens: &mut Cursor<'_>, levels: usize) -> Result<Expr, Refusal>
    ensures { Reads (expr_at levels tokens.old) result tokens.new }
{
    if levels == 0 {
        return Err(tokens.refusal());
    }
    Expressions {
        alloc,
        bounds: Bounds {
            turns: levels,
            levels: levels - 1,
        },
        inner: expr,
    }
    .whole(tokens)
}
