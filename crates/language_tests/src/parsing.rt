use st_parser::{ParseFault, first_too_deep, parse};
use st_tree::{
    AddOperator, Expr, Fixed, MultiplyOperator, Primary, Product, Statement, Sum, TokenKind,
    Tokens, Tree, Unary,
};
use std::alloc::Global;
use std::test::Fail;
use tri_base::Name;

/// The name, or FALSE where there is none.
fn name(bytes: &[u8]) -> TokenKind {
    match Name::read(bytes) {
        Some(name) => TokenKind::Name(name),
        None => TokenKind::Fixed(Fixed::False),
    }
}

/// What these tokens are parsed to, at the places 0, 1, 2 and on.
fn parsed(alloc: Global, kinds: &[TokenKind]) -> Result<Tree, ParseFault> {
    let mut tokens = Tokens::new(alloc);
    for (place, kind) in kinds.iter().enumerate() {
        tokens.add(*kind, place).map_err(|_| ParseFault::NoMemory)?;
    }
    match first_too_deep(tokens.items()) {
        None => parse(alloc, tokens.items()),
        Some(token) => Err(ParseFault::Syntax { token }),
    }
}

/// The token at which the parser stops.
fn stops(alloc: Global, kinds: &[TokenKind]) -> Option<usize> {
    match parsed(alloc, kinds) {
        Err(ParseFault::Syntax { token }) => Some(token),
        _ => None,
    }
}

fn sum(expr: &Expr) -> &Sum {
    &expr.first.first.first.first.first
}

fn number(product: &Product) -> Option<(u32, usize)> {
    match &product.first {
        Unary::Plain(Primary::Number(number, place)) => Some((*number, *place)),
        _ => None,
    }
}

/// Of a sum's first two products: a number, the operator, a number, and the operator behind that.
fn shape(tree: &Tree) -> Option<((u32, usize), AddOperator, (u32, usize), MultiplyOperator)> {
    let Some(Statement::Assignment(assignment)) = tree.statements.get(0) else {
        return None;
    };
    let sum = sum(&assignment.value);
    let term = sum.more.get(0)?;
    let factor = term.operand.more.get(0)?;
    Some((
        number(&sum.first)?,
        term.operator,
        number(&term.operand)?,
        factor.operator,
    ))
}

#[test]
fn products_bind_tighter_than_sums(rt: HostRuntime) -> Result<(), Fail> {
    let tokens: &[TokenKind] = &[
        TokenKind::Fixed(Fixed::Program),
        name(b"P"),
        name(b"X"),
        TokenKind::Fixed(Fixed::Assign),
        TokenKind::Number(1),
        TokenKind::Fixed(Fixed::Plus),
        TokenKind::Number(2),
        TokenKind::Fixed(Fixed::Times),
        TokenKind::Number(3),
        TokenKind::Fixed(Fixed::Semicolon),
        TokenKind::Fixed(Fixed::EndProgram),
    ];
    let found = match parsed(rt.alloc(), tokens) {
        Ok(tree) => shape(&tree),
        Err(_) => None,
    };
    let wanted = ((1, 4), AddOperator::Add, (2, 6), MultiplyOperator::Multiply);
    assert_eq!(rt; found, Some(wanted));
    assert_eq!(rt; stops(rt.alloc(), &tokens[..10]), Some(10));
    assert_eq!(rt; stops(rt.alloc(), &tokens[1..]), Some(0));
    Ok(())
}
