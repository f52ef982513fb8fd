//! Tokens and the tree of a Structured Text program, and the definition of its grammar.
#![tactic(auto)]

mod declaration;
mod expression;
mod program;
mod statement;
mod tag;
mod tag_type;
mod token;
mod tokens;
mod typed;

pub use declaration::{
    Block, Constant, Declaration, DeclaredType, ExternalDeclaration, Integer, Names, PlacedName,
    Sign,
};
pub use expression::{
    AddOperator, Arguments, CompareOperator, Comparison, Conjunction, EqualOperator, Equality,
    Exclusive, Expr, Function, MultiplyOperator, Operation, Primary, Product, Sum, Unary,
};
pub use function_blocks::{BlockKind, Kind as Simple};
pub use program::Tree;
pub use sqlite_items::{Boxed, Items};
pub use statement::{Assignment, BlockCall, Branch, Element, Input, Inputs, Label, Statement};
pub use tag::Tag;
pub use tag_type::TagType;
pub use token::{Fixed, Token, TokenKind};
pub use tokens::Tokens;
pub use typed::Typed;
