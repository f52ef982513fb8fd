use crate::declaration::PlacedName;
use sqlite_items::{Boxed, Items};

/// An operator and what stands behind it.
#[derive(Drop)]
pub struct Operation<O, T> {
    /// The operator.
    pub operator: O,
    /// Its right operand.
    pub operand: T,
}

/// An operator of the rank of `=`.
#[derive(Clone, Copy, Debug, PartialEq, Eq)]
pub enum EqualOperator {
    /// `=`
    Equal,
    /// `<>`
    Unequal,
}

/// An operator of the rank of `<`.
#[derive(Clone, Copy, Debug, PartialEq, Eq)]
pub enum CompareOperator {
    /// `<`
    Less,
    /// `>`
    Greater,
    /// `<=`
    AtMost,
    /// `>=`
    AtLeast,
}

/// An operator of the rank of `+`.
#[derive(Clone, Copy, Debug, PartialEq, Eq)]
pub enum AddOperator {
    /// `+`
    Add,
    /// `-`
    Subtract,
}

/// An operator of the rank of `*`.
#[derive(Clone, Copy, Debug, PartialEq, Eq)]
pub enum MultiplyOperator {
    /// `*`
    Multiply,
    /// `/`
    Divide,
    /// MOD
    Modulo,
}

/// A standard function (IEC 61131-3:2013, 6.6.2.5).
#[derive(Clone, Copy, Debug, PartialEq, Eq)]
pub enum Function {
    Abs,
    Min,
    Max,
    Limit,
    Sel,
    IntToDint,
    DintToInt,
}

/// Operands joined by OR. In this and each rank below, operands group to the left.
#[cycle(expression)]
#[derive(Drop)]
pub struct Expr {
    /// The first operand.
    pub first: Exclusive,
    /// The others, in order.
    pub more: Items<Exclusive>,
}

/// Operands joined by XOR.
#[cycle(expression)]
#[derive(Drop)]
pub struct Exclusive {
    /// The first operand.
    pub first: Conjunction,
    /// The others, in order.
    pub more: Items<Conjunction>,
}

/// Operands joined by AND or `&`.
#[cycle(expression)]
#[derive(Drop)]
pub struct Conjunction {
    /// The first operand.
    pub first: Equality,
    /// The others, in order.
    pub more: Items<Equality>,
}

/// Operands joined by `=` and `<>`.
#[cycle(expression)]
#[derive(Drop)]
pub struct Equality {
    /// The first operand.
    pub first: Comparison,
    /// The others, in order, each behind its operator.
    pub more: Items<Operation<EqualOperator, Comparison>>,
}

/// Operands joined by `<`, `>`, `<=` and `>=`.
#[cycle(expression)]
#[derive(Drop)]
pub struct Comparison {
    /// The first operand.
    pub first: Sum,
    /// The others, in order, each behind its operator.
    pub more: Items<Operation<CompareOperator, Sum>>,
}

/// Operands joined by `+` and `-`.
#[cycle(expression)]
#[derive(Drop)]
pub struct Sum {
    /// The first operand.
    pub first: Product,
    /// The others, in order, each behind its operator.
    pub more: Items<Operation<AddOperator, Product>>,
}

/// Operands joined by `*`, `/` and MOD.
#[cycle(expression)]
#[derive(Drop)]
pub struct Product {
    /// The first operand.
    pub first: Unary,
    /// The others, in order, each behind its operator.
    pub more: Items<Operation<MultiplyOperator, Unary>>,
}

/// A primary with at most one `-` or NOT in front, and its byte place.
#[cycle(expression)]
#[derive(Drop)]
pub enum Unary {
    /// A primary alone.
    Plain(Primary),
    /// `-`
    Minus(usize, Primary),
    /// NOT
    Not(usize, Primary),
}

/// What operators join. Places are byte places.
#[cycle(expression)]
#[derive(Drop)]
pub enum Primary {
    /// A number, and its place.
    Number(u32, usize),
    /// TRUE or FALSE, and its place.
    Truth(bool, usize),
    /// A tag by its name.
    Tag(PlacedName),
    /// A block, and a field of it.
    Field(PlacedName, PlacedName),
    /// An array, and the index of an element.
    Element(PlacedName, Boxed<Expr>),
    /// The place of the opening bracket, and what stands inside.
    Bracketed(usize, Boxed<Expr>),
    /// A function, the place of its word, and its arguments.
    Call(Function, usize, Boxed<Arguments>),
}

/// One or more expressions with commas between.
#[cycle(expression)]
#[derive(Drop)]
pub struct Arguments {
    /// The first argument.
    pub first: Expr,
    /// The others, in order.
    pub more: Items<Expr>,
}
