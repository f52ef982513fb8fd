use crate::declaration::{Integer, PlacedName};
use crate::expression::Expr;
use sqlite_items::Items;

/// name := value, or name[index] := value
#[derive(Drop)]
pub struct Assignment {
    /// The tag that is set.
    pub target: PlacedName,
    /// Of an array's element: its index.
    pub index: Option<Expr>,
    /// The value.
    pub value: Expr,
}

/// name := value, in a call of a block
#[derive(Drop)]
pub struct Input {
    /// The field of the block.
    pub name: PlacedName,
    /// The value.
    pub value: Expr,
}

/// One or more inputs with commas between.
#[derive(Drop)]
pub struct Inputs {
    /// The first of them.
    pub first: Input,
    /// The others, in order.
    pub more: Items<Input>,
}

/// A call of a block.
#[derive(Drop)]
pub struct BlockCall {
    /// The block's tag.
    pub block: PlacedName,
    /// The inputs that are named, if any.
    pub inputs: Option<Inputs>,
}

/// A number, or the range from a number to a number.
#[derive(Clone, Copy, Debug, PartialEq, Eq)]
pub struct Label {
    /// The number, or the range's first.
    pub low: Integer,
    /// The range's last.
    pub high: Option<Integer>,
}

/// A statement. `otherwise` is what stands behind ELSE, if it is written.
#[cycle(statement)]
#[derive(Drop)]
pub enum Statement {
    /// A semicolon alone.
    Empty,
    /// A tag or an element of an array is set.
    Assignment(Assignment),
    /// A block is called.
    BlockCall(BlockCall),
    /// IF, with a branch for IF and for each ELSIF.
    If {
        first: Branch,
        more: Items<Branch>,
        otherwise: Option<Items<Statement>>,
    },
    /// CASE, with at least one element.
    Case {
        selector: Expr,
        first: Element,
        more: Items<Element>,
        otherwise: Option<Items<Statement>>,
    },
    /// FOR, from a number to a number; without BY the step is 1.
    For {
        tag: PlacedName,
        first: Integer,
        last: Integer,
        step: Option<Integer>,
        body: Items<Statement>,
    },
    /// EXIT, and its byte place.
    Exit(usize),
    /// RETURN
    Return,
}

/// A condition with the statements that are done where it holds: of IF or ELSIF.
#[cycle(statement)]
#[derive(Drop)]
pub struct Branch {
    /// The condition.
    pub condition: Expr,
    /// The statements behind THEN.
    pub body: Items<Statement>,
}

/// Labels with the statements that are done where one of them holds the selector.
#[cycle(statement)]
#[derive(Drop)]
pub struct Element {
    /// The first label.
    pub first: Label,
    /// The others, in order.
    pub more: Items<Label>,
    /// The statements behind the colon.
    pub body: Items<Statement>,
}
