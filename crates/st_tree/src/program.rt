use crate::declaration::{Block, PlacedName};
use crate::statement::Statement;
use sqlite_items::Items;

/// A program.
#[derive(Drop)]
pub struct Tree {
    /// The name behind PROGRAM, which is no tag.
    pub name: PlacedName,
    /// The blocks of declarations, in order.
    pub blocks: Items<Block>,
    /// The statements, in order.
    pub statements: Items<Statement>,
}
