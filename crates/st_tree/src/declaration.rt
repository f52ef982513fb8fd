ghost use Rattle.std.specs.Prelude.{◌≡◌};
ghost use Rattle.st_tree.specs.Integers.{integer_value, integer_place};

use function_blocks::{BlockKind, Kind as Simple};
use sqlite_items::Items;
use tri_base::Name;

/// A name, and the byte place at which it stands.
#[derive(Clone, Copy, Debug, PartialEq, Eq)]
pub struct PlacedName {
    /// In capitals.
    pub name: Name,
    /// The byte place of its first byte.
    pub place: usize,
}

/// A sign in front of a number.
#[derive(Clone, Copy, Debug, PartialEq, Eq)]
pub enum Sign {
    /// `+`
    Plus,
    /// `-`
    Minus,
}

/// A number with or without a sign (IEC 61131-3:2013, 6.3.2).
#[derive(Clone, Copy, Debug, PartialEq, Eq)]
pub struct Integer {
    /// The sign, and its byte place.
    pub sign: Option<(Sign, usize)>,
    /// 0 to 2,147,483,648.
    pub number: u32,
    /// The byte place of the number.
    pub place: usize,
}

impl Integer {
    /// The number with its sign.
    pub fn value(self) -> i64
        ensures { result ≡ integer_value self }
    {
        match self.sign {
            Some((Sign::Minus, _)) => -i64::from(self.number),
            _ => i64::from(self.number),
        }
    }

    /// The byte place of its first token.
    pub fn first_place(self) -> usize
        ensures { result ≡ integer_place self }
    {
        match self.sign {
            Some((_, place)) => place,
            None => self.place,
        }
    }
}

/// The first value of a tag.
#[derive(Clone, Copy, Debug, PartialEq, Eq)]
pub enum Constant {
    /// A number of an INT or a DINT.
    Integer(Integer),
    /// TRUE or FALSE, and its byte place.
    Truth(bool, usize),
}

/// A type as it is written.
#[derive(Clone, Copy, Debug, PartialEq, Eq)]
pub enum DeclaredType {
    /// BOOL, INT or DINT.
    Simple(Simple),
    /// ARRAY [low..high] OF element
    Array {
        low: Integer,
        high: Integer,
        element: Simple,
    },
    /// A standard function block.
    Block(BlockKind),
}

/// One or more names with commas between.
#[derive(Drop)]
pub struct Names {
    /// The first of them.
    pub first: PlacedName,
    /// The others, in order.
    pub more: Items<PlacedName>,
}

/// Names of one type, each with the same first value.
#[derive(Drop)]
pub struct Declaration {
    /// The names that are declared.
    pub names: Names,
    /// The type of each.
    pub declared: DeclaredType,
    /// The first value of each, if one is written.
    pub constant: Option<Constant>,
}

/// Names of points, each of one type.
#[derive(Drop)]
pub struct ExternalDeclaration {
    /// The names of the points.
    pub names: Names,
    /// The type of each.
    pub declared: Simple,
}

/// VAR or VAR_EXTERNAL up to END_VAR.
#[derive(Drop)]
pub enum Block {
    /// VAR
    Plain(Items<Declaration>),
    /// VAR_EXTERNAL
    External(Items<ExternalDeclaration>),
}
