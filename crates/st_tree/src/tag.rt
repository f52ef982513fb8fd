use crate::declaration::{Constant, DeclaredType};
use tri_base::Name;

/// A declared tag.
#[derive(Clone, Copy, Debug, PartialEq, Eq)]
pub struct Tag {
    /// In capitals.
    pub name: Name,
    /// The byte place of the name where it is declared.
    pub place: usize,
    /// The type as it is written.
    pub declared: DeclaredType,
    /// The first value that is written, if any.
    pub constant: Option<Constant>,
    /// Declared in VAR_EXTERNAL: the tag of a point.
    pub external: bool,
}
