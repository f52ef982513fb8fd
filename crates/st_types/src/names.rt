//! The values of names in expressions.

ghost use Rattle.std.specs.Prelude.{◌≡◌};
ghost use Rattle.st_types.specs.Inner.Summaries as spec;
ghost use Rattle.st_tree.specs.Typing.Names as named;

use crate::finding::{Checked, Finding, broken, wrong_type};
use function_blocks::output_named;
use st_tree::{DeclaredType, PlacedName, Tag};
use tri_base::TypeCause;

/// A tag's value.
pub fn tag_value(name: PlacedName, tag: Option<Tag>) -> Finding
    ensures { result ≡ spec.finding_of (named.tag_value name tag) }
{
    let Some(tag) = tag else {
        return broken(name.place, TypeCause::UnknownName);
    };
    match tag.declared {
        DeclaredType::Simple(kind) => Finding::Typed(kind),
        DeclaredType::Array { .. } | DeclaredType::Block(_) => wrong_type(name.place),
    }
}

/// A field's value.
pub fn field_value(name: PlacedName, field: PlacedName, tag: Option<Tag>) -> Finding
    ensures { result ≡ spec.finding_of (named.field_value name field tag) }
{
    let Some(tag) = tag else {
        return broken(name.place, TypeCause::UnknownName);
    };
    let DeclaredType::Block(block) = tag.declared else {
        return wrong_type(name.place);
    };
    match output_named(block, field.name.bytes()) {
        Some(kind) => Finding::Typed(kind),
        None => broken(field.place, TypeCause::BadField),
    }
}

/// An element's value.
pub fn element_value(name: PlacedName, index: Checked, tag: Option<Tag>) -> Finding
    ensures { result ≡ spec.element_value name index tag }
{
    let Some(tag) = tag else {
        return broken(name.place, TypeCause::UnknownName);
    };
    let DeclaredType::Array { element, .. } = tag.declared else {
        return wrong_type(name.place);
    };
    match index.as_integer() {
        Finding::Faulty(fault) => Finding::Faulty(fault),
        _ => Finding::Typed(element),
    }
}
