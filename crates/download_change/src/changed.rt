ghost use Rattle.std.specs.Prelude.{◌≡◌};
ghost use Rattle.download_change.specs.Kept as spec;

use crate::heirs::heir;
use crate::types::same_type;
use tag_layout::{Layout, PlacedTag};
use tri_base::Name;

/// The first tag of the old program, by its old name, whose heir the new program declares with
/// another type. `renames` are pairs of an old and a new name. It takes no memory. Its time grows
/// with the number of tags times that of renames.
pub fn matches(old: &Layout, new: &Layout, renames: &[(Name, Name)]) -> Option<Name>
    ensures { result ≡ spec.changed_type_of old.now new.now renames.now }
{
    for tag in old.tags() {
        if is_changed(new, renames, tag) {
            return Some(tag.name);
        }
    }
    None
}

// Whether the new program declares a tag's heir with another type.
fn is_changed(new: &Layout, renames: &[(Name, Name)], tag: &PlacedTag) -> bool
    ensures { result ≡ spec.is_changed new.now renames.now tag.now }
{
    let Some(name) = heir(renames, &tag.name) else {
        return false;
    };
    match new.find(&name) {
        Some(other) => !same_type(tag.of, other.of),
        None => false,
    }
}
