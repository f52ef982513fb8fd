//! Which old tag is kept as a tag of the new program.

ghost use Rattle.std.specs.Prelude.{◌≡◌};
ghost use Rattle.download_change.specs.Inner.Origins.{kept_by_name};

use crate::rename_table::RenameTable;
use crate::types::same_type;
use tag_layout::{Layout, PlacedTag};

/// The tag of the old program that is kept as this one.
pub fn kept(old: &Layout, renames: &RenameTable, tag: &PlacedTag) -> Option<PlacedTag>
    ensures { result ≡ kept_by_name old.now renames.now tag.now }
{
    let name = renames.source(&tag.name)?;
    let origin = old.find(&name)?;
    if same_type(origin.of, tag.of) {
        Some(origin)
    } else {
        None
    }
}
