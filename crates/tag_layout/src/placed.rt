//! Tags with their addresses.

ghost use Rattle.std.specs.Prelude.{◌≡◌, ◌≤◌, [], ◌∷◌, ◌++◌, OnOk, IfOk};
ghost use Rattle.tri_base.specs.Limits.{word_limit};
ghost use Rattle.tag_layout.specs.Layout.{placed_tag, placed_tags, total_words};

use crate::types::{type_of, words_of};
use st_tree::{Tag, TagType};
use std::alloc::Global;
use tri_base::{Name, NoMemory};

/// A declared tag with the address of its first word.
#[derive(Clone, Copy, Debug, PartialEq, Eq)]
pub struct PlacedTag {
    /// In capitals.
    pub name: Name,
    /// Its type. An array has its bounds.
    pub of: TagType,
    /// The address of its first word. Its other words follow.
    pub address: usize,
}

// Adds a tag at an address.
fn push_placed(placed: &mut Vec<PlacedTag>, tag: &Tag, address: usize) -> Result<(), NoMemory>
    ensures { OnOk result (placed.new.items ≡ placed.old.items ++ placed_tag tag.now address ∷ []) }
{
    placed.push(PlacedTag {
        name: tag.name,
        of: type_of(tag.declared),
        address,
    })?;
    Ok(())
}

/// All tags with their addresses, one behind the other from address 0 on.
pub fn place_tags(alloc: Global, tags: &[Tag]) -> Result<Vec<PlacedTag>, NoMemory>
    requires { total_words tags.now ≤ word_limit }
    ensures { IfOk result (λ placed. placed.items ≡ placed_tags tags.now) }
{
    let mut placed = Vec::new(alloc);
    let mut address = 0_usize;
    for tag in tags {
        push_placed(&mut placed, tag, address)?;
        address += words_of(tag.declared);
    }
    Ok(placed)
}
