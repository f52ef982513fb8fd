//! The table by which tags are found.

ghost use Rattle.std.specs.Prelude.{◌≡◌, ℕ, List, OnOk, OnErr, IfOk};
ghost use Rattle.std.specs.Map.{lookup};
ghost use Rattle.tri_base.specs.Inner.NameFields.{same_name};
ghost use Rattle.st_types.specs.Inner.Places.{place_of, with_first};

use indexmap::IndexMap;
use st_tree::Tag;
use std::alloc::Global;
use tri_base::{Name, NoMemory};

// Notes the place of a name that has none yet.
fn note_first(places: &mut IndexMap<Name, usize>, name: Name, place: usize) -> Result<(), NoMemory>
    ensures noted { OnOk result (places.new.entries ≡ with_first places.old.entries name place) }
    ensures unchanged { OnErr result (places.new.entries ≡ places.old.entries) }
{
    if places.contains_key(&name) {
        return Ok(());
    }
    places.insert(name, place)?;
    Ok(())
}

/// The place of the first tag with each name.
pub fn first_places(alloc: Global, tags: &[Tag]) -> Result<IndexMap<Name, usize>, NoMemory>
    ensures { IfOk result (λ places. (name : List ℕ)
        → lookup (same_name name) places.entries ≡ place_of tags.now name) }
{
    let mut places = IndexMap::new(alloc);
    for (place, tag) in tags.iter().enumerate() {
        note_first(&mut places, tag.name, place)?;
    }
    Ok(places)
}
