ghost use Rattle.std.specs.Prelude.{◌≡◌};
ghost use Rattle.download_change.specs.Renames as spec;

use crate::heirs::{is_new_name, is_old_name};
use tag_layout::Layout;
use tri_base::Name;

/// What is wrong with the renames of a download.
#[derive(Clone, Copy, Debug, PartialEq, Eq)]
pub enum RenameFault {
    /// No tag of the old program has this old name, or none of the new program this new name.
    Unknown(Name),
    /// Two renames have this name in the same place.
    Twice(Name),
}

/// What is wrong with renames of tags of an old program, each with its old and its new name: the
/// first name that isn't found, or else the first that two of them have in the same place. It takes
/// no memory. Its time grows with the square of their number.
pub fn renames_fault(old: &Layout, new: &Layout, renames: &[(Name, Name)]) -> Option<RenameFault>
    ensures { result ≡ spec.renames_fault_of old.now new.now renames.now }
{
    if let Some(name) = unknown_name(old, new, renames) {
        return Some(RenameFault::Unknown(name));
    }
    name_twice(renames).map(RenameFault::Twice)
}

// The first name of a rename that isn't found.
fn unknown_name(old: &Layout, new: &Layout, renames: &[(Name, Name)]) -> Option<Name>
    ensures { result ≡ spec.unknown_name_of old.now new.now renames.now }
{
    for rename in renames {
        if let Some(name) = unknown_in(old, new, rename) {
            return Some(name);
        }
    }
    None
}

// The name of a rename that isn't found.
fn unknown_in(old: &Layout, new: &Layout, rename: &(Name, Name)) -> Option<Name>
    ensures { result ≡ spec.unknown_in old.now new.now rename.now }
{
    if old.find(&rename.0).is_none() {
        Some(rename.0)
    } else if new.find(&rename.1).is_none() {
        Some(rename.1)
    } else {
        None
    }
}

// The first name that two renames have in the same place.
fn name_twice(renames: &[(Name, Name)]) -> Option<Name>
    ensures { result ≡ spec.name_twice_of renames.now }
{
    for (at, rename) in renames.iter().enumerate() {
        if let Some(name) = twice_in(&renames[..at], rename) {
            return Some(name);
        }
    }
    None
}

// The name of a rename that an earlier one has in the same place.
fn twice_in(earlier: &[(Name, Name)], rename: &(Name, Name)) -> Option<Name>
    ensures { result ≡ spec.twice_in earlier.now rename.now }
{
    if is_old_name(earlier, &rename.0) {
        Some(rename.0)
    } else if is_new_name(earlier, &rename.1) {
        Some(rename.1)
    } else {
        None
    }
}
