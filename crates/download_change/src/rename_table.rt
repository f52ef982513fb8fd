//! Renames, found by either of their names in constant time.

ghost use Rattle.std.specs.Prelude.{◌≡◌, ℕ, List, IfOk};
ghost use Rattle.std.specs.List.{find};
ghost use Rattle.std.specs.Map.{lookup};
ghost use Rattle.std.specs.Option.{option_map};
ghost use Rattle.std.specs.Str.{bytes_eq};
ghost use Rattle.tri_base.specs.Inner.NameFields.{same_name};
ghost use Rattle.download_change.specs.Inner.Origins.{source_of};
ghost use Rattle.download_change.specs.Renames.{is_old_name};

use indexmap::IndexMap;
use std::alloc::Global;
use std::marker::Model;
use tri_base::{Name, NoMemory};

/// The renames of a download.
#[derive(Drop)]
pub struct RenameTable<'r> {
    renames: &'r [(Name, Name)],
    // The new name of the first rename with each old name.
    by_old: IndexMap<Name, Name>,
    // The old name of the first rename with each new name.
    by_new: IndexMap<Name, Name>,
}

impl<'r> Model for RenameTable<'r> {
    ghost use Rattle.std.specs.Prelude.{List};
    ghost use Rattle.download_change.specs.Renames.{Rename};

    ghost Value = { List Rename };

    ghost use Rattle.download_change.specs.Inner.Tables.{IsKept};

    ghost view = { λ t. t.renames.now };

    ghost invariant = { IsKept };
}

impl<'r> RenameTable<'r> {
    /// The table of these renames.
    pub fn new(alloc: Global, renames: &'r [(Name, Name)]) -> Result<RenameTable<'r>, NoMemory>
        ensures { IfOk result (λ t. t ≡ renames.now) }
    {
        let by_old = by_old_name(alloc, renames)?;
        let by_new = by_new_name(alloc, renames)?;
        Ok(RenameTable {
            renames,
            by_old,
            by_new,
        })
    }

    /// The old name whose heir a name of the new program is.
    pub fn source(&self, name: &Name) -> Option<Name>
        ensures { result ≡ source_of self.now name.now }
    {
        if let Some(old) = self.old_name(name) {
            return Some(old);
        }
        if self.is_old_name(name) {
            None
        } else {
            Some(*name)
        }
    }

    // The old name of the first rename with this new name.
    fn old_name(&self, name: &Name) -> Option<Name>
        ensures { result ≡ option_map (λ r. r.0) (find (λ r. bytes_eq name.now r.1) self.now) }
    {
        self.by_new.get(name).copied()
    }

    // Whether a rename has this old name.
    fn is_old_name(&self, name: &Name) -> bool
        ensures { result ≡ is_old_name self.now name.now }
    {
        self.by_old.contains_key(name)
    }
}

// The new name of the first rename with each old name.
fn by_old_name(alloc: Global, renames: &[(Name, Name)]) -> Result<IndexMap<Name, Name>, NoMemory>
    ensures { IfOk result (λ m. (name : List ℕ) → lookup (same_name name) m.entries
        ≡ option_map (λ r. r.1) (find (λ r. bytes_eq name r.0) renames.now)) }
{
    let mut names = IndexMap::new(alloc);
    // From the last one to the first, which is then the one that is found.
    for at in (0..renames.len()).rev() {
        let rename = renames[at];
        names.insert(rename.0, rename.1)?;
    }
    Ok(names)
}

// The old name of the first rename with each new name.
fn by_new_name(alloc: Global, renames: &[(Name, Name)]) -> Result<IndexMap<Name, Name>, NoMemory>
    ensures { IfOk result (λ m. (name : List ℕ) → lookup (same_name name) m.entries
        ≡ option_map (λ r. r.0) (find (λ r. bytes_eq name r.1) renames.now)) }
{
    let mut names = IndexMap::new(alloc);
    // From the last one to the first, which is then the one that is found.
    for at in (0..renames.len()).rev() {
        let rename = renames[at];
        names.insert(rename.1, rename.0)?;
    }
    Ok(names)
}
