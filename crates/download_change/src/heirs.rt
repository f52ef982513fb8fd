//! What tags are called behind a download.

ghost use Rattle.std.specs.Prelude.{◌≡◌};
ghost use Rattle.std.specs.List.{find};
ghost use Rattle.std.specs.Option.{option_map};
ghost use Rattle.std.specs.Str.{bytes_eq};
ghost use Rattle.download_change.specs.Renames as spec;

use tri_base::Name;

/// Whether one of the renames has this old name.
pub fn is_old_name(renames: &[(Name, Name)], name: &Name) -> bool
    ensures { result ≡ spec.is_old_name renames.now name.now }
{
    for rename in renames {
        if *name == rename.0 {
            return true;
        }
    }
    false
}

/// Whether one of the renames has this new name.
pub fn is_new_name(renames: &[(Name, Name)], name: &Name) -> bool
    ensures { result ≡ spec.is_new_name renames.now name.now }
{
    for rename in renames {
        if *name == rename.1 {
            return true;
        }
    }
    false
}

// The new name of the first rename with this old name.
fn new_name(renames: &[(Name, Name)], name: &Name) -> Option<Name>
    ensures { result ≡ option_map (λ r. r.1) (find (λ r. bytes_eq name.now r.0) renames.now) }
{
    for rename in renames {
        if *name == rename.0 {
            return Some(rename.1);
        }
    }
    None
}

/// What a tag of the old program is called in the new one, if anything.
pub fn heir(renames: &[(Name, Name)], name: &Name) -> Option<Name>
    ensures { result ≡ spec.heir_of renames.now name.now }
{
    if let Some(new) = new_name(renames, name) {
        return Some(new);
    }
    if is_new_name(renames, name) {
        None
    } else {
        Some(*name)
    }
}
