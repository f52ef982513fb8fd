//! From a program to the next.

ghost use Rattle.std.specs.Prelude.{◌≡◌, ◌≤◌, None, length, IfOk};
ghost use Rattle.tag_layout.specs.Layout.{total_words, first_words};
ghost use Rattle.download_change.specs.Renames.{unknown_name_of, name_twice_of};
ghost use Rattle.download_change.specs.Kept.{changed_type_of, carried_words};
ghost use Rattle.engine_face.specs.Meaning.{first_refusal};
ghost use Rattle.st_build.specs.Inner.Kept.{refusal_of_fault};

use download_change::{RenameFault, carry, matches, renames_fault};
use engine_face::Refusal;
use std::alloc::Global;
use tag_layout::Layout;
use tri_base::{Name, NoMemory, Words};

/// What a fault of renames refuses a change for.
fn rename_refusal(fault: RenameFault) -> Refusal
    ensures { result ≡ refusal_of_fault fault }
{
    match fault {
        RenameFault::Unknown(name) => Refusal::RenameUnknown(name),
        RenameFault::Twice(name) => Refusal::RenameTwice(name),
    }
}

/// What a tag of another type refuses a change for, if there is one.
fn kind_refusal(changed: Option<Name>) -> Option<Refusal>
    ensures { result ≡ first_refusal None None None changed }
{
    match changed {
        Some(name) => Some(Refusal::KindChanged(name)),
        None => None,
    }
}

/// Why a new program can't take the place of an old one: a name of a rename that isn't found, a
/// name twice, or a tag of another type, in this order.
pub(crate) fn change_refusal(
    old: &Layout,
    new: &Layout,
    renames: &[(Name, Name)],
) -> Option<Refusal>
    ensures { let unknown = unknown_name_of old.now new.now renames.now in
        let changed = changed_type_of old.now new.now renames.now in
        result ≡ first_refusal None unknown (name_twice_of renames.now) changed }
{
    match renames_fault(old, new, renames) {
        Some(fault) => Some(rename_refusal(fault)),
        None => kind_refusal(matches(old, new, renames)),
    }
}

/// The words that a new program goes on with.
pub(crate) fn carry_words(
    alloc: Global,
    old: &Layout,
    new: &Layout,
    renames: &[(Name, Name)],
    words: &Words,
) -> Result<Words, NoMemory>
    requires unknown { unknown_name_of old.now new.now renames.now ≡ None }
    requires twice { name_twice_of renames.now ≡ None }
    requires words { length words.now.list ≡ total_words old.now }
    ensures { let first = first_words new.now in
        let carried = carried_words old.now new.now renames.now first words.now.list in
        IfOk result (λ w. w.list ≡ carried) }
{
    let first = new.first(alloc)?;
    carry(alloc, old, new, renames, &first, words)
}
