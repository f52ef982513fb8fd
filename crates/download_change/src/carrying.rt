ghost use Rattle.std.specs.Prelude.{◌≡◌, ◌≤◌, ◌+◌, ◌++◌, length, IfOk, OnOk, IfSome, None};
ghost use Rattle.tag_layout.specs.Layout.{words_of, total_words};
ghost use Rattle.download_change.specs.Renames.{renames_fault_of};
ghost use Rattle.download_change.specs.Kept.{carried_part, carried_words};
ghost use Rattle.download_change.specs.Kept as spec;

use crate::kept::kept;
use crate::rename_table::RenameTable;
use crate::types::word_count;
use std::alloc::Global;
use tag_layout::{Layout, PlacedTag};
use tri_base::{Name, NoMemory, Words};

// The words of a tag.
fn words_at<'w>(words: &'w [i64], tag: &PlacedTag) -> &'w [i64]
    requires { tag.now.address + words_of tag.now.of ≤ length words.now }
    ensures { result.now ≡ spec.words_at words.now tag.now }
{
    &words[tag.address..tag.address + word_count(tag.of)]
}

// Adds words at the end.
fn push_words(words: &mut Words, more: &[i64]) -> Result<(), NoMemory>
    ensures { OnOk result (words.new.list ≡ words.old.list ++ more.now) }
{
    words.reserve(more.len())?;
    words.extend(more);
    Ok(())
}

// The words that a tag of the new program goes on with.
fn part<'w>(
    kept: Option<PlacedTag>,
    tag: &PlacedTag,
    first: &'w [i64],
    words: &'w [i64],
) -> &'w [i64]
    requires kept { IfSome kept (λ t. t.address + words_of t.of ≤ length words.now) }
    requires first { tag.now.address + words_of tag.now.of ≤ length first.now }
    ensures { result.now ≡ carried_part words.now first.now kept tag.now }
{
    match kept {
        Some(origin) => words_at(words, &origin),
        None => words_at(first, tag),
    }
}

/// The words with which the new program goes on: those of each tag that is kept, and the first ones
/// of each other tag. `renames` are pairs of an old and a new name in which `renames_fault` finds
/// nothing wrong, `first` are the new program's first words, `words` the old program's. Its time
/// grows with the number of words and of renames.
pub fn carry(
    alloc: Global,
    old: &Layout,
    new: &Layout,
    renames: &[(Name, Name)],
    first: &Words,
    words: &Words,
) -> Result<Words, NoMemory>
    requires known { renames_fault_of old.now new.now renames.now ≡ None }
    requires first { length first.now.list ≡ total_words new.now }
    requires words { length words.now.list ≡ total_words old.now }
    ensures carried { IfOk result (λ w.
        w.list ≡ carried_words old.now new.now renames.now first.now.list words.now.list) }
    ensures count { IfOk result (λ w. length w.list ≡ total_words new.now) }
{
    let table = RenameTable::new(alloc, renames)?;
    let mut carried = Words::new(alloc);
    carried.reserve(new.words())?;
    for tag in new.tags() {
        let origin = kept(old, &table, tag);
        push_words(
            &mut carried,
            part(origin, tag, first.items(), words.items()),
        )?;
    }
    Ok(carried)
}
