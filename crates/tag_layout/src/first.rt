//! The first values of tags.

ghost use Rattle.std.specs.Prelude.{◌≡◌, ◌++◌, pos, replicate, slice_index_or, OnOk, IfOk};
ghost use Rattle.function_blocks.specs.Fields.{first_values};
ghost use Rattle.tag_layout.specs.Layout as spec;

use crate::types::element_count;
use function_blocks::{BlockKind, field_at, field_count};
use st_tree::{Constant, DeclaredType, Tag};
use std::alloc::Global;
use tri_base::{NoMemory, Words, push_word};

// The number of a written first value; 0 where none is written.
fn first_number(constant: Option<Constant>) -> i64
    ensures { result ≡ spec.first_number constant }
{
    match constant {
        None => 0,
        Some(Constant::Integer(integer)) => integer.value(),
        Some(Constant::Truth(value, _)) => i64::from(value),
    }
}

// The first value of a block's field.
fn first_of_field(block: BlockKind, place: usize) -> i64
    ensures { result ≡ slice_index_or (first_values block) place (pos 0) }
{
    match field_at(block, place) {
        Some(field) => field.first,
        None => 0,
    }
}

// Adds the first values of a block's fields.
fn push_block(words: &mut Words, block: BlockKind) -> Result<(), NoMemory>
    ensures { OnOk result (words.new.list ≡ words.old.list ++ first_values block) }
{
    for place in 0..field_count(block) {
        push_word(words, first_of_field(block, place))?;
    }
    Ok(())
}

// Adds a number so many times.
fn push_times(words: &mut Words, times: usize, number: i64) -> Result<(), NoMemory>
    ensures { OnOk result (words.new.list ≡ words.old.list ++ replicate times number) }
{
    for _turn in 0..times {
        push_word(words, number)?;
    }
    Ok(())
}

// Adds the first numbers of a tag's words.
fn push_tag(words: &mut Words, tag: &Tag) -> Result<(), NoMemory>
    ensures { OnOk result
        (words.new.list ≡ words.old.list ++ spec.first_numbers tag.now.declared tag.now.constant) }
{
    match tag.declared {
        DeclaredType::Simple(_) => push_word(words, first_number(tag.constant)),
        DeclaredType::Array { low, high, .. } => {
            push_times(words, element_count(low, high), first_number(tag.constant))
        }
        DeclaredType::Block(block) => push_block(words, block),
    }
}

/// The words that hold the first values of these tags, which are so many.
pub fn first_words(alloc: Global, tags: &[Tag], count: usize) -> Result<Words, NoMemory>
    ensures { IfOk result (λ words. words.list ≡ spec.first_words tags.now) }
{
    let mut words = Words::new(alloc);
    words.reserve(count)?;
    for tag in tags {
        push_tag(&mut words, tag)?;
    }
    Ok(words)
}
