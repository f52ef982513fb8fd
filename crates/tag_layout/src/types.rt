//! The types of tags, and how many words a tag of each has.

ghost use Rattle.std.specs.Prelude.{◌≡◌, min, nat_lt};
ghost use Rattle.st_tree.specs.Integers.{integer_value};
ghost use Rattle.tag_layout.specs.Layout as spec;

use function_blocks::{BlockKind, Kind, field_count};
use st_tree::{DeclaredType, Integer, Tag, TagType};

// The type of a function block's tag.
fn type_of_block(block: BlockKind) -> TagType
    ensures { result ≡ spec.type_of_block block }
{
    match block {
        BlockKind::RTrig => TagType::RTrig,
        BlockKind::FTrig => TagType::FTrig,
        BlockKind::Sr => TagType::Sr,
        BlockKind::Rs => TagType::Rs,
        BlockKind::Ctu => TagType::Ctu,
        BlockKind::Ctd => TagType::Ctd,
        BlockKind::Ton => TagType::Ton,
        BlockKind::Tof => TagType::Tof,
        BlockKind::Tp => TagType::Tp,
    }
}

/// The type that a written type is.
pub fn type_of(declared: DeclaredType) -> TagType
    ensures { result ≡ spec.type_of declared }
{
    match declared {
        DeclaredType::Simple(Kind::Bool) => TagType::Bool,
        DeclaredType::Simple(Kind::Int) => TagType::Int,
        DeclaredType::Simple(Kind::Dint) => TagType::Dint,
        DeclaredType::Array { low, high, element } => TagType::Array {
            element,
            low: low.value(),
            high: high.value(),
        },
        DeclaredType::Block(block) => type_of_block(block),
    }
}

/// How many elements an array with these bounds has.
pub fn element_count(low: Integer, high: Integer) -> usize
    ensures { result ≡ spec.count_between (integer_value low) (integer_value high) }
{
    let low = low.value();
    let high = high.value();
    if high < low {
        0
    } else {
        (high - low).unsigned_abs() as usize + 1
    }
}

/// How many words a tag of a written type has.
pub fn words_of(declared: DeclaredType) -> usize
    ensures { result ≡ spec.words_of (spec.type_of declared) }
{
    match declared {
        DeclaredType::Simple(_) => 1,
        DeclaredType::Array { low, high, .. } => element_count(low, high),
        DeclaredType::Block(block) => field_count(block),
    }
}

/// Whether a tag of a type has a field of this number.
pub fn has_field(of: TagType, field: usize) -> bool
    ensures { result ≡ nat_lt field (spec.words_of of) }
{
    match of {
        TagType::Bool | TagType::Int | TagType::Dint => field == 0,
        TagType::Array { low, high, .. } => low <= high && field as u64 <= high.abs_diff(low),
        TagType::RTrig => field < field_count(BlockKind::RTrig),
        TagType::FTrig => field < field_count(BlockKind::FTrig),
        TagType::Sr => field < field_count(BlockKind::Sr),
        TagType::Rs => field < field_count(BlockKind::Rs),
        TagType::Ctu => field < field_count(BlockKind::Ctu),
        TagType::Ctd => field < field_count(BlockKind::Ctd),
        TagType::Ton => field < field_count(BlockKind::Ton),
        TagType::Tof => field < field_count(BlockKind::Tof),
        TagType::Tp => field < field_count(BlockKind::Tp),
    }
}

/// How many words all these tags have, as far as the number fits.
pub fn total_words(tags: &[Tag]) -> usize
    ensures { result ≡ min (spec.total_words tags.now) spec.greatest_told }
{
    let mut total = 0_usize;
    for tag in tags {
        total = total.saturating_add(words_of(tag.declared));
    }
    total
}
