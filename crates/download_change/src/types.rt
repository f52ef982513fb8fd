//! The types of tags.

ghost use Rattle.std.specs.Prelude.{◌≡◌, ◌<◌, ◌^◌};
ghost use Rattle.tag_layout.specs.Layout.{words_of};
ghost use Rattle.download_change.specs.Kept as spec;

use function_blocks::{BlockKind, field_count};
use st_tree::TagType;

/// Whether two types are one.
pub fn same_type(a: TagType, b: TagType) -> bool
    ensures { result ≡ spec.same_type a b }
{
    a == b
}

/// How many words a tag of a type has, where the number fits.
pub fn word_count(of: TagType) -> usize
    requires { words_of of < 2 ^ 64 }
    ensures { result ≡ words_of of }
{
    match of {
        TagType::Bool | TagType::Int | TagType::Dint => 1,
        TagType::Array { low, high, .. } => {
            if high < low {
                0
            } else {
                high.abs_diff(low) as usize + 1
            }
        }
        TagType::RTrig => field_count(BlockKind::RTrig),
        TagType::FTrig => field_count(BlockKind::FTrig),
        TagType::Sr => field_count(BlockKind::Sr),
        TagType::Rs => field_count(BlockKind::Rs),
        TagType::Ctu => field_count(BlockKind::Ctu),
        TagType::Ctd => field_count(BlockKind::Ctd),
        TagType::Ton => field_count(BlockKind::Ton),
        TagType::Tof => field_count(BlockKind::Tof),
        TagType::Tp => field_count(BlockKind::Tp),
    }
}
