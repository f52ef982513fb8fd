//! What names stand for.

ghost use Rattle.std.specs.Prelude.{◌≡◌, ◌≤◌};
ghost use Rattle.tri_base.specs.Limits.{word_limit};
ghost use Rattle.scan_machine.specs.declared.instructions.Instr.TheVariants as i;
ghost use Rattle.st_meaning.specs.Types as meaning;
ghost use Rattle.scan_code.specs.Inner.Found as spec;
ghost use Rattle.scan_code.specs.Inner.Found.{IsFound};

use function_blocks::{BlockKind, Kind};
use scan_machine::Instr;
use st_tree::TagType;
use tag_layout::Layout;
use tri_base::Name;

/// A tag that was looked for: its type, and its first word.
#[derive(Clone, Copy)]
pub(crate) struct Found {
    pub of: TagType,
    pub address: usize,
}

/// The tag of a name. A name without a tag, which no well-typed program has, is a DINT behind all
/// words.
pub(crate) fn find(layout: &Layout, name: Name) -> Found
    ensures found { IsFound layout.now name result }
    ensures within { result.address ≤ word_limit }
{
    match layout.find(&name) {
        Some(tag) => Found {
            of: tag.of,
            address: tag.address,
        },
        None => Found {
            of: TagType::Dint,
            address: layout.words(),
        },
    }
}

/// The type of a tag of one word.
pub(crate) fn word_type(of: TagType) -> Kind
    ensures { result ≡ spec.word_type_of of }
{
    match of {
        TagType::Bool => Kind::Bool,
        TagType::Int => Kind::Int,
        _ => Kind::Dint,
    }
}

/// The type of an array's elements.
pub(crate) fn element_type(of: TagType) -> Kind
    ensures { result ≡ spec.element_type_of of }
{
    match of {
        TagType::Array { element, .. } => element,
        _ => Kind::Dint,
    }
}

/// The block that a tag is an instance of.
pub(crate) fn block_of(of: TagType) -> BlockKind
    ensures { result ≡ spec.block_of_tag of }
{
    match of {
        TagType::FTrig => BlockKind::FTrig,
        TagType::Sr => BlockKind::Sr,
        TagType::Rs => BlockKind::Rs,
        TagType::Ctu => BlockKind::Ctu,
        TagType::Ctd => BlockKind::Ctd,
        TagType::Ton => BlockKind::Ton,
        TagType::Tof => BlockKind::Tof,
        TagType::Tp => BlockKind::Tp,
        _ => BlockKind::RTrig,
    }
}

/// Pushes a tag of one word.
pub(crate) fn load(tag: Found) -> Instr
    ensures { result ≡ i.Load tag.address (spec.word_type_of tag.of) }
{
    Instr::Load(tag.address, word_type(tag.of))
}

/// Pops into a tag of one word.
pub(crate) fn store(tag: Found) -> Instr
    ensures { result ≡ i.Store tag.address (spec.word_type_of tag.of) }
{
    Instr::Store(tag.address, word_type(tag.of))
}

// The lower bound of an array.
fn low_of(of: TagType) -> i64
    ensures { result ≡ spec.low_of of }
{
    match of {
        TagType::Array { low, .. } => low,
        _ => 0,
    }
}

// The upper bound of an array.
fn high_of(of: TagType) -> i64
    ensures { result ≡ spec.high_of of }
{
    match of {
        TagType::Array { high, .. } => high,
        _ => 0,
    }
}

/// Pushes an element of an array.
pub(crate) fn load_at(tag: Found) -> Instr
    ensures { result ≡ spec.load_at tag }
{
    Instr::LoadAt {
        address: tag.address,
        kind: element_type(tag.of),
        low: low_of(tag.of),
        high: high_of(tag.of),
    }
}

/// Pops into an element of an array.
pub(crate) fn store_at(tag: Found) -> Instr
    ensures { result ≡ spec.store_at tag }
{
    Instr::StoreAt {
        address: tag.address,
        kind: element_type(tag.of),
        low: low_of(tag.of),
        high: high_of(tag.of),
    }
}

/// Steps a block.
pub(crate) fn call(tag: Found) -> Instr
    ensures { result ≡ i.Call (spec.block_of_tag tag.of) tag.address }
{
    Instr::Call(block_of(tag.of), tag.address)
}

/// The type of the tag of one word that has this name.
pub(crate) fn word_type_named(layout: &Layout, name: Name) -> Kind
    ensures { result ≡ meaning.word_type (meaning.type_of layout.now name) }
{
    word_type(find(layout, name).of)
}

/// The type of the elements of the array that has this name.
pub(crate) fn element_type_named(layout: &Layout, name: Name) -> Kind
    ensures { result ≡ meaning.element_type (meaning.type_of layout.now name) }
{
    element_type(find(layout, name).of)
}
