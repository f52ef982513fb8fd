//! The fields of function blocks.

ghost use Rattle.std.specs.Prelude.{◌≡◌, ◌<◌, slice_get};
ghost use Rattle.function_blocks.specs.Fields.{fields_of};
ghost use Rattle.st_core.specs.Core as core;
ghost use Rattle.st_meaning.specs.Types as meaning;
ghost use Rattle.st_meaning.specs.Types.{type_of};
ghost use Rattle.scan_code.specs.Inner.Emits.{EmitsTerm};
ghost use Rattle.scan_code.specs.Inner.Found.{typed_field};

use crate::code::put;
use crate::found::{block_of, find};
use function_blocks::{BlockKind, Kind, field_at, field_count};
use scan_machine::Instr;
use tag_layout::Layout;
use tri_base::{Name, NoMemory};

/// A field that was looked for: its place among the block's fields, and its type.
#[derive(Clone, Copy)]
pub(crate) struct FoundField {
    pub place: usize,
    pub of: Kind,
}

// The type of the field at a place, where it has this name.
fn type_at(block: BlockKind, place: usize, name: &[u8]) -> Option<Kind>
    ensures { result ≡ typed_field (slice_get (fields_of block) place) name.now }
{
    match field_at(block, place) {
        Some(field) => {
            if name == field.name {
                Some(field.kind)
            } else {
                None
            }
        }
        None => None,
    }
}

/// The field of a name. A name without a field, which no well-typed program has, is a DINT in
/// place 0.
pub(crate) fn find_field(block: BlockKind, name: Name) -> FoundField
    ensures place { result.place ≡ meaning.field_place block name }
    ensures kind { result.of ≡ meaning.field_type block name }
    ensures few { result.place < 6 }
{
    for place in 0..field_count(block) {
        if let Some(of) = type_at(block, place, name.bytes()) {
            return FoundField { place, of };
        }
    }
    FoundField {
        place: 0,
        of: Kind::Dint,
    }
}

/// The type of a block's field, where the block's tag has this name.
pub(crate) fn field_type_named(layout: &Layout, block: Name, field: Name) -> Kind
    ensures { let b = meaning.block_of (type_of layout.now block) in
        result ≡ meaning.field_type b field }
{
    find_field(block_of(find(layout, block).of), field).of
}

/// Pushes a block's field.
pub(crate) fn emit_field(
    code: &mut Vec<Instr>,
    layout: &Layout,
    block: Name,
    field: Name,
) -> Result<(), NoMemory>
    ensures { let b = meaning.block_of (type_of layout.now block) in
        EmitsTerm result layout.now code.old.items code.new.items
        (core.Field block (meaning.field_place b field) (meaning.field_type b field)) }
{
    let tag = find(layout, block);
    let found = find_field(block_of(tag.of), field);
    put(code, Instr::Load(tag.address + found.place, found.of))
}
