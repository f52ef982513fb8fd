ghost use Rattle.std.specs.Prelude.{◌≡◌, slice_get};
ghost use Rattle.std.specs.Option.{option_map};
ghost use Rattle.function_blocks.specs.Fields.{fields_of, shown, field, trigger_fields, bistable_fields, counter_fields, timer_fields, field_count, input_named, output_named};

use crate::blocks::BlockKind;
use crate::kinds::Kind;

/// What a program may do with a field of a block.
#[derive(Clone, Copy, Debug, PartialEq, Eq)]
pub enum Role {
    /// Set it in a call.
    Input,
    /// Read it.
    Output,
    /// Nothing: the field is the block's own.
    Hidden,
}

/// A field of a block, which takes one word.
#[derive(Clone, Copy, Debug, PartialEq, Eq)]
pub struct BlockField {
    /// Its name in capitals.
    pub name: &'static [u8],
    /// What a program may do with it.
    pub role: Role,
    /// Its type.
    pub kind: Kind,
    /// The value that it starts with.
    pub first: i64,
}

/// The field of a block at a place from 0, in the order of the block's words: inputs, outputs,
/// hidden fields. None behind the last field.
pub fn field_at(block: BlockKind, place: usize) -> Option<BlockField>
    ensures { option_map shown result ≡ slice_get (fields_of block) place }
{
    match block {
        BlockKind::RTrig => trigger_field(place, 0),
        BlockKind::FTrig => trigger_field(place, 1),
        BlockKind::Sr => bistable_field(place, b"S1", b"R"),
        BlockKind::Rs => bistable_field(place, b"S", b"R1"),
        BlockKind::Ctu => counter_field(place, b"CU", b"R"),
        BlockKind::Ctd => counter_field(place, b"CD", b"LD"),
        BlockKind::Ton | BlockKind::Tof | BlockKind::Tp => timer_field(place),
    }
}

// A field that starts at 0.
fn field(name: &'static [u8], role: Role, kind: Kind) -> BlockField
    ensures { shown result ≡ field name.now role kind }
{
    BlockField {
        name,
        role,
        kind,
        first: 0,
    }
}

// A field of R_TRIG or F_TRIG.
fn trigger_field(place: usize, memory: i64) -> Option<BlockField>
    ensures { option_map shown result ≡ slice_get (trigger_fields memory) place }
{
    match place {
        0 => Some(field(b"CLK", Role::Input, Kind::Bool)),
        1 => Some(field(b"Q", Role::Output, Kind::Bool)),
        2 => Some(BlockField {
            first: memory,
            ..field(b"M", Role::Hidden, Kind::Bool)
        }),
        _ => None,
    }
}

// A field of SR or RS.
fn bistable_field(place: usize, set: &'static [u8], reset: &'static [u8]) -> Option<BlockField>
    ensures { option_map shown result ≡ slice_get (bistable_fields set.now reset.now) place }
{
    match place {
        0 => Some(field(set, Role::Input, Kind::Bool)),
        1 => Some(field(reset, Role::Input, Kind::Bool)),
        2 => Some(field(b"Q1", Role::Output, Kind::Bool)),
        _ => None,
    }
}

// A field of CTU or CTD.
fn counter_field(place: usize, count: &'static [u8], reset: &'static [u8]) -> Option<BlockField>
    ensures { option_map shown result ≡ slice_get (counter_fields count.now reset.now) place }
{
    match place {
        0 => Some(field(count, Role::Input, Kind::Bool)),
        1 => Some(field(reset, Role::Input, Kind::Bool)),
        2 => Some(field(b"PV", Role::Input, Kind::Int)),
        3 => Some(field(b"Q", Role::Output, Kind::Bool)),
        4 => Some(field(b"CV", Role::Output, Kind::Int)),
        5 => Some(field(b"M", Role::Hidden, Kind::Bool)),
        _ => None,
    }
}

// A field of TON, TOF or TP.
fn timer_field(place: usize) -> Option<BlockField>
    ensures { option_map shown result ≡ slice_get timer_fields place }
{
    match place {
        0 => Some(field(b"IN", Role::Input, Kind::Bool)),
        1 => Some(field(b"PT", Role::Input, Kind::Dint)),
        2 => Some(field(b"Q", Role::Output, Kind::Bool)),
        3 => Some(field(b"ET", Role::Output, Kind::Dint)),
        4 => Some(field(b"M", Role::Hidden, Kind::Bool)),
        _ => None,
    }
}

/// How many fields a block has, which is how many words it takes.
pub fn field_count(block: BlockKind) -> usize
    ensures { result ≡ field_count block }
{
    match block {
        BlockKind::RTrig | BlockKind::FTrig | BlockKind::Sr | BlockKind::Rs => 3,
        BlockKind::Ctu | BlockKind::Ctd => 6,
        BlockKind::Ton | BlockKind::Tof | BlockKind::Tp => 5,
    }
}

/// The type of the input of that name, in capitals; None where the block has no such input.
pub fn input_named(block: BlockKind, name: &[u8]) -> Option<Kind>
    ensures { result ≡ input_named block name.now }
{
    match (block, name) {
        (BlockKind::RTrig | BlockKind::FTrig, b"CLK") => Some(Kind::Bool),
        (BlockKind::Sr, b"S1" | b"R") | (BlockKind::Rs, b"S" | b"R1") => Some(Kind::Bool),
        (BlockKind::Ctu, b"CU" | b"R") | (BlockKind::Ctd, b"CD" | b"LD") => Some(Kind::Bool),
        (BlockKind::Ctu | BlockKind::Ctd, b"PV") => Some(Kind::Int),
        (BlockKind::Ton | BlockKind::Tof | BlockKind::Tp, b"IN") => Some(Kind::Bool),
        (BlockKind::Ton | BlockKind::Tof | BlockKind::Tp, b"PT") => Some(Kind::Dint),
        _ => None,
    }
}

/// The type of the output of that name, in capitals; None where the block has no such output.
pub fn output_named(block: BlockKind, name: &[u8]) -> Option<Kind>
    ensures { result ≡ output_named block name.now }
{
    match (block, name) {
        (BlockKind::RTrig | BlockKind::FTrig, b"Q") => Some(Kind::Bool),
        (BlockKind::Sr | BlockKind::Rs, b"Q1") => Some(Kind::Bool),
        (BlockKind::Ctu | BlockKind::Ctd, b"Q") => Some(Kind::Bool),
        (BlockKind::Ctu | BlockKind::Ctd, b"CV") => Some(Kind::Int),
        (BlockKind::Ton | BlockKind::Tof | BlockKind::Tp, b"Q") => Some(Kind::Bool),
        (BlockKind::Ton | BlockKind::Tof | BlockKind::Tp, b"ET") => Some(Kind::Dint),
        _ => None,
    }
}
