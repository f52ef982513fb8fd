ghost use Rattle.std.specs.Prelude.{◌≡◌, ◌≤◌, ◌+◌, [], ◌++◌, length, IsOk, OnOk, OnErr, IfOk};
ghost use Rattle.tri_base.specs.Rows.{KeepsRoom};

use crate::memory::NoMemory;
use std::alloc::Global;
use std::marker::Model;

/// Bytes in a row, with room that is kept for more.
#[derive(Drop)]
pub struct Text {
    bytes: Vec<u8>,
    room: usize,
}

impl Model for Text {
    ghost use Rattle.std.specs.Prelude.{◌+◌, ◌≤◌, vec_len, vec_capacity};
    ghost use Rattle.tri_base.specs.Rows.{TextValue};

    ghost Value = { TextValue };

    ghost view = { λ t. record { list = t.bytes.items; spare = t.room } };

    ghost invariant = { λ t. vec_len t.bytes + t.room ≤ vec_capacity t.bytes };
}

impl Text {
    /// No bytes. It takes no memory, and keeps the allocator for later.
    pub fn new(alloc: Global) -> Text
        ensures { result.list ≡ [] }
    {
        Text {
            bytes: Vec::new(alloc),
            room: 0,
        }
    }

    /// How many bytes there are.
    pub fn len(&self) -> usize
        ensures { result ≡ length self.now.list }
    {
        self.bytes.len()
    }

    /// Lends the bytes.
    pub fn bytes(&self) -> &[u8]
        ensures { result.now ≡ self.now.list }
    {
        self.bytes.as_slice()
    }

    /// Keeps room for at least so many more bytes.
    pub fn reserve(&mut self, room: usize) -> Result<(), NoMemory>
        ensures room { OnOk result (room ≤ self.new.spare) }
        ensures kept { self.old.spare ≤ self.new.spare }
        ensures list { self.new.list ≡ self.old.list }
        ensures refused { OnErr result (self.new ≡ self.old) }
    {
        self.bytes.reserve(room).map_err(|_| NoMemory)?;
        self.room = self.room.max(room);
        Ok(())
    }

    /// Takes all bytes out. Their room is kept.
    pub fn clear(&mut self)
        ensures list { self.new.list ≡ [] }
        ensures room { self.new.spare ≡ self.old.spare + length self.old.list }
    {
        self.room += self.bytes.len();
        self.bytes.clear();
    }

    /// The same bytes again.
    pub fn copy(&self, alloc: Global) -> Result<Text, NoMemory>
        ensures { IfOk result (λ t. t.list ≡ self.now.list) }
    {
        let bytes = Vec::from_slice(alloc, self.bytes.as_slice()).map_err(|_| NoMemory)?;
        Ok(Text { bytes, room: 0 })
    }
}

/// Adds bytes at the end, all or none, and takes memory for them where no room is kept.
pub fn push_bytes(text: &mut Text, bytes: &[u8]) -> Result<(), NoMemory>
    ensures list { OnOk result (text.new.list ≡ text.old.list ++ bytes.now) }
    ensures room { KeepsRoom text.old text.new }
    ensures room_serves { length bytes.now ≤ text.old.spare → IsOk result }
    ensures refused { OnErr result (text.new ≡ text.old) }
{
    text.bytes.extend_from_slice(bytes).map_err(|_| NoMemory)?;
    text.room = text.room.saturating_sub(bytes.len());
    Ok(())
}
