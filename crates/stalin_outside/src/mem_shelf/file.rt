ghost use Rattle.std.specs.Prelude.{◌≡◌, ◌++◌, ◌-◌, [], length, min, take, IfOk};
ghost use Rattle.stalin_outside.specs.Stored.{is_named, emptied, grown};

use scheme_base::Bytes;
use std::alloc::{AllocError, Global};
use std::marker::Model;

/// A file in memory, whose room is taken when it is made.
#[derive(Drop)]
pub struct MemFile {
    name: Bytes,
    bytes: Vec<u8>,
    room: usize,
}

impl Model for MemFile {
    ghost use Rattle.std.specs.Prelude.{◌≤◌, vec_capacity};
    ghost use Rattle.stalin_outside.specs.Stored.{Stored};

    ghost Value = { Stored };

    ghost view = { λ file. record { name = file.name; bytes = file.bytes.items; room = file.room } };

    ghost invariant = { λ file. file.room ≤ vec_capacity file.bytes };
}

impl MemFile {
    pub fn new(alloc: Global, name: &[u8], bytes: &[u8], room: usize) -> Result<MemFile, AllocError>
        ensures { IfOk result (λ file. file ≡ record { name = name.now; bytes = bytes.now; room = room }) }
    {
        let name = Bytes::from_slice(alloc, name)?;
        let mut content = Vec::with_capacity(alloc, room)?;
        content.extend_from_slice(bytes)?;
        Ok(MemFile {
            name,
            bytes: content,
            room,
        })
    }

    pub fn is_named(&self, name: &[u8]) -> bool
        ensures { result ≡ is_named name.now self.now }
    {
        self.name.as_slice() == name
    }

    pub fn bytes(&self) -> &[u8]
        ensures { result.now ≡ self.now.bytes }
    {
        &self.bytes
    }

    pub fn empty(&mut self)
        ensures { self.new ≡ emptied self.old }
    {
        self.bytes.clear();
    }

    /// Puts as many bytes from the front of `piece` at the end as there is room for, and tells how many.
    pub fn append(&mut self, piece: &[u8]) -> usize
        ensures count { result ≡ min (self.old.room - length self.old.bytes) (length piece.now) }
        ensures bytes { self.new ≡ grown (take result piece.now) self.old }
    {
        let count = piece.len().min(self.room.saturating_sub(self.bytes.len()));
        match self.bytes.extend_from_slice(&piece[..count]) {
            Ok(()) => count,
            // the room is there
            Err(_) => 0,
        }
    }
}
