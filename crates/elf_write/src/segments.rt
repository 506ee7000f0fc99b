ghost use Rattle.std.specs.Prelude.{◌≡◌, ◌++◌, ◌^◌, ◌≤◌, ◌↔◌, [], IsTrue, OnOk, length};
ghost use Rattle.elf_write.specs.Valid.{memory_size, IsEntry};
ghost use Rattle.elf_write.specs.Reading.{IsLoadable, IsTaken, segments_of, top};
ghost use Rattle.rv_form.specs.Image.{flags_at};

use crate::ProgramHeader;
use rv_form::{Segment, Segments};
use scheme_base::{Bytes, List};
use std::alloc::{AllocError, Global};

/// The type of a program header whose segment is loaded.
const LOADED: u32 = 1;

/// The types of those that want a dynamic linker, or name one.
const DYNAMIC: u32 = 2;

const INTERPRETER: u32 = 3;

/// The most memory that an image may take.
const MOST_MEMORY: u64 = 0x8000_0000;

/// The end of the addresses that a segment may have.
const TOP: u64 = 0x8000_0000_0000;

/// The segments of the program headers so far, the greatest of their ends and the memory that they take.
#[derive(Debug, Drop)]
pub(crate) struct Loaded {
    pub segments: Segments,
    end: u64,
    size: u64,
    ghost ends: { end ≡ top segments },
    ghost sized: { size ≡ memory_size segments },
    ghost small: { size ≤ 2 ^ 31 },
}

impl Loaded {
    pub fn new(alloc: Global) -> Loaded
        ensures { result.segments ≡ [] }
    {
        Loaded {
            segments: List::new(alloc),
            end: 0,
            size: 0,
        }
    }

    /// Whether a program header of a file of `size` bytes may be taken after these.
    pub fn takes(&self, size: usize, header: &ProgramHeader) -> bool
        ensures { IsTrue result ↔ IsTaken size self.now.segments header.now }
    {
        match header.kind {
            LOADED => self.has_room(size as u64, header),
            DYNAMIC | INTERPRETER => false,
            _ => true,
        }
    }

    /// Whether the segment of a program header may be loaded after these.
    fn has_room(&self, size: u64, header: &ProgramHeader) -> bool
        ensures { IsTrue result ↔ IsLoadable size self.now.segments header.now }
    {
        header.flags <= 7
            && header.filesz <= header.memsz
            && header.filesz <= size
            && header.offset <= size - header.filesz
            && header.memsz <= MOST_MEMORY - self.size
            && header.vaddr >= self.end
            && header.vaddr <= TOP - header.memsz
    }

    /// Adds the segment of a program header, where it is one that is loaded.
    pub fn add(
        &mut self,
        alloc: Global,
        bytes: &[u8],
        header: &ProgramHeader,
    ) -> Result<(), AllocError>
        requires { IsTaken (length bytes.now) self.old.segments header.now }
        ensures { OnOk result (self.new.segments ≡ self.old.segments ++ segments_of bytes.now header.now) }
    {
        if header.kind != LOADED {
            return Ok(());
        }
        let from = header.offset as usize;
        let to = from + header.filesz as usize;
        let segment = Segment {
            vaddr: header.vaddr,
            memsz: header.memsz,
            flags: header.flags,
            bytes: Bytes::from_slice(alloc, &bytes[from..to])?,
        };
        self.segments.push(segment)?;
        self.end = header.vaddr + header.memsz;
        self.size += header.memsz;
        Ok(())
    }
}

/// Whether the instruction at an address may be an image's first one.
pub(crate) fn is_entry(segments: &[Segment], entry: u64) -> bool
    ensures { IsTrue result ↔ IsEntry segments.now entry }
{
    entry % 4 == 0 && flags_of(segments, entry) % 2 == 1
}

/// The flags of the segment that has an address, or 0 where none has it.
fn flags_of(segments: &[Segment], address: u64) -> u32
    ensures { result ≡ flags_at segments.now address }
{
    for segment in segments {
        if segment.vaddr <= address && address - segment.vaddr < segment.memsz {
            return segment.flags;
        }
    }
    0
}
