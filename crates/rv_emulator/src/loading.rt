//! How a machine is made of an image.
ghost use Rattle.std.specs.Prelude.{◌≡◌, ◌∷◌, [], ◌++◌, ◌+◌, ◌*◌, ◌<◌, ◌≤◌, ◌^◌, ℕ, IfOk, IfSome, None, OnOk, map, true, false, length, Some};
ghost use Rattle.std.specs.List.{flat_map};
ghost use Rattle.rv_emulator.specs.Memory.{flags_in, has_flag};
ghost use Rattle.rv_emulator.specs.Loading.{AreFit, IsLoadable, LaysOut, Rise, bytes_in, ordered, region_of};
ghost use Rattle.rv_emulator.specs.States.{IsCached, StaysAt};

use crate::memory::Memory;
use crate::region::{Region, WRITES};
use rv_form::Segment;
use rv_words::Decoded;
use std::alloc::{AllocError, Global};

/// So many words of code at most are read once; further ones are read each time.
const MOST: u64 = 0x100_0000;

/// Words of code that are read once, since nothing can write over them, from `base` on.
#[derive(Drop)]
pub struct Code {
    pub base: u64,
    pub words: Vec<Decoded>,
}

/// The memory that segments load. Where they rise, the last one's comes first: memory is looked through in this
/// order, and data and heap stand last.
pub fn lay(alloc: Global, segments: &[Segment]) -> Result<Memory, AllocError>
    requires { IsLoadable segments.now }
    ensures { IfOk result (λ memory. LaysOut segments.now memory) }
{
    lay_in_order(alloc, segments, rise(segments))
}

/// The memory that segments load, from the first or from the last one on.
fn lay_in_order(alloc: Global, segments: &[Segment], backwards: bool) -> Result<Memory, AllocError>
    requires { IsLoadable (ordered backwards segments.now) }
    ensures regions { IfOk result (λ memory. memory.regions ≡ map region_of (ordered backwards segments.now)) }
    ensures bytes { IfOk result (λ memory. memory.bytes ≡ flat_map bytes_in (ordered backwards segments.now)) }
{
    let mut regions = Vec::new(alloc);
    let mut bytes = Vec::new(alloc);
    let mut rest = segments;
    while let Some((segment, others)) = next(rest, backwards) {
        regions.push(Region {
            start: segment.vaddr,
            size: segment.memsz,
            flags: segment.flags,
        })?;
        push_bytes(&mut bytes, segment)?;
        rest = others;
    }
    Ok(Memory::new(regions, bytes))
}

/// The first or the last segment, and the others.
fn next(rest: &[Segment], backwards: bool) -> Option<(&Segment, &[Segment])>
    ensures some { IfSome result (λ pair. (ordered backwards rest.now ≡ pair.0.now ∷ ordered backwards pair.1.now) × (length pair.1.now < length rest.now)) }
    ensures none { result ≡ None → ordered backwards rest.now ≡ [] }
{
    if backwards {
        rest.split_last()
    } else {
        rest.split_first()
    }
}

/// Whether each segment begins where the ones before it have ended, or above.
fn rise(segments: &[Segment]) -> bool
    requires { AreFit segments.now }
    ensures { result ≡ true → Rise 0 segments.now }
{
    let mut rest = segments;
    let mut end: u64 = 0;
    while let Some((segment, others)) = rest.split_first() {
        if segment.vaddr < end {
            return false;
        }
        end = segment.vaddr + segment.memsz;
        rest = others;
    }
    true
}

/// Puts the bytes of a segment at the end, and then zeros.
fn push_bytes(bytes: &mut Vec<u8>, segment: &Segment) -> Result<(), AllocError>
    requires fits { length segment.now.bytes ≤ segment.now.memsz }
    requires room { length bytes.old.items + segment.now.memsz < 2 ^ 63 }
    ensures ok { OnOk result (bytes.new.items ≡ bytes.old.items ++ bytes_in segment.now) }
    ensures size { OnOk result (length bytes.new.items ≡ length bytes.old.items + segment.now.memsz) }
{
    let end = bytes.len() + segment.memsz as usize;
    bytes.extend_from_slice(segment.bytes.as_slice())?;
    bytes.resize(end, 0)?;
    Ok(())
}

/// Reads the code of the region that has the entry, up to the first place with none or that may be written.
pub fn read_code(alloc: Global, memory: &Memory, entry: u64) -> Result<Code, AllocError>
    ensures { IfOk result (λ code. IsCached memory.now code.base code.words.items) }
{
    let (base, count) = code_place(memory.regions(), entry);
    let mut words = Vec::new(alloc);
    for at in 0..count {
        match lasting(memory, base + 4 * at) {
            Some(word) => words.push(word)?,
            None => return Ok(Code { base, words }),
        }
    }
    Ok(Code { base, words })
}

/// Where the region begins that has the entry, and how many words of it are read once.
fn code_place(regions: &[Region], entry: u64) -> (u64, u64)
    ensures { (result.0 ≤ 2 ^ 63) × (result.1 ≤ 2 ^ 32) }
{
    for region in regions {
        if region.start <= entry
            && entry - region.start < region.size
            && region.start < 0x8000_0000_0000
        {
            return (region.start, (region.size / 4).min(MOST));
        }
    }
    (0, 0)
}

/// The word of code at a place, where it stays there.
fn lasting(memory: &Memory, pc: u64) -> Option<Decoded>
    ensures { (word : Decoded) → result ≡ Some word → StaysAt memory.now pc word }
{
    match memory.fetch(pc) {
        Some(word) if is_fixed(memory, pc) => Some(word),
        _ => None,
    }
}

/// Whether none of the four bytes of a word may be written.
fn is_fixed(memory: &Memory, pc: u64) -> bool
    requires { pc < 2 ^ 47 }
    ensures { result ≡ true → (i : ℕ) → i < 4 → has_flag (flags_in memory.now.regions (pc + i)) 2 ≡ false }
{
    for i in 0..4 {
        if memory.may(WRITES, 1, pc + i) {
            return false;
        }
    }
    true
}
