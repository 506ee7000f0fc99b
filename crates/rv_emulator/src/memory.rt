//! The memory: loads, stores and the fetching of instructions.
ghost use Rattle.std.specs.Prelude.{◌≡◌, ◌+◌, ◌<◌, ◌≤◌, ◌^◌, ℕ, IfSome, length, slice_index, false, true, Some};
ghost use Rattle.std.specs.Bool.{OnTrue};
ghost use Rattle.rv_form.specs.Instruction.{instruction_of};
ghost use Rattle.rv_form.specs.Machine.{fetch as fetched_in, found, load as load_in, store as store_in};
ghost use Rattle.rv_emulator.specs.Memory.{Contents, IsFront, Laid, all_flagged, cells, flags_in, has_flag, loaded_by, memory_of};
ghost use Rattle.rv_words.specs.Widths.{bytes_of};
ghost use Rattle.rv_words.specs.Packed.{IsReady, fetched_of, seen_as};
ghost use Rattle.rv_emulator.specs.States.{Kept, no_env, world_with};

use crate::region::{EXECUTES, Place, READS, Region, WRITES, find, is_set};
use rv_encode::{decode, decoded_is_encoded};
use rv_words::operation::sub;
use rv_words::{Decoded, Op, Width, pack, word_of};
use std::marker::Model;

/// The regions, and the bytes of all of them, one region's after another's. Contracts see both lists.
#[derive(Drop)]
pub struct Memory {
    // the address of the first bytes, and how many of them a load or a store may begin at with no other test
    start: u64,
    room: u64,
    regions: Vec<Region>,
    bytes: Vec<u8>,
}

impl Model for Memory {
    ghost Value = { Contents };

    ghost view = { λ memory. record { regions = memory.regions.items; bytes = memory.bytes.items } };

    ghost invariant = { λ memory. Laid memory.regions.items memory.bytes.items
        × IsFront memory.regions.items memory.start memory.room };
}

impl Memory {
    pub fn new(regions: Vec<Region>, bytes: Vec<u8>) -> Memory
        requires { Laid regions.items bytes.items }
        ensures { result ≡ record { regions = regions.items; bytes = bytes.items } }
    {
        let (start, room) = front(&regions);
        Memory {
            start,
            room,
            regions,
            bytes,
        }
    }

    pub fn regions(&self) -> &[Region]
        ensures { result.now ≡ self.now.regions }
    {
        &self.regions
    }

    /// The word of code at a place, or `None` where that is no multiple of 4 or its bytes may not be executed.
    #[inline(never)]
    pub fn fetch(&self, pc: u64) -> Option<Decoded>
        ensures value { fetched_in (world_with self.now.regions no_env) (cells self.now) pc ≡ seen_as result }
        ensures ready { (word : Decoded) → result ≡ Some word → IsReady word × (pc < 2 ^ 47) }
    {
        fetch(&self.regions, &self.bytes, pc)
    }

    /// The number that the bytes at an address hold, where each may be read.
    #[inline(always)]
    pub fn read(&self, width: Width, a: u64) -> Option<u64>
        ensures value { result ≡ loaded_by self.now.regions self.now.bytes 4 (bytes_of width) a }
        ensures below { IfSome result (λ value. value < 256 ^ bytes_of width) }
    {
        read(self.start, self.room, &self.regions, &self.bytes, width, a)
    }

    /// Whether so many bytes from an address on have a flag.
    pub fn may(&self, flag: u32, count: u64, a: u64) -> bool
        requires { 0 < flag }
        ensures { result ≡ all_flagged self.now.regions flag count a }
    {
        may(&self.regions, &self.bytes, flag, count, a)
    }

    /// Stores the lowest bytes of a number where each may be written, else none, and tells which it was.
    #[inline(always)]
    pub fn store(&mut self, width: Width, a: u64, value: u64) -> bool
        ensures answer { result ≡ all_flagged self.old.regions 2 (bytes_of width) a }
        ensures stored { OnTrue result (cells self.new ≡ store_in (bytes_of width) (cells self.old) a value) }
        ensures refused { result ≡ false → cells self.new ≡ cells self.old }
        ensures kept { Kept self.old self.new }
    {
        store(
            self.start,
            self.room,
            &self.regions,
            &mut self.bytes,
            width,
            a,
            value,
        )
    }
}

/// Where the first bytes stand, and at how many of them any access may begin.
#[tactic(auto, using(crate::proofs::AtTheFront::no_front))]
fn front(regions: &[Region]) -> (u64, u64)
    ensures { IsFront regions.now result.0 result.1 }
{
    match regions.split_first() {
        Some((region, _))
            if is_set(region.flags, READS) && is_set(region.flags, WRITES) && region.size > 7 => {
            (region.start, region.size - 7)
        }
        _ => (0, 0),
    }
}

fn fetch(regions: &[Region], bytes: &[u8], pc: u64) -> Option<Decoded>
    requires { Laid regions.now bytes.now }
    ensures value { fetched_in (world_with regions.now no_env) (memory_of regions.now bytes.now) pc ≡ seen_as result }
    ensures ready { (word : Decoded) → result ≡ Some word → IsReady word × (pc < 2 ^ 47) }
{
    if pc % 4 != 0 {
        return None;
    }
    match load(regions, bytes, EXECUTES, Width::Word, pc) {
        None => None,
        Some(number) => Some(decoded(number as u32)),
    }
}

/// A word of code, decoded.
fn decoded(number: u32) -> Decoded
    ensures fetched { fetched_of result ≡ found (instruction_of number) }
    ensures ready { IsReady result }
{
    match decode(number) {
        None => pack(Op::NoWord, 0, 0, 0, 0),
        Some(instr) => {
            decoded_is_encoded(number, instr);
            word_of(instr)
        }
    }
}

#[inline(always)]
fn read(
    start: u64,
    room: u64,
    regions: &[Region],
    bytes: &[u8],
    width: Width,
    a: u64,
) -> Option<u64>
    requires laid { Laid regions.now bytes.now }
    requires front { IsFront regions.now start room }
    ensures value { result ≡ loaded_by regions.now bytes.now 4 (bytes_of width) a }
    ensures below { IfSome result (λ value. value < 256 ^ bytes_of width) }
{
    let at = sub(a, start);
    if at < room {
        Some(word_at(bytes, at as usize, width))
    } else {
        read_found(regions, bytes, width, a)
    }
}

/// The same, with a look at the regions.
#[inline(never)]
fn read_found(regions: &[Region], bytes: &[u8], width: Width, a: u64) -> Option<u64>
    requires { Laid regions.now bytes.now }
    ensures value { result ≡ loaded_by regions.now bytes.now 4 (bytes_of width) a }
    ensures below { IfSome result (λ value. value < 256 ^ bytes_of width) }
{
    load(regions, bytes, READS, width, a)
}

/// The number that the bytes at an address hold, where each has the flag.
#[inline(always)]
fn load(regions: &[Region], bytes: &[u8], flag: u32, width: Width, a: u64) -> Option<u64>
    requires laid { Laid regions.now bytes.now }
    requires flag { 0 < flag }
    ensures value { result ≡ loaded_by regions.now bytes.now flag (bytes_of width) a }
    ensures below { IfSome result (λ value. value < 256 ^ bytes_of width) }
{
    match find(regions, a, width.count()) {
        Place::Whole { at, flags } => {
            if is_set(flags, flag) {
                Some(word_at(bytes, at, width))
            } else {
                None
            }
        }
        Place::Apart => load_apart(regions, bytes, flag, width.count(), a),
    }
}

/// The same byte by byte, of up to eight bytes.
#[inline(never)]
fn load_apart(regions: &[Region], bytes: &[u8], flag: u32, count: u64, a: u64) -> Option<u64>
    requires laid { Laid regions.now bytes.now }
    requires flag { 0 < flag }
    requires count { count ≤ 8 }
    ensures value { result ≡ loaded_by regions.now bytes.now flag count a }
    ensures below { IfSome result (λ value. value < 256 ^ count) }
{
    if count == 0 {
        return Some(0);
    }
    match find(regions, a, 1) {
        Place::Whole { at, flags } => {
            if !is_set(flags, flag) {
                return None;
            }
            let rest = load_apart(regions, bytes, flag, count - 1, a + 1)?;
            Some(u64::from(bytes[at]) + 256 * rest)
        }
        Place::Apart => None,
    }
}

/// The number that the bytes from a place on hold.
#[inline(always)]
fn word_at(bytes: &[u8], at: usize, width: Width) -> u64
    requires { at + bytes_of width ≤ length bytes.now }
    ensures value { result ≡ load_in (bytes_of width) (λ k. slice_index bytes.now k) at }
    ensures below { result < 256 ^ bytes_of width }
{
    match width {
        Width::Byte => u64::from(bytes[at]),
        Width::Half => u64::from(u16::from_le_bytes([bytes[at], bytes[at + 1]])),
        Width::Word => u64::from(u32::from_le_bytes([
            bytes[at],
            bytes[at + 1],
            bytes[at + 2],
            bytes[at + 3],
        ])),
        Width::Double => u64::from_le_bytes([
            bytes[at],
            bytes[at + 1],
            bytes[at + 2],
            bytes[at + 3],
            bytes[at + 4],
            bytes[at + 5],
            bytes[at + 6],
            bytes[at + 7],
        ]),
    }
}

#[inline(never)]
fn may(regions: &[Region], bytes: &[u8], flag: u32, count: u64, a: u64) -> bool
    requires laid { Laid regions.now bytes.now }
    requires flag { 0 < flag }
    ensures { result ≡ all_flagged regions.now flag count a }
{
    if count == 0 {
        return true;
    }
    match find(regions, a, 1) {
        Place::Whole { at, flags } => {
            let _ = at;
            is_set(flags, flag) && may(regions, bytes, flag, count - 1, a + 1)
        }
        Place::Apart => false,
    }
}

#[inline(always)]
fn store(
    start: u64,
    room: u64,
    regions: &[Region],
    bytes: &mut [u8],
    width: Width,
    a: u64,
    value: u64,
) -> bool
    requires laid { Laid regions.now bytes.old }
    requires front { IsFront regions.now start room }
    ensures answer { result ≡ all_flagged regions.now 2 (bytes_of width) a }
    ensures stored { OnTrue result (memory_of regions.now bytes.new ≡ store_in (bytes_of width) (memory_of regions.now bytes.old) a value) }
    ensures refused { result ≡ false → memory_of regions.now bytes.new ≡ memory_of regions.now bytes.old }
    ensures laid { Laid regions.now bytes.new }
    ensures fixed { (b : ℕ) → has_flag (flags_in regions.now b) 2 ≡ false → memory_of regions.now bytes.new b ≡ memory_of regions.now bytes.old b }
{
    let at = sub(a, start);
    if at < room {
        put_at(bytes, at as usize, width.count() as usize, value);
        true
    } else {
        store_found(regions, bytes, width, a, value)
    }
}

/// The same, with a look at the regions.
#[inline(never)]
fn store_found(regions: &[Region], bytes: &mut [u8], width: Width, a: u64, value: u64) -> bool
    requires { Laid regions.now bytes.old }
    ensures answer { result ≡ all_flagged regions.now 2 (bytes_of width) a }
    ensures stored { OnTrue result (memory_of regions.now bytes.new ≡ store_in (bytes_of width) (memory_of regions.now bytes.old) a value) }
    ensures refused { result ≡ false → memory_of regions.now bytes.new ≡ memory_of regions.now bytes.old }
    ensures laid { Laid regions.now bytes.new }
    ensures fixed { (b : ℕ) → has_flag (flags_in regions.now b) 2 ≡ false → memory_of regions.now bytes.new b ≡ memory_of regions.now bytes.old b }
{
    match find(regions, a, width.count()) {
        Place::Whole { at, flags } => {
            if !is_set(flags, WRITES) {
                return false;
            }
            put_at(bytes, at, width.count() as usize, value);
            true
        }
        Place::Apart => {
            if !may(regions, bytes, WRITES, width.count(), a) {
                return false;
            }
            store_apart(regions, bytes, width.count(), a, value);
            true
        }
    }
}

/// Stores the lowest bytes of a number byte by byte.
#[inline(never)]
fn store_apart(regions: &[Region], bytes: &mut [u8], count: u64, a: u64, value: u64)
    requires laid { Laid regions.now bytes.old }
    requires usable { all_flagged regions.now 2 count a ≡ true }
    ensures stored { memory_of regions.now bytes.new ≡ store_in count (memory_of regions.now bytes.old) a value }
    ensures laid { Laid regions.now bytes.new }
{
    if count == 0 {
        return;
    }
    if let Place::Whole { at, flags } = find(regions, a, 1) {
        let _ = flags;
        bytes[at] = (value % 256) as u8;
        store_apart(regions, bytes, count - 1, a + 1, value / 256);
    }
}

/// Puts the lowest bytes of a number at a place, the lowest first.
#[inline(always)]
fn put_at(bytes: &mut [u8], at: usize, count: usize, value: u64)
    requires { at + count ≤ length bytes.old }
    ensures written { (k : ℕ) → slice_index bytes.new k ≡ store_in count (λ k. slice_index bytes.old k) at value k }
    ensures size { length bytes.new ≡ length bytes.old }
{
    let mut rest = value;
    for i in 0..count {
        bytes[at + i] = (rest % 256) as u8;
        rest /= 256;
    }
}
