ghost use Rattle.std.specs.Prelude.{◌≡◌, ◌+◌, ◌*◌, ◌<◌, ◌≤◌, ◌↔◌, IsTrue, length, IfOk, IfErr};
ghost use Rattle.elf_write.specs.Fields.{header_at, headers_place, headers_count};
ghost use Rattle.elf_write.specs.Reading.{IsLong, HasMagic, IsProgram, HasHeaders, HasHeader, Breaks};

use crate::ElfErr;
use crate::fields::{half, long, word};

/// The size of a file's header.
pub(crate) const HEADER: usize = 64;

/// The size of a program header.
pub(crate) const PROGRAM_HEADER: usize = 56;

/// Magic, class 2 (64 bits), data 1 (little-endian), version 1.
pub(crate) const IDENT: [u8; 7] = [0x7f, b'E', b'L', b'F', 2, 1, 1];

/// Where the program headers stand in a file, and how many there are.
#[derive(Clone, Copy, Debug, PartialEq, Eq)]
pub(crate) struct Table {
    pub place: usize,
    pub count: u16,
}

/// What is used of a program header.
///
/// `kind` is its type; the segment's bytes are the `filesz` bytes of the file from `offset` on.
#[derive(Clone, Copy, Debug, PartialEq, Eq)]
pub struct ProgramHeader {
    pub kind: u32,
    pub flags: u32,
    pub offset: u64,
    pub vaddr: u64,
    pub filesz: u64,
    pub memsz: u64,
}

/// Checks a file's header, and finds the program headers.
pub(crate) fn read_header(bytes: &[u8]) -> Result<Table, ElfErr>
    ensures header { IfOk result (λ table. HasHeader bytes.now) }
    ensures place { IfOk result (λ table. table.place ≡ headers_place bytes.now) }
    ensures count { IfOk result (λ table. table.count ≡ headers_count bytes.now) }
    ensures fault { IfErr result (λ err. Breaks bytes.now err) }
{
    if bytes.len() < HEADER {
        return Err(ElfErr::Short);
    }
    if !bytes.starts_with(&IDENT) {
        return Err(ElfErr::Magic);
    }
    if !is_program(bytes) {
        return Err(ElfErr::Kind);
    }
    if !has_headers(bytes) {
        return Err(ElfErr::Short);
    }
    Ok(Table {
        place: long(bytes, 32) as usize,
        count: half(bytes, 56),
    })
}

/// Whether the file is a RISC-V program with 1 to 16 program headers.
fn is_program(bytes: &[u8]) -> bool
    requires { IsLong bytes.now }
    ensures { IsTrue result ↔ IsProgram bytes.now }
{
    half(bytes, 16) == 2
        && half(bytes, 18) == 243
        && word(bytes, 20) == 1
        && half(bytes, 52) == 64
        && half(bytes, 54) == 56
        && half(bytes, 56) >= 1
        && half(bytes, 56) <= 16
}

/// Whether the program headers lie in the file.
fn has_headers(bytes: &[u8]) -> bool
    requires { IsLong bytes.now }
    ensures { IsTrue result ↔ HasHeaders bytes.now }
{
    let place = long(bytes, 32);
    let size = PROGRAM_HEADER * usize::from(half(bytes, 56));
    size <= bytes.len() && place <= (bytes.len() - size) as u64
}

/// The program header that stands at a place.
pub(crate) fn program_header(bytes: &[u8], at: usize) -> ProgramHeader
    requires { at + 56 ≤ length bytes.now }
    ensures { result ≡ header_at at bytes.now }
{
    ProgramHeader {
        kind: word(bytes, at),
        flags: word(bytes, at + 4),
        offset: long(bytes, at + 8),
        vaddr: long(bytes, at + 16),
        filesz: long(bytes, at + 32),
        memsz: long(bytes, at + 40),
    }
}
