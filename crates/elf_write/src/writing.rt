ghost use Rattle.std.specs.Prelude.{◌≡◌, ◌++◌, ◌-◌, ◌<◌, ◌≤◌, ◌*◌, ◌+◌, ◌^◌, length, replicate, IfOk, OnOk};
ghost use Rattle.elf_write.specs.Valid.{IsValid};
ghost use Rattle.elf_write.specs.File.{header_bytes, program_header_bytes, segment_headers, segment_bytes, page_from, file_of};
ghost use Rattle.elf_write.specs.Reading.{HoldsImage};

use crate::header::{HEADER, IDENT, PROGRAM_HEADER};
use byteorder::{ByteOrder, LittleEndian};
use rv_form::{Image, Segment};
use std::alloc::{AllocError, Global};

/// Segments stand at multiples of this size in a file.
const PAGE: usize = 4096;

/// The file of an image. Reading it gives the image.
pub fn write(alloc: Global, image: &Image) -> Result<Vec<u8>, AllocError>
    requires { IsValid image.now }
    ensures file { IfOk result (λ file. file.items ≡ file_of image.now) }
    ensures read { IfOk result (λ file. HoldsImage file.items image.now) }
{
    let count = image.segments.len();
    let mut file = Vec::new(alloc);
    file.extend_from_slice(&file_header(image.entry, count as u16))?;
    push_headers(&mut file, image)?;
    push_segments(&mut file, image.segments.as_slice())?;
    Ok(file)
}

/// A file's header.
fn file_header(entry: u64, count: u16) -> [u8; 64]
    ensures { result ≡ header_bytes entry count }
{
    let mut header = [0; 64];
    header[..7].copy_from_slice(&IDENT);
    LittleEndian::write_u16(&mut header[16..], 2);
    LittleEndian::write_u16(&mut header[18..], 243);
    LittleEndian::write_u32(&mut header[20..], 1);
    LittleEndian::write_u64(&mut header[24..], entry);
    LittleEndian::write_u64(&mut header[32..], HEADER as u64);
    LittleEndian::write_u16(&mut header[52..], HEADER as u16);
    LittleEndian::write_u16(&mut header[54..], PROGRAM_HEADER as u16);
    LittleEndian::write_u16(&mut header[56..], count);
    header
}

/// The program header of a segment whose bytes stand at `offset` in the file.
fn segment_header(offset: usize, segment: &Segment) -> [u8; 56]
    ensures { result ≡ program_header_bytes offset segment.now }
{
    let mut header = [0; 56];
    LittleEndian::write_u32(&mut header[0..], 1);
    LittleEndian::write_u32(&mut header[4..], segment.flags);
    LittleEndian::write_u64(&mut header[8..], offset as u64);
    LittleEndian::write_u64(&mut header[16..], segment.vaddr);
    LittleEndian::write_u64(&mut header[24..], segment.vaddr);
    LittleEndian::write_u64(&mut header[32..], segment.bytes.len() as u64);
    LittleEndian::write_u64(&mut header[40..], segment.memsz);
    LittleEndian::write_u64(&mut header[48..], PAGE as u64);
    header
}

/// Puts the program headers of an image's segments at the end.
fn push_headers(file: &mut Vec<u8>, image: &Image) -> Result<(), AllocError>
    requires { IsValid image.now }
    ensures { OnOk result (file.new.items
        ≡ file.old.items ++ segment_headers (64 + 56 * length image.now.segments) image.now.segments) }
{
    let mut place = HEADER + PROGRAM_HEADER * image.segments.len();
    for segment in image.segments.as_slice() {
        let offset = next_page(place);
        file.extend_from_slice(&segment_header(offset, segment))?;
        place = offset + segment.bytes.len();
    }
    Ok(())
}

/// Puts the bytes of segments at the end, each from a new page on.
fn push_segments(file: &mut Vec<u8>, segments: &[Segment]) -> Result<(), AllocError>
    ensures { OnOk result (file.new.items ≡ file.old.items ++ segment_bytes (length file.old.items) segments.now) }
{
    for segment in segments {
        let page = next_page(file.len());
        push_zeros(file, page - file.len())?;
        file.extend_from_slice(segment.bytes.as_slice())?;
    }
    Ok(())
}

/// Puts so many zeros at the end.
fn push_zeros(file: &mut Vec<u8>, count: usize) -> Result<(), AllocError>
    requires { count ≤ 4096 }
    ensures { OnOk result (file.new.items ≡ file.old.items ++ replicate count 0) }
{
    file.resize(file.len() + count, 0)?;
    Ok(())
}

/// The least multiple of a page's size that is not below a place.
fn next_page(place: usize) -> usize
    requires { place < 2 ^ 63 }
    ensures { result ≡ page_from place }
{
    (place + (PAGE - 1)) / PAGE * PAGE
}
