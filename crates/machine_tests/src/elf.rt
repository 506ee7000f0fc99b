//! Worked examples: a linker's file with one field changed at a time, and images there and back.

ghost use Rattle.std.specs.Prelude.{◌≡◌, IfOk};
ghost use Rattle.elf_write.specs.Valid.{IsValid};

use elf_write::{ElfErr, Image, Segment, read, write};
use scheme_base::{Bytes, List, Numbers};
use std::alloc::{AllocError, Global};
use std::test::Fail;

/// The front of a file that GNU ld made of a text that exits with 7, 4 bytes of data and 60 of zeros: its
/// header, its two program headers, the text at 176 and the data at 188. The text's segment has the headers
/// too, and stands at 0x10000 with 188 bytes; the data's stands at 0x100cc, with 68 bytes of memory. The
/// entry is 0x100b0.
const LINKED: [u8; 192] = [
    0x7f, 0x45, 0x4c, 0x46, 2, 1, 1, 0, 0, 0, 0, 0, 0, 0, 0, 0, // 0
    2, 0, 0xf3, 0, 1, 0, 0, 0, 0xb0, 0, 1, 0, 0, 0, 0, 0, // 16
    0x40, 0, 0, 0, 0, 0, 0, 0, 0xe0, 0, 0, 0, 0, 0, 0, 0, // 32
    0, 0, 0, 0, 0x40, 0, 0x38, 0, 2, 0, 0x40, 0, 5, 0, 4, 0, // 48
    1, 0, 0, 0, 5, 0, 0, 0, 0, 0, 0, 0, 0, 0, 0, 0, // 64
    0, 0, 1, 0, 0, 0, 0, 0, 0, 0, 1, 0, 0, 0, 0, 0, // 80
    0xbc, 0, 0, 0, 0, 0, 0, 0, 0xbc, 0, 0, 0, 0, 0, 0, 0, // 96
    0x10, 0, 0, 0, 0, 0, 0, 0, 1, 0, 0, 0, 6, 0, 0, 0, // 112
    0xbc, 0, 0, 0, 0, 0, 0, 0, 0xcc, 0, 1, 0, 0, 0, 0, 0, // 128
    0xcc, 0, 1, 0, 0, 0, 0, 0, 4, 0, 0, 0, 0, 0, 0, 0, // 144
    0x44, 0, 0, 0, 0, 0, 0, 0, 0x10, 0, 0, 0, 0, 0, 0, 0, // 160
    0x93, 8, 0xd0, 5, 0x13, 5, 0x70, 0, 0x73, 0, 0, 0, 0x64, 0x61, 0x74, 0x61, // 176
];

const SHORT: Option<ElfErr> = Some(ElfErr::Short);

const MAGIC: Option<ElfErr> = Some(ElfErr::Magic);

const KIND: Option<ElfErr> = Some(ElfErr::Kind);

const ENTRY: Option<ElfErr> = Some(ElfErr::Entry);

const FIRST: Option<ElfErr> = Some(ElfErr::Segment { index: 0 });

const SECOND: Option<ElfErr> = Some(ElfErr::Segment { index: 1 });

/// One past the greatest address that a segment may have, and the most memory of an image.
const TOP: u64 = 0x8000_0000_0000;

const MOST: u64 = 0x8000_0000;

/// What is answered to bytes, or none where they hold an image.
fn answer_to(alloc: Global, bytes: &[u8]) -> Option<ElfErr> {
    match read(alloc, bytes) {
        Ok(_image) => None,
        Err(err) => Some(err),
    }
}

/// What is answered to the linker's file, with another number in so many of its bytes from a place on.
fn changed(
    alloc: Global,
    at: usize,
    size: usize,
    value: u64,
) -> Result<Option<ElfErr>, AllocError> {
    let field = value.to_le_bytes();
    let mut file = Vec::new(alloc);
    for (place, byte) in LINKED.iter().enumerate() {
        if place >= at && place - at < size && place - at < 8 {
            file.push(field[place - at])?;
        } else {
            file.push(*byte)?;
        }
    }
    Ok(answer_to(alloc, file.as_slice()))
}

/// What is answered to the front of a file.
fn cut(alloc: Global, file: &[u8], length: usize) -> Option<ElfErr> {
    answer_to(alloc, &file[..length.min(file.len())])
}

#[test]
fn header_fields_are_checked(rt: HostRuntime) -> Result<(), Fail> {
    let rows: [(usize, usize, u64, Option<ElfErr>); 33] = [
        // magic, class, data and version, and the rest of that line
        (0, 1, 0x7e, MAGIC),
        (3, 1, 0, MAGIC),
        (4, 1, 1, MAGIC),
        (5, 1, 2, MAGIC),
        (6, 1, 0, MAGIC),
        (7, 8, u64::MAX, None),
        // type, machine, version
        (16, 2, 3, KIND),
        (18, 2, 62, KIND),
        (20, 4, 0, KIND),
        // the entry: the last instruction, the text's end, the data, no multiple of 4, nowhere
        (24, 8, 0x1_00b8, None),
        (24, 8, 0x1_00bc, ENTRY),
        (24, 8, 0x1_00cc, ENTRY),
        (24, 8, 0x1_00b2, ENTRY),
        (24, 8, 0xfffc, ENTRY),
        (24, 8, 0, ENTRY),
        (24, 8, u64::MAX - 3, ENTRY),
        // the place of the program headers: the last that there is (what stands there is of other types)
        (32, 8, 80, ENTRY),
        (32, 8, 81, SHORT),
        (32, 8, u64::MAX, SHORT),
        (40, 8, u64::MAX, None),
        (48, 4, u64::MAX, None),
        // sizes and numbers
        (52, 2, 63, KIND),
        (52, 2, 65, KIND),
        (54, 2, 55, KIND),
        (54, 2, 57, KIND),
        (56, 2, 0, KIND),
        (56, 2, 1, None),
        (56, 2, 3, SHORT),
        (56, 2, 16, SHORT),
        (56, 2, 17, KIND),
        (56, 2, u64::MAX, KIND),
        (58, 2, u64::MAX, None),
        (62, 2, u64::MAX, None),
    ];
    for (at, size, value, answer) in rows {
        assert_eq!(rt;
            changed(rt.alloc(), at, size, value)?,
            answer,
            "{value} at {at}"
        );
    }
    Ok(())
}

#[test]
fn first_program_header_is_checked(rt: HostRuntime) -> Result<(), Fail> {
    let rows: [(usize, usize, u64, Option<ElfErr>); 29] = [
        // type: what is passed over has no entry
        (64, 4, 0, ENTRY),
        (64, 4, 2, FIRST),
        (64, 4, 3, FIRST),
        (64, 4, 4, ENTRY),
        (64, 4, u64::MAX, ENTRY),
        // flags
        (68, 4, 0, ENTRY),
        (68, 4, 1, None),
        (68, 4, 6, ENTRY),
        (68, 4, 7, None),
        (68, 4, 8, FIRST),
        (68, 4, u64::MAX, FIRST),
        // offset: up to the file's end
        (72, 8, 4, None),
        (72, 8, 5, FIRST),
        (72, 8, u64::MAX, FIRST),
        // address: up to the next segment, and to the last address
        (80, 8, 0x1_0010, None),
        (80, 8, 0x1_0011, SECOND),
        (80, 8, TOP - 188, SECOND),
        (80, 8, TOP - 187, FIRST),
        (80, 8, u64::MAX, FIRST),
        (88, 8, u64::MAX, None),
        // size in the file
        (96, 8, 0, None),
        (96, 8, 189, FIRST),
        (96, 8, u64::MAX, FIRST),
        // size in memory: from that in the file to the next segment, and the most
        (104, 8, 187, FIRST),
        (104, 8, 0xcc, None),
        (104, 8, 0xcd, SECOND),
        (104, 8, MOST, SECOND),
        (104, 8, MOST + 1, FIRST),
        (112, 8, u64::MAX, None),
    ];
    for (at, size, value, answer) in rows {
        assert_eq!(rt;
            changed(rt.alloc(), at, size, value)?,
            answer,
            "{value} at {at}"
        );
    }
    Ok(())
}

#[test]
fn second_program_header_is_checked(rt: HostRuntime) -> Result<(), Fail> {
    let rows: [(usize, usize, u64, Option<ElfErr>); 20] = [
        (120, 4, 0, None),
        (120, 4, 2, SECOND),
        (120, 4, 3, SECOND),
        (124, 4, 0, None),
        (124, 4, 8, SECOND),
        (128, 8, 0, None),
        (128, 8, 189, SECOND),
        (128, 8, u64::MAX, SECOND),
        // address: from the end of the first segment on, up to the last address
        (136, 8, 0x1_00bb, SECOND),
        (136, 8, 0x1_00bc, None),
        (136, 8, TOP - 68, None),
        (136, 8, TOP - 67, SECOND),
        (136, 8, u64::MAX, SECOND),
        (152, 8, 0, None),
        (152, 8, 5, SECOND),
        // size in memory: both have at most 2^31 bytes together
        (160, 8, 3, SECOND),
        (160, 8, MOST - 188, None),
        (160, 8, MOST - 187, SECOND),
        (160, 8, MOST, SECOND),
        (160, 8, u64::MAX, SECOND),
    ];
    for (at, size, value, answer) in rows {
        assert_eq!(rt;
            changed(rt.alloc(), at, size, value)?,
            answer,
            "{value} at {at}"
        );
    }
    Ok(())
}

#[test]
fn files_are_cut(rt: HostRuntime) -> Result<(), Fail> {
    for (length, answer) in [
        (0usize, SHORT),
        (63, SHORT),
        (64, SHORT),
        (175, SHORT),
        (176, FIRST),
        (187, FIRST),
        (188, SECOND),
        (191, SECOND),
        (192, None),
    ] {
        assert_eq!(rt; cut(rt.alloc(), &LINKED, length), answer, "{length}");
    }
    Ok(())
}

/// An image of a text, of a segment that has no memory and of data with zeros after it.
fn example(alloc: Global) -> Result<Image, AllocError>
    ensures { IfOk result (λ image. IsValid image) }
{
    let mut segments = List::new(alloc);
    segments.push(segment(0x1_0000, 4, 5, Bytes::from_slice(alloc, &[0x73, 0, 0, 0])?))?;
    segments.push(segment(0x1_0004, 0, 0, List::new(alloc)))?;
    segments.push(segment(0x1_0004, 16, 6, Bytes::from_slice(alloc, b"data")?))?;
    Ok(Image {
        entry: 0x1_0000,
        segments,
    })
}

fn segment(vaddr: u64, memsz: u64, flags: u32, bytes: Bytes) -> Segment
    ensures { result ≡ record { vaddr = vaddr; memsz = memsz; flags = flags; bytes = bytes } }
{
    Segment {
        vaddr,
        memsz,
        flags,
        bytes,
    }
}

#[test]
fn images_are_written_and_read(rt: HostRuntime) -> Result<(), Fail> {
    let image = example(rt.alloc())?;
    let file = write(rt.alloc(), &image)?;
    assert_eq!(rt; file.len(), 8196);
    assert_eq!(rt; cut(rt.alloc(), file.as_slice(), 8196), None);
    assert_eq!(rt;
        cut(rt.alloc(), file.as_slice(), 8195),
        Some(ElfErr::Segment { index: 2 })
    );
    assert_eq!(rt;
        cut(rt.alloc(), file.as_slice(), 8191),
        Some(ElfErr::Segment { index: 1 })
    );
    assert_eq!(rt; cut(rt.alloc(), file.as_slice(), 150), SHORT);
    Ok(())
}

/// The entry of the image in bytes; of each segment its place, size and flags, how many bytes it has, and
/// the first and the last of these.
fn told(alloc: Global, bytes: &[u8]) -> Result<Numbers, ElfErr> {
    let image = read(alloc, bytes)?;
    let mut all = Numbers::new(alloc);
    all.push(image.entry)?;
    for segment in image.segments.as_slice() {
        let bytes = segment.bytes.as_slice();
        all.extend_from_slice(&[segment.vaddr, segment.memsz, u64::from(segment.flags)])?;
        all.push(bytes.len() as u64)?;
        all.push(bytes.first().map_or(0, |byte| u64::from(*byte)))?;
        all.push(bytes.last().map_or(0, |byte| u64::from(*byte)))?;
    }
    Ok(all)
}

#[test]
fn linked_file_is_read(rt: HostRuntime) -> Result<(), Fail> {
    let all = told(rt.alloc(), &LINKED)?;
    let expected = [
        0x1_00b0, // the entry
        0x1_0000, 188, 5, 188, 0x7f, 0, // the text, with the headers before it
        0x1_00cc, 68, 6, 4, 0x64, 0x61, // the data
    ];
    assert_eq!(rt; all.as_slice(), expected.as_slice());
    Ok(())
}
