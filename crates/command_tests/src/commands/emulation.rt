//! Images by `emulate`: those of `compile`, cut ones, hostile headers and random code.

use super::{ROOM, Report, report_of, run, words_of};
use scheme_base::Bytes;
use stalin_outside::MemShelf;
use std::alloc::{AllocError, Global};
use std::test::Fail;
use std::thread::Threads;

/// The program whose image writes `a` and a line end.
const SOURCE: &[u8] = b"(write-char #\\a)(write-char #\\newline)";

/// The header and the program header of an image file: one segment at 65536 with four bytes of the file, from
/// 4096 on, which may be read and executed; the entry is 65536.
const HEADERS: [u8; 120] = [
    0x7f, 0x45, 0x4c, 0x46, 2, 1, 1, 0, 0, 0, 0, 0, 0, 0, 0, 0, // 0
    2, 0, 0xf3, 0, 1, 0, 0, 0, 0, 0, 1, 0, 0, 0, 0, 0, // 16
    0x40, 0, 0, 0, 0, 0, 0, 0, 0, 0, 0, 0, 0, 0, 0, 0, // 32
    0, 0, 0, 0, 0x40, 0, 0x38, 0, 1, 0, 0, 0, 0, 0, 0, 0, // 48
    1, 0, 0, 0, 5, 0, 0, 0, 0, 0x10, 0, 0, 0, 0, 0, 0, // 64
    0, 0, 1, 0, 0, 0, 0, 0, 0, 0, 1, 0, 0, 0, 0, 0, // 80
    4, 0, 0, 0, 0, 0, 0, 0, 4, 0, 0, 0, 0, 0, 0, 0, // 96
    0, 0x10, 0, 0, 0, 0, 0, 0, // 112
];

/// Where the headers have their fields, and how many bytes each has.
const FIELDS: [(usize, usize); 17] = [
    (0, 4),
    (4, 1),
    (16, 2),
    (18, 2),
    (20, 4),
    (24, 8),
    (32, 8),
    (52, 2),
    (54, 2),
    (56, 2),
    (64, 4),
    (68, 4),
    (72, 8),
    (80, 8),
    (96, 8),
    (104, 8),
    (112, 8),
];

/// The file with these headers and this code, which stands at the start of the second page.
fn file_of(alloc: Global, headers: &[u8], code: &[u8]) -> Result<Bytes, AllocError> {
    let mut file = Bytes::from_slice(alloc, headers)?;
    file.extend_from_slice(&[0; 3976])?;
    file.extend_from_slice(code)?;
    Ok(file)
}

/// Emulates the file for so many steps as the word says.
fn emulated<R: AllocGlobal + Threads + Sync>(
    rt: &R,
    alloc: Global,
    file: &[u8],
    steps: &str,
) -> Result<Report, AllocError> {
    report_of(rt, alloc, &["emulate", "in", "--steps", steps], file, &[])
}

/// The image of `SOURCE`.
fn image<R: AllocGlobal + Threads + Sync>(rt: &R, alloc: Global) -> Result<Bytes, AllocError> {
    Ok(report_of(rt, alloc, &["compile", "in", "out"], SOURCE, &[])?.out)
}

#[test]
fn images_run_for_so_many_steps(rt: HostRuntime) -> Result<(), Fail> {
    // addi x10, x0, 5; addi x17, x0, 93; ecall
    let code = [
        0x13, 0x05, 0x50, 0x00, 0x93, 0x08, 0xd0, 0x05, 0x73, 0x00, 0x00, 0x00,
    ];
    let headers = headers_with(&HEADERS, 96, 8, 12);
    let headers = headers_with(&headers, 104, 8, 12);
    let file = file_of(rt.alloc(), &headers, &code)?;
    let rows: [(&str, u8, &str); 4] = [
        ("3", 5, ""),
        ("2", 75, "spent 2\n"),
        ("1", 75, "spent 1\n"),
        ("1000000000000000000", 5, ""),
    ];
    for (steps, status, text) in rows {
        let report = emulated(&rt, rt.alloc(), file.as_slice(), steps)?;
        assert_eq!(rt; report.status, status);
        assert_eq!(rt; report.text.as_slice(), text.as_bytes());
        assert_eq!(rt; report.again, status);
    }
    Ok(())
}

#[test]
fn failed_writes_reach_the_image(rt: HostRuntime) -> Result<(), Fail> {
    let file = image(&rt, rt.alloc())?;
    let mut shelf = MemShelf::new(rt.alloc())?;
    shelf.add("in", file.as_slice(), ROOM)?;
    let words = words_of(rt.alloc(), &["emulate", "in"])?;
    let (status, _text, output) = run(&rt, rt.alloc(), &words, &mut shelf, b"", &[])?;
    assert_eq!(rt; status, 0);
    assert_eq!(rt; output.as_slice(), b"a\n".as_slice());
    let (status, text, output) = run(&rt, rt.alloc(), &words, &mut shelf, b"", &[1])?;
    assert_eq!(rt; status, 3);
    assert_eq!(rt; text.as_slice(), b"io\n".as_slice());
    assert_eq!(rt; output.as_slice(), b"".as_slice());
    Ok(())
}

#[test]
fn bad_images_are_refused(rt: HostRuntime) -> Result<(), Fail> {
    let compiled = report_of(&rt, rt.alloc(), &["compile", "in", "out"], b"", &[])?;
    for (length, text) in [
        (100usize, "bad image: 1\n"),
        (150, "bad image: 1\n"),
        (4096, "bad image: 4 0\n"),
    ] {
        let cut = &compiled.out.as_slice()[..length.min(compiled.out.len())];
        let report = emulated(&rt, rt.alloc(), cut, "5")?;
        assert_eq!(rt; report.status, 76);
        assert_eq!(rt; report.text.as_slice(), text.as_bytes());
    }
    let missing = report_of(&rt, rt.alloc(), &["emulate", "no"], b"", &[])?;
    assert_eq!(rt; missing.status, 74);
    Ok(())
}

#[test]
fn traps_are_told(rt: HostRuntime) -> Result<(), Fail> {
    let rows: [([u8; 4], &str); 5] = [
        ([0, 0, 0, 0], "trapped 1 at 65536\n"),
        ([0x6f, 0x00, 0x20, 0x00], "trapped 2 at 65538\n"), // jal x0, .+2
        ([0x83, 0x20, 0x00, 0x00], "trapped 3 at 65536\n"), // lw x1, 0(x0)
        ([0x23, 0x20, 0x00, 0x00], "trapped 4 at 65536\n"), // sw x0, 0(x0)
        ([0x73, 0x00, 0x10, 0x00], "trapped 6 at 65536\n"), // ebreak
    ];
    for (code, text) in rows {
        let file = file_of(rt.alloc(), &HEADERS, &code)?;
        let report = emulated(&rt, rt.alloc(), file.as_slice(), "5")?;
        assert_eq!(rt; report.status, 77);
        assert_eq!(rt; report.text.as_slice(), text.as_bytes());
    }
    Ok(())
}

/// Headers with another number in one field.
fn headers_with(before: &[u8; 120], at: usize, size: usize, value: u64) -> [u8; 120] {
    let field = value.to_le_bytes();
    let mut headers = *before;
    for place in 0..size.min(8) {
        if let Some(byte) = headers.get_mut(at.min(200) + place) {
            *byte = field[place];
        }
    }
    headers
}

/// Whether a hostile image may end so: it is a bad image, trapped or was cut, and the answer is the same twice.
fn is_told(report: &Report) -> bool {
    let text = report.text.as_slice();
    let told = match report.status {
        75 => text.starts_with(b"spent "),
        76 => text.starts_with(b"bad image: "),
        77 => text.starts_with(b"trapped "),
        _ => false,
    };
    told && report.again == report.status && report.text_again.as_slice() == text
}

#[test]
fn hostile_headers_have_an_answer(rt: HostRuntime) -> Result<(), Fail> {
    let edges = [0u64, 1, 3, 0xffff, 0xffff_ffff, u64::MAX];
    for (at, size) in FIELDS {
        for edge in edges {
            let headers = headers_with(&HEADERS, at, size, edge);
            let file = file_of(rt.alloc(), &headers, &[0x6f, 0, 0, 0])?; // jal x0, .
            let report = emulated(&rt, rt.alloc(), file.as_slice(), "1000")?;
            assert!(rt; is_told(&report), "{edge} at {at}");
        }
    }
    Ok(())
}

#[test]
fn random_code_has_an_answer(rt: HostRuntime) -> Result<(), Fail> {
    // 256 bytes, which may be written too
    let headers = headers_with(&HEADERS, 68, 4, 7);
    let headers = headers_with(&headers, 96, 8, 256);
    let headers = headers_with(&headers, 104, 8, 256);
    let mut seed = 0x2545_f491_4f6c_dd1du64;
    for round in 0..20 {
        let mut code = [0u8; 256];
        for byte in &mut code {
            seed = seed
                .wrapping_mul(0x5851_f42d_4c95_7f2d)
                .wrapping_add(0x1405_7b7e_f767_814f);
            *byte = seed.to_le_bytes()[7];
        }
        let file = file_of(rt.alloc(), &headers, &code)?;
        let report = emulated(&rt, rt.alloc(), file.as_slice(), "1000")?;
        assert!(rt; is_told(&report), "{round}");
    }
    Ok(())
}
