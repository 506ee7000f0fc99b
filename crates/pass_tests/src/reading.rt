//! Texts with their data or their first faults.

mod rows;

use datum_form::write_text;
use datum_reader::{ReadErr, read_program};
use std::alloc::Global;
use std::test::Fail;

/// A fault and its place.
fn told(alloc: Global, err: &ReadErr) -> Result<String, Fail> {
    let (what, pos) = match err {
        ReadErr::Unclosed { pos } => ("unclosed", pos),
        ReadErr::Stray { pos } => ("stray", pos),
        ReadErr::BadToken { pos } => ("bad token", pos),
        ReadErr::NumberRange { pos } => ("number range", pos),
        ReadErr::TooDeep { pos } => ("too deep", pos),
        ReadErr::TooLong { len } => return Ok(format!(in alloc; "too long {len}")?),
        ReadErr::NoMemory => return Err("no memory".into()),
    };
    let (line, col) = (pos.line, pos.col);
    Ok(format!(in alloc; "{what} {line}:{col}")?)
}

/// The data of a text, printed, or its fault.
fn answer(alloc: Global, text: &[u8]) -> Result<Vec<u8>, Fail> {
    match read_program(alloc, text) {
        Ok(datums) => Ok(write_text(alloc, &datums)?),
        Err(err) => Ok(told(alloc, &err)?.as_bytes().to_vec(alloc)?),
    }
}

#[test]
fn texts(rt: HostRuntime) -> Result<(), Fail> {
    let tables = [
        rows::ATOMS.as_slice(),
        rows::RADIX.as_slice(),
        rows::CHARACTERS.as_slice(),
        rows::STRINGS.as_slice(),
        rows::BLANKS.as_slice(),
        rows::LISTS.as_slice(),
        rows::VECTORS.as_slice(),
        rows::MARKS.as_slice(),
        rows::PLACES.as_slice(),
        rows::BYTES.as_slice(),
    ];
    for table in tables {
        for (text, want) in table {
            assert_eq!(rt; answer(rt.alloc(), text)?.as_slice(), *want);
            if want.ends_with(b"\n") {
                assert_eq!(rt; answer(rt.alloc(), want)?.as_slice(), *want, "printed data");
            }
        }
    }
    Ok(())
}

/// This text so many times.
fn repeated(alloc: Global, text: &[u8], count: usize) -> Result<Vec<u8>, Fail> {
    let mut whole = Vec::new(alloc);
    for _turn in 0..count {
        whole.extend_from_slice(text)?;
    }
    Ok(whole)
}

/// What so many openers before an end are.
fn nested(alloc: Global, opener: &[u8], count: usize, end: &[u8]) -> Result<Vec<u8>, Fail> {
    let mut text = repeated(alloc, opener, count)?;
    text.extend_from_slice(end)?;
    answer(alloc, &text)
}

#[test]
fn depths(rt: HostRuntime) -> Result<(), Fail> {
    let rows = [
        (b"(".as_slice(), 1000, "unclosed 1:1000"),
        (b"(", 1001, "too deep 1:1001"),
        (b"#(", 1000, "unclosed 1:1999"),
        (b"#(", 1001, "too deep 1:2001"),
        (b"'", 1000, "unclosed 1:1000"),
        (b"'", 1001, "too deep 1:1001"),
        (b",@", 1001, "too deep 1:2001"),
        (b"(a . ", 1000, "unclosed 1:4996"),
        (b"(a . ", 1001, "too deep 1:5001"),
        (b"('", 501, "too deep 1:1001"),
    ];
    for (opener, count, want) in rows {
        let got = nested(rt.alloc(), opener, count, b"")?;
        assert_eq!(rt; got.as_slice(), want.as_bytes());
    }
    for end in [b"a".as_slice(), b")", b"1x", b". "] {
        let got = nested(rt.alloc(), b"'", 1000, end)?;
        let want = match end[0] {
            b'a' => b"(quote (".as_slice(),
            b'1' => b"bad token 1:1001",
            _ => b"stray 1:1001",
        };
        assert!(rt; got.starts_with(want));
    }
    Ok(())
}

#[test]
fn lengths(rt: HostRuntime) -> Result<(), Fail> {
    let most = repeated(rt.alloc(), b" ", 1 << 20)?;
    assert_eq!(rt; answer(rt.alloc(), &most)?.as_slice(), b"".as_slice());
    let more = repeated(rt.alloc(), b")", (1 << 20) + 1)?;
    assert_eq!(rt;
        answer(rt.alloc(), &more)?.as_slice(),
        b"too long 1048577".as_slice()
    );
    Ok(())
}

/// The lines and columns of a text's nodes, each after those of its parts.
fn places(alloc: Global, text: &[u8]) -> Result<Vec<u32>, Fail> {
    let mut all = Vec::new(alloc);
    let datums = read_program(alloc, text)?;
    for node in datums.nodes.as_slice() {
        all.push(node.pos.line)?;
        all.push(node.pos.col)?;
    }
    Ok(all)
}

#[test]
fn places_of_data(rt: HostRuntime) -> Result<(), Fail> {
    let rows = [
        (b"a".as_slice(), [1, 1].as_slice()),
        (b" ; c\n  a", &[2, 3]),
        (b"(a\n b)", &[1, 2, 2, 2, 1, 1]),
        (b"\n 'a", &[2, 3, 2, 2, 2, 2]),
        (b"(a . (b))", &[1, 2, 1, 7, 1, 6, 1, 1]),
        (b"#(1) \"\n\"()", &[1, 3, 1, 1, 1, 6, 2, 2]),
    ];
    for (text, want) in rows {
        assert_eq!(rt; places(rt.alloc(), text)?.as_slice(), want);
    }
    Ok(())
}
