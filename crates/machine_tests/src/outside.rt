//! Files and streams, real ones and those in memory.

use stalin_outside::{
    Begun, Console, FileShelf, Gate, Got, In, MemConsole, MemShelf, OpenGate, Out, Reading, Shelf,
    StdConsole, Took, Writing, print, read_file, send_all, write_file,
};
use std::alloc::{AllocError, Global};
use std::fs::OpenOptions;
use std::io::{ErrorKind, Read};
use std::os::unix::fs::{OpenOptionsExt, PermissionsExt};
use std::rt::Files;
use std::test::Fail;
use std::{fs, io};

/// Reads `from`, which has three bytes, and writes its bytes to `to`: the number of the first of five
/// calls that does not do so, or 0.
fn first_failure<H: Shelf>(shelf: &mut H, from: &str, to: &str) -> u64 {
    let mut buf = [0u8; 4];
    if shelf.begin_read(from) != Begun::Ready {
        return 1;
    }
    match shelf.read(&mut buf) {
        Got::Bytes(3) => {}
        _ => return 2,
    }
    match shelf.read(&mut buf[3..]) {
        Got::End => {}
        _ => return 3,
    }
    if shelf.begin_write(to) != Begun::Ready {
        return 4;
    }
    match shelf.write(&buf[..3]) {
        Took::Bytes(3) => 0,
        _ => 5,
    }
}

/// A shelf with a file `in` of three bytes and a file `out` with this room.
fn shelf_with_room(alloc: Global, room: usize) -> Result<MemShelf, AllocError> {
    let mut shelf = MemShelf::new(alloc)?;
    shelf.add("in", &[7, 8, 9], 0)?;
    shelf.add("out", &[1], room)?;
    Ok(shelf)
}

#[test]
fn memory_shelf_copies_a_file(rt: HostRuntime) -> Result<(), Fail> {
    let mut shelf = shelf_with_room(rt.alloc(), 3)?;
    assert_eq!(rt; first_failure(&mut shelf, "in", "out"), 0);
    for name in ["in", "out"] {
        let bytes = shelf.file(name).ok_or("no file")?;
        assert_eq!(rt; bytes, [7, 8, 9].as_slice(), "of {name}");
    }
    assert!(rt; shelf.file("other").is_none());
    Ok(())
}

#[test]
fn memory_shelf_fails_where_listed(rt: HostRuntime) -> Result<(), Fail> {
    for call in 1..6u64 {
        let mut shelf = shelf_with_room(rt.alloc(), 3)?;
        shelf.fail_at(&[call])?;
        assert_eq!(rt; first_failure(&mut shelf, "in", "out"), call);
        let left = if call < 5 { 1 } else { 0 };
        assert_eq!(rt;
            shelf.file("out").map(|bytes| bytes.len()),
            Some(left),
            "call {call}"
        );
    }
    Ok(())
}

#[test]
fn memory_shelf_fails_where_names_or_room_are_missing(rt: HostRuntime) -> Result<(), Fail> {
    for (from, to, room, want) in [
        ("no", "out", 3, 1),
        ("in", "no", 3, 4),
        ("in", "out", 2, 5),
        ("in", "out", 0, 5),
    ] {
        let mut shelf = shelf_with_room(rt.alloc(), room)?;
        assert_eq!(rt;
            first_failure(&mut shelf, from, to),
            want,
            "from {from} to {to}, room {room}"
        );
    }
    Ok(())
}

/// Three calls of `input` and one of `out`: the number of the first that does not answer as a console with
/// one byte of input should, or 0.
fn first_wrong<C: Console>(console: &mut C) -> u64 {
    if console.input() != In::Byte(b'a') {
        return 1;
    }
    if console.input() != In::End {
        return 2;
    }
    if console.out(b'x') != Out::Took {
        return 3;
    }
    if console.err(b'y') != Out::Took {
        return 4;
    }
    0
}

#[test]
fn memory_console_fails_where_listed_and_past_its_room(rt: HostRuntime) -> Result<(), Fail> {
    for (room, failing, want) in [
        (3, 0, 0),
        (3, 1, 1),
        (3, 2, 2),
        (3, 3, 3),
        (2, 0, 3),
        (0, 0, 1),
    ] {
        let mut console = MemConsole::new(rt.alloc(), b"a", room, &[failing])?;
        assert_eq!(rt;
            first_wrong(&mut console),
            want,
            "room {room}, failing {failing}"
        );
    }
    let mut console = MemConsole::new(rt.alloc(), b"a", 3, &[])?;
    assert_eq!(rt; first_wrong(&mut console), 0);
    assert_eq!(rt; console.output(), b"x".as_slice());
    assert_eq!(rt; console.errors(), b"y".as_slice());
    Ok(())
}

/// A stream whose first read a signal interrupts.
#[derive(Drop)]
struct Interrupted<'a> {
    waits: bool,
    rest: &'a [u8],
}

impl Read for Interrupted<'_> {
    fn read(&mut self, buf: &mut [u8]) -> io::Result<usize> {
        if self.waits {
            self.waits = false;
            return Err(io::Error::from(ErrorKind::Interrupted));
        }
        self.rest.read(buf)
    }
}

#[test]
fn streams_are_read_and_written_byte_by_byte(rt: HostRuntime) -> Result<(), Fail> {
    let input = Interrupted {
        waits: true,
        rest: b"a",
    };
    let mut output = Vec::new(rt.alloc());
    let mut errors = Vec::new(rt.alloc());
    let mut console = StdConsole::new(input, &mut output, &mut errors)?;
    assert_eq!(rt; first_wrong(&mut console), 0);
    drop(console);
    assert_eq!(rt; output.as_slice(), b"x".as_slice());
    assert_eq!(rt; errors.as_slice(), b"y".as_slice());
    Ok(())
}

#[test]
fn a_stream_that_takes_nothing_is_a_fault(rt: HostRuntime) -> Result<(), Fail> {
    let mut full = [0u8; 0];
    let mut errors = Vec::new(rt.alloc());
    let mut console = StdConsole::new(b"a".as_slice(), full.as_mut_slice(), &mut errors)?;
    assert_eq!(rt; first_wrong(&mut console), 3);
    Ok(())
}

#[test]
fn texts_are_written_up_to_the_first_failure(rt: HostRuntime) -> Result<(), Fail> {
    for (failing, whole, text) in [(0u64, true, "abcd"), (1, false, ""), (3, false, "ab")] {
        let mut console = MemConsole::new(rt.alloc(), b"", 9, &[failing])?;
        assert_eq!(rt; print(&mut console, b"abcd"), whole);
        assert_eq!(rt; console.output(), text.as_bytes());
        assert_eq!(rt; console.errors(), b"".as_slice());
        console.fail_errors_at(rt.alloc(), &[failing])?;
        assert_eq!(rt; send_all(&mut console, &[b"ab", b"", b"cd"]), whole);
        assert_eq!(rt; console.errors(), text.as_bytes());
        assert_eq!(rt; console.output(), text.as_bytes());
    }
    Ok(())
}

#[test]
fn whole_files_are_read_up_to_a_limit(rt: HostRuntime) -> Result<(), Fail> {
    for (most, whole) in [(2usize, false), (3, true), (4, true)] {
        let mut shelf = shelf_with_room(rt.alloc(), 3)?;
        match read_file(rt.alloc(), &mut shelf, "in", most) {
            Reading::Whole(bytes) => assert_eq!(rt; bytes.as_slice(), [7, 8, 9].as_slice()),
            Reading::TooLong => assert!(rt; !whole, "{most} bytes"),
            _ => assert!(rt; false, "{most} bytes"),
        }
    }
    Ok(())
}

/// The bytes and the permission bits of the file of this name.
#[derive(Drop)]
struct Found {
    bytes: Vec<u8>,
    mode: u32,
}

/// Takes a file away, and tells what it was.
fn taken<R: AllocGlobal + Files>(rt: &R, name: &str) -> Result<Found, Fail> {
    let bytes = fs::read(rt, name)?;
    let mode = fs::metadata(rt, name)?.permissions().mode() & 0o777;
    fs::remove_file(rt, name)?;
    Ok(Found { bytes, mode })
}

#[test]
fn real_files_are_copied(rt: HostRuntime) -> Result<(), Fail> {
    let from = "stalin_outside_from.tmp";
    let to = "stalin_outside_to.tmp";
    fs::write(&rt, from, [7u8, 8, 9].as_slice())?;
    let mut shelf = FileShelf::new(&rt, rt.alloc())?;
    let failure = first_failure(&mut shelf, from, to);
    let copy = taken(&rt, to)?;
    let source = taken(&rt, from)?;
    assert_eq!(rt; failure, 0);
    assert_eq!(rt; copy.bytes.as_slice(), [7, 8, 9].as_slice());
    assert_eq!(rt; source.bytes.as_slice(), [7, 8, 9].as_slice());
    Ok(())
}

#[test]
fn real_files_are_created_with_all_permissions_less_the_mask(rt: HostRuntime) -> Result<(), Fail> {
    let name = "stalin_outside_created.tmp";
    let other = "stalin_outside_all.tmp";
    let mut options = OpenOptions::new();
    options.write(true).create_new(true).mode(0o777);
    drop(options.open(&rt, other)?);
    let mut shelf = FileShelf::new(&rt, rt.alloc())?;
    let written = write_file(&mut shelf, name, &[7]);
    let created = taken(&rt, name)?;
    let all = taken(&rt, other)?;
    assert_eq!(rt; written, Writing::Done);
    assert_eq!(rt; created.mode, all.mode);
    Ok(())
}

#[test]
fn real_files_are_emptied_and_keep_their_mode(rt: HostRuntime) -> Result<(), Fail> {
    let name = "stalin_outside_long.tmp";
    let other = "stalin_outside_other.tmp";
    fs::write(&rt, name, [1u8; 5000].as_slice())?;
    fs::write(&rt, other, [1u8, 2].as_slice())?;
    let mode = fs::metadata(&rt, name)?.permissions().mode() & 0o777;
    let mut shelf = FileShelf::new(&rt, rt.alloc())?;
    let written = write_file(&mut shelf, name, &[7, 8, 9]);
    let long = taken(&rt, name)?;
    let beside = taken(&rt, other)?;
    assert_eq!(rt; written, Writing::Done);
    assert_eq!(rt; long.bytes.as_slice(), [7, 8, 9].as_slice());
    assert_eq!(rt; long.mode, mode);
    assert_eq!(rt; beside.bytes.as_slice(), [1, 2].as_slice());
    Ok(())
}

#[test]
fn real_files_fail_where_they_cannot_be_reached(rt: HostRuntime) -> Result<(), Fail> {
    for (from, to, want) in [("stalin_outside_no.tmp", "no", 1), (".", "no", 2)] {
        let mut shelf = FileShelf::new(&rt, rt.alloc())?;
        assert_eq!(rt; first_failure(&mut shelf, from, to), want, "from {from}");
    }
    let mut shelf = FileShelf::new(&rt, rt.alloc())?;
    assert_eq!(rt;
        shelf.begin_write("."),
        Begun::Failed,
        "a directory is not written"
    );
    Ok(())
}

/// How many of these passes of a gate return.
fn passed<G: Gate>(gate: &G, passes: &[(u32, u32)]) -> usize {
    let mut count = 0usize;
    for (worker, block) in passes {
        gate.pass(*worker, *block);
        count = count.saturating_add(1);
    }
    count
}

#[test]
fn the_open_gate_lets_each_worker_pass_each_block(rt: HostRuntime) {
    let edges = [(0, 0), (31, 0), (0, u32::MAX), (31, u32::MAX)];
    assert_eq!(rt; passed(&OpenGate, &edges), 4);
}
