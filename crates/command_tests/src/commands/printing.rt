//! What `facts` and `make` print.

use super::{report_of, run, words_of};
use scheme_base::Bytes;
use stalin_outside::{Gate, MemConsole, MemShelf, OpenGate};
use stalin_top::{stalin, status};
use std::alloc::{AllocError, AllocGlobal, Global};
use std::sync::atomic::{AtomicU32, Ordering};
use std::test::Fail;
use std::thread::Threads;

/// A source, and what `facts` prints for it.
const TABLE: (&str, &str) = ("(define x 1)", "0: 1\n1: 0\n2: 1\n3: 6\n");

/// What a command with the source `in` answers, where these calls of the output fail: its status, and what it
/// wrote to the error channel and to the output.
fn printed<R: AllocGlobal + Threads + Sync>(
    rt: &R,
    alloc: Global,
    texts: &[&str],
    source: &str,
    failing: &[u64],
) -> Result<(u8, Bytes, Bytes), AllocError> {
    let mut shelf = MemShelf::new(alloc)?;
    shelf.add("in", source.as_bytes(), 0)?;
    let words = words_of(alloc, texts)?;
    run(rt, alloc, &words, &mut shelf, b"", failing)
}

#[test]
fn tables_are_the_least_solution(rt: HostRuntime) -> Result<(), Fail> {
    for workers in ["1", "2", "7", "32"] {
        for (source, table) in [("", "0: 0\n"), TABLE] {
            let words = ["facts", "in", "--workers", workers];
            let (end, text, output) = printed(&rt, rt.alloc(), &words, source, &[])?;
            assert_eq!(rt; end, 0);
            assert_eq!(rt; text.len(), 0);
            assert_eq!(rt; output.as_slice(), table.as_bytes(), "{workers}");
        }
    }
    Ok(())
}

#[test]
fn nothing_is_printed_after_a_failed_call(rt: HostRuntime) -> Result<(), Fail> {
    let rows: [(&[&str], u64, &str); 3] = [
        (&["facts", "in"], 3, "0:"),
        (&["facts", "in"], 20, "0: 1\n1: 0\n2: 1\n3: 6"),
        (&["make", "0"], 8, "source "),
    ];
    for (words, call, front) in rows {
        let (end, text, output) = printed(&rt, rt.alloc(), words, TABLE.0, &[call])?;
        assert_eq!(rt; end, 73);
        assert_eq!(rt; text.len(), 0);
        assert_eq!(rt; output.as_slice(), front.as_bytes());
    }
    Ok(())
}

#[test]
fn rows_have_a_limit(rt: HostRuntime) -> Result<(), Fail> {
    for (count, end, text) in [
        (65_535usize, 0u8, ""),
        (65_536, 66, "too large: rows 65537\n"),
    ] {
        let mut source = Bytes::new(rt.alloc());
        for _ in 0..count {
            source.extend_from_slice(b"1 ")?;
        }
        let mut shelf = MemShelf::new(rt.alloc())?;
        shelf.add("in", source.as_slice(), 0)?;
        let mut console = MemConsole::new(rt.alloc(), b"", 0x10_0000, &[])?;
        let words = words_of(rt.alloc(), &["facts", "in"])?;
        let answer = stalin(&rt, rt.alloc(), &words, &mut shelf, &mut console, &OpenGate);
        assert_eq!(rt; status(&answer), end);
        assert_eq!(rt; console.errors(), text.as_bytes());
    }
    Ok(())
}

#[test]
fn numbers_are_those_of_the_program(rt: HostRuntime) -> Result<(), Fail> {
    let alloc = rt.alloc();
    let compiled = report_of(&rt, alloc, &["compile", "in", "out"], b"", &[])?;
    let image = compiled.out.len();
    let numbers = format!(in alloc; "source 0\nrows 1\natoms 10\nrules 1\nimage {image}\n")?;
    let (end, _text, output) = printed(&rt, alloc, &["make", "0"], "", &[])?;
    assert_eq!(rt; end, 0);
    assert_eq!(rt; output.as_slice(), numbers.as_bytes());
    let (_end, _text, one) = printed(&rt, alloc, &["make", "200"], "", &[])?;
    let (_end, _text, seven) = printed(&rt, alloc, &["make", "200", "--workers", "7"], "", &[])?;
    assert!(rt; one.as_slice().starts_with(b"source 13685\n"));
    assert_eq!(rt; seven.as_slice(), one.as_slice());
    let (end, text, _output) = printed(&rt, alloc, &["make", "1001"], "", &[])?;
    assert_eq!(rt; end, 64);
    assert_eq!(rt; text.as_slice(), b"usage: word 2\n".as_slice());
    Ok(())
}

/// Which worker was the first to pass with a block, where none has yet.
const NONE: u32 = 99;

/// A gate that holds the first worker to come until another one has come, but not for ever, and notes which
/// worker was the first to pass with each of two blocks.
#[derive(Drop)]
struct Meeting {
    passes: AtomicU32,
    met: AtomicU32,
    one: AtomicU32,
    two: AtomicU32,
}

impl Gate for Meeting {
    fn pass(&self, worker: u32, block: u32) {
        let first = if block == 0 { &self.one } else { &self.two };
        let _noted = first.compare_exchange(NONE, worker, Ordering::SeqCst, Ordering::SeqCst);
        if self.passes.fetch_add(1, Ordering::SeqCst) > 0 {
            return;
        }
        for _ in 0..200_000_000 {
            if self.passes.load(Ordering::SeqCst) >= 2 {
                self.met.store(1, Ordering::SeqCst);
                return;
            }
        }
    }
}

#[test]
fn two_workers_meet(rt: HostRuntime) -> Result<(), Fail> {
    let alloc = rt.alloc();
    let gate = Meeting {
        passes: AtomicU32::new(0),
        met: AtomicU32::new(0),
        one: AtomicU32::new(NONE),
        two: AtomicU32::new(NONE),
    };
    let mut source = Bytes::new(alloc);
    for _ in 0..1_500 {
        source.extend_from_slice(b"1 ")?;
    }
    let mut shelf = MemShelf::new(alloc)?;
    shelf.add("in", source.as_slice(), 0)?;
    let mut tables = [Bytes::new(alloc), Bytes::new(alloc)];
    for (at, workers) in [(0usize, "1"), (1, "2")] {
        let words = words_of(alloc, &["facts", "in", "--workers", workers])?;
        let mut console = MemConsole::new(alloc, b"", 0x1_0000, &[])?;
        let answer = if at == 0 {
            stalin(&rt, alloc, &words, &mut shelf, &mut console, &OpenGate)
        } else {
            stalin(&rt, alloc, &words, &mut shelf, &mut console, &gate)
        };
        assert_eq!(rt; status(&answer), 0);
        tables[at].extend_from_slice(console.output())?;
    }
    assert_eq!(rt; tables[0].as_slice(), tables[1].as_slice());
    assert_eq!(rt; gate.met.load(Ordering::SeqCst), 1);
    let (one, two) = (
        gate.one.load(Ordering::SeqCst),
        gate.two.load(Ordering::SeqCst),
    );
    assert!(rt; one < 2 && two < 2 && one != two);
    Ok(())
}
