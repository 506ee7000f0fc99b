//! The data words of a small flat program.

use const_data::{Label, Word, static_words};
use flat_form::{Cells, Flat, FlatParts, FlatProc, FlatProcs};
use scheme_base::{Bytes, Ids, Lit, Lits};
use std::alloc::{AllocError, Global};
use std::test::Fail;

/// A procedure without code.
fn procedure(alloc: Global, reached: bool, greatest: Option<u32>) -> FlatProc {
    FlatProc {
        reached,
        capturing: false,
        slots: 1,
        least: 0,
        greatest,
        parts: FlatParts::new(alloc),
    }
}

/// `(a . a)`, `"b"` and a vector of this string.
fn literals(alloc: Global) -> Result<Lits, AllocError> {
    let mut lits = Lits::new(alloc);
    lits.push(Lit::Pair(1, 2))?;
    lits.push(Lit::Symbol(Bytes::from_slice(alloc, b"a".as_slice())?))?;
    lits.push(Lit::Symbol(Bytes::from_slice(alloc, b"a".as_slice())?))?;
    lits.push(Lit::Text(Bytes::from_slice(alloc, b"b".as_slice())?))?;
    lits.push(Lit::Vector(Ids::from_slice(alloc, [3u32].as_slice())?))?;
    Ok(lits)
}

/// A program of a reached procedure and one that is never reached.
fn program(alloc: Global) -> Result<Flat, AllocError> {
    let mut procs = FlatProcs::new(alloc);
    procs.push(procedure(alloc, true, Some(0)))?;
    procs.push(procedure(alloc, false, None))?;
    Ok(Flat {
        procs,
        cells: Cells {
            tops: 1,
            globals: 1,
        },
        lits: literals(alloc)?,
    })
}

/// The address of a data word with a tag.
fn tagged(word: u32, tag: u64) -> Word {
    Word::Address {
        label: Label::Word(word),
        add: tag,
    }
}

/// The words behind the support words, which are the same in every program.
fn expected() -> [Word; 23] {
    let entry = Label::Entry {
        proc: 0,
        part: 0,
        list: false,
    };
    [
        Word::Number(0),
        Word::Number(25),
        Word::Number(0),
        Word::Address {
            label: entry,
            add: 0,
        },
        Word::Number(0),
        Word::Number(0),
        Word::Number(0),
        Word::Number(0),
        Word::Number(0),
        Word::Number(0),
        Word::Number(u64::MAX),
        tagged(19, 0),
        tagged(23, 0),
        Word::Number(3),
        tagged(31, 3),
        Word::Number(9),
        Word::Number(32 * 97 + 29),
        tagged(29, 3),
        tagged(29, 3),
        Word::Number(9),
        Word::Number(32 * 98 + 29),
        Word::Number(10),
        tagged(35, 3),
    ]
}

#[test]
fn words_of_a_small_program(rt: HostRuntime) -> Result<(), Fail> {
    let words = static_words(rt.alloc(), &program(rt.alloc())?)?;
    let Some(others) = words.as_slice().get(16..) else {
        return Err(AllocError.into());
    };
    assert!(rt; others == expected().as_slice());
    Ok(())
}
