//! The expander on two texts of 2^20 bytes, and the cores of programs in files.

use core_form::core_text;
use datum_form::FormErr;
use datum_reader::read_program;
use scheme_expand::expand;
use std::alloc::{AllocError, AllocGlobal, Global};
use std::io::Print;
use std::rt::Files;
use std::{fs, io};

/// How many bytes a text has.
const LENGTH: usize = 1 << 20;

/// Many small definitions.
pub(crate) fn definitions<R: AllocGlobal + Print>(rt: &R) -> io::Result<()> {
    let text = repeated(
        rt.alloc(),
        b"(define (f x) (if (< x 2) x (+ (f (- x 1)) 2)))\n",
    )?;
    let count = count(rt.alloc(), &text);
    println!(rt; "definitions: {count} expressions")
}

/// One `and` of as many operands as fit.
pub(crate) fn operands<R: AllocGlobal + Print>(rt: &R) -> io::Result<()> {
    let text = and_text(rt.alloc())?;
    let count = count(rt.alloc(), &text);
    println!(rt; "operands: {count} expressions")
}

/// The text of the core of the program in a file.
pub(crate) fn file<R: AllocGlobal + Files + Print>(rt: &R, name: &str) -> io::Result<()> {
    let text = fs::read(rt, name)?;
    let answer = answer(rt.alloc(), &text)?;
    rt.write_all(&answer)
}

/// The text of a program's core, or its first broken form.
fn answer(alloc: Global, text: &[u8]) -> Result<Vec<u8>, AllocError> {
    let Ok(datums) = read_program(alloc, text) else {
        return Vec::from_slice(alloc, b"not read\n");
    };
    match expand(alloc, &datums) {
        Ok(core) => core_text(alloc, &core),
        Err(FormErr::Broken { pos, rule }) => {
            let (line, col) = (pos.line, pos.col);
            let told = format!(in alloc; "rule {rule} at {line}:{col}\n")?;
            Vec::from_slice(alloc, told.as_bytes())
        }
        Err(FormErr::NoMemory) => Vec::from_slice(alloc, b"no memory\n"),
    }
}

/// How many expressions a program's core has; 0 where it has none.
fn count(alloc: Global, text: &[u8]) -> usize {
    let Ok(datums) = read_program(alloc, text) else {
        return 0;
    };
    match expand(alloc, &datums) {
        Ok(core) => core.exprs.len(),
        Err(_) => 0,
    }
}

/// A text of one line, as often as it fits, and spaces.
fn repeated(alloc: Global, line: &[u8]) -> Result<Vec<u8>, AllocError> {
    let mut text = Vec::new(alloc);
    for _line in 0..LENGTH / 48 {
        text.extend_from_slice(line)?;
    }
    text.resize(LENGTH, b' ')?;
    Ok(text)
}

/// The text of one `and` of many operands.
fn and_text(alloc: Global) -> Result<Vec<u8>, AllocError> {
    let mut text = Vec::new(alloc);
    text.extend_from_slice(b"(and")?;
    for _operand in 0..LENGTH / 2 - 3 {
        text.extend_from_slice(b" 1")?;
    }
    text.push(b')')?;
    Ok(text)
}
