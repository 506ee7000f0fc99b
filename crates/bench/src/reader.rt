//! The reader on two texts of 2^20 bytes: lists nested 1,000 deep, and one long list of names.

use datum_reader::{ReadErr, read_program};
use std::alloc::{AllocError, AllocGlobal, Global};
use std::io;
use std::io::Print;

/// How many bytes a text has.
const LENGTH: usize = 1 << 20;

pub(crate) fn nested<R: AllocGlobal + Print>(rt: &R) -> io::Result<()> {
    let text = nested_lists(rt.alloc())?;
    read(rt, "nested", &text)
}

pub(crate) fn names<R: AllocGlobal + Print>(rt: &R) -> io::Result<()> {
    let text = list_of_names(rt.alloc())?;
    read(rt, "names", &text)
}

fn read<R: AllocGlobal + Print>(rt: &R, what: &str, text: &[u8]) -> io::Result<()> {
    let bytes = text.len();
    match read_program(rt.alloc(), text) {
        Ok(datums) => {
            let nodes = datums.nodes.len();
            println!(rt; "{what}: {bytes} bytes, {nodes} nodes")
        }
        Err(ReadErr::NoMemory) => println!(rt; "{what}: no memory"),
        Err(_) => println!(rt; "{what}: a fault"),
    }
}

/// Lists nested 1,000 deep, one after another, and spaces up to the length.
fn nested_lists(alloc: Global) -> Result<Vec<u8>, AllocError> {
    let mut text = Vec::new(alloc);
    for _list in 0..LENGTH / 2000 {
        for _level in 0..1000 {
            text.push(b'(')?;
        }
        for _level in 0..1000 {
            text.push(b')')?;
        }
    }
    text.resize(LENGTH, b' ')?;
    Ok(text)
}

/// One list of names of one letter.
fn list_of_names(alloc: Global) -> Result<Vec<u8>, AllocError> {
    let mut text = Vec::new(alloc);
    text.push(b'(')?;
    for _name in 0..LENGTH / 2 - 1 {
        text.push(b'a')?;
        text.push(b' ')?;
    }
    text.push(b')')?;
    Ok(text)
}
