//! The routines on rows of operands at the edges: each row is an image of its own, run under the emulator.
//!
//! The rows are data on the standard input, and its head says what they mean. Their answers were worked out from
//! the form of words and objects, apart from the routines' text. What is printed is the line of each row that comes
//! out otherwise, and how many rows there are.
#![tactic(auto)]

mod image;
mod outcome;
mod reading;
mod row;

use datum_form::Datums;
use datum_reader::read_program;
use std::alloc::{AllocGlobal, Global};
use std::io;
use std::io::{Print, Read};

fn main(rt: HostRuntime) -> io::Result<()> {
    let mut text = Vec::new(rt.alloc());
    rt.stdin().read_to_end(&mut text)?;
    let Ok(datums) = read_program(rt.alloc(), text.as_slice()) else {
        return println!(rt; "the rows cannot be read");
    };
    print_rows(&rt, rt.alloc(), &datums)
}

/// Prints the line of each row that comes out otherwise, and how many rows there are.
fn print_rows<R: Print>(rt: &R, alloc: Global, datums: &Datums) -> io::Result<()> {
    for id in datums.tops.as_slice() {
        let row = reading::row_of(alloc, &datums.nodes, *id)?;
        if !outcome::agrees(alloc, &row)? {
            let line = reading::line_of(&datums.nodes, *id);
            println!(rt; "line {line} comes out otherwise")?;
        }
    }
    let count = datums.tops.len();
    println!(rt; "{count} rows")
}
