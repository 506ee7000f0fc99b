//! How long the parts of the compiler take, each on one large piece of work.
//!
//! Each word asks for one: `chains` and `plain` the plain solver, `small` and a number from 1 to 4 so many workers,
//! `made`, `1000` and `1600` the workers beside a work list, `nested` and `names` the reader, `definitions` and
//! `operands` the expander, `turns`, `calls` and `strings` the emulator. Any other word is the name of a file with a
//! program, and the text of its core is printed. What is printed is the same on every machine, but for the rounds of
//! workers, and the times and blocks that `1000` and `1600` print; other times are taken from outside, as
//! `time` does.
#![tactic(auto)]

mod beside;
mod counter;
mod emulator;
mod expander;
mod made;
mod ones;
mod plain;
mod program;
mod reader;
mod workers;
mod worklist;

use std::alloc::AllocGlobal;
use std::io::Print;
use std::rt::{Clock, Files};
use std::thread::Threads;
use std::{env, io};

fn main(rt: HostRuntime) -> io::Result<()> {
    let mut words = env::args(&rt)?;
    let _program = words.next();
    for word in words {
        work(&rt, word.as_str())?;
    }
    Ok(())
}

fn work<R: AllocGlobal + Clock + Files + Print + Threads + Sync>(
    rt: &R,
    word: &str,
) -> io::Result<()> {
    match word {
        "chains" => plain::chains(rt),
        "plain" => workers::plain(rt),
        "small" => workers::small(rt),
        "1" => workers::large(rt, 1),
        "2" => workers::large(rt, 2),
        "4" => workers::large(rt, 4),
        "made" => beside::small(rt),
        "1000" => beside::large(rt, 1_000),
        "1600" => beside::large(rt, 1_600),
        "nested" => reader::nested(rt),
        "names" => reader::names(rt),
        "definitions" => expander::definitions(rt),
        "operands" => expander::operands(rt),
        "turns" => emulator::turns(rt),
        "calls" => emulator::calls(rt),
        "strings" => emulator::strings(rt),
        name => expander::file(rt, name),
    }
}
