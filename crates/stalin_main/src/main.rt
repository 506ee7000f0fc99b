//! The program: hands the words, the files and the streams of its process to the top call, and ends with
//! the answer's status.
//!
//! What the real files and streams do is trusted; this crate is as small as it can be.
#![tactic(auto)]

mod arguments;

use stalin_outside::{Console, FileShelf, OpenGate, StdConsole};
use stalin_top::{stalin, status};
use std::alloc::{AllocError, AllocGlobal, Global};
use std::env::Env;
use std::process::ExitCode;
use std::rt::Files;
use std::thread::Threads;

/// The status where there is no memory for the words or the objects.
const NO_MEMORY: u8 = 71;

fn main(rt: HostRuntime) -> ExitCode {
    let alloc = rt.alloc();
    let ended = match StdConsole::new(rt.stdin(), rt.stdout(), rt.stderr()) {
        Ok(mut console) => run(&rt, alloc, &mut console),
        Err(error) => Err(error),
    };
    ExitCode::from(ended.unwrap_or(NO_MEMORY))
}

/// Does what the process's words say, and tells the status of the answer.
fn run<R, C>(rt: &R, alloc: Global, console: &mut C) -> Result<u8, AllocError>
where
    R: AllocGlobal + Env + Files + Threads + Sync + Clone + Drop,
    C: Console,
{
    let words = arguments::words(rt, alloc)?;
    let mut shelf = FileShelf::new(rt.clone()?, alloc)?;
    let answer = stalin(rt, alloc, &words, &mut shelf, console, &OpenGate);
    Ok(status(&answer))
}
