ghost use Rattle.std.specs.Prelude.{◌≡◌};
ghost use Rattle.stalin_outside.specs.Causes.{HasCause};
ghost use Rattle.stalin_top.specs.Compile.{Outcome, IsAsked};
ghost use Rattle.stalin_top.specs.Given.{IsBuildable};

use crate::Answer;
use crate::source::build_source;
use stalin_outside::{Gate, Shelf, Writing, write_file};
use std::alloc::{AllocGlobal, Global};
use std::thread::Threads;

/// Writes the image of the program in the file `source` to the file `image`.
pub(crate) fn compile<R: AllocGlobal + Threads + Sync, H: Shelf, G: Gate>(
    rt: &R,
    alloc: Global,
    shelf: &mut H,
    source: &str,
    image: &str,
    workers: u32,
    heap: u64,
    gate: &G,
) -> Answer
    requires { IsBuildable workers heap }
    ensures outcome { Outcome source.now image.now heap result (H.files shelf.old) (H.files shelf.new) }
    ensures asks { IsAsked source.now image.now result (H.asks shelf.old) (H.asks shelf.new) }
    ensures cause { HasCause (H.faults shelf.old) (H.faults shelf.new) (result ≡ Answer.FileFault) }
{
    let bytes = match build_source(rt, alloc, shelf, source, workers, heap, gate) {
        Ok(bytes) => bytes,
        Err(answer) => return answer,
    };
    match write_file(shelf, image, bytes.as_slice()) {
        Writing::Done => Answer::Done,
        Writing::Fault => Answer::FileFault,
        Writing::NoMemory => Answer::NoMemory,
    }
}
