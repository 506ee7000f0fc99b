ghost use Rattle.std.specs.Prelude.{◌≡◌};
ghost use Rattle.stalin_outside.specs.Causes.{HasCause};
ghost use Rattle.stalin_outside.specs.Shelf.{SameFiles};
ghost use Rattle.stalin_top.specs.Given.{IsBuildable};
ghost use Rattle.stalin_top.specs.Run.{Outcome};
ghost use Rattle.stalin_top.specs.Source.{AsksSource};

use crate::Answer;
use crate::emulate::emulate_file;
use crate::source::build_source;
use scheme_base::Bytes;
use stalin_outside::{Console, Gate, Shelf};
use std::alloc::{AllocGlobal, Global};
use std::thread::Threads;

/// Builds the image of the program in the file `source`, and emulates it on the console for so many steps at
/// most.
pub(crate) fn run<R: AllocGlobal + Threads + Sync, H: Shelf, C: Console, G: Gate>(
    rt: &R,
    alloc: Global,
    shelf: &mut H,
    console: &mut C,
    source: &str,
    workers: u32,
    heap: u64,
    steps: u64,
    gate: &G,
) -> Answer
    requires { IsBuildable workers heap }
    ensures files { SameFiles (H.files shelf.old) (H.files shelf.new) }
    ensures outcome { Outcome (H.files shelf.old) source.now heap steps result (C.told console.old) (C.told console.new) }
    ensures asks { AsksSource source.now result (H.asks shelf.old) (H.asks shelf.new) }
    ensures cause { HasCause (H.faults shelf.old) (H.faults shelf.new) (result ≡ Answer.FileFault) }
{
    match build_source(rt, alloc, shelf, source, workers, heap, gate) {
        Ok(bytes) => emulate_file(alloc, console, Bytes::from_vec(bytes), steps),
        Err(answer) => answer,
    }
}
