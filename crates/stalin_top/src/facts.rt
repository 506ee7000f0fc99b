ghost use Rattle.std.specs.Prelude.{◌≡◌};
ghost use Rattle.stalin_outside.specs.Causes.{HasCause};
ghost use Rattle.stalin_outside.specs.Shelf.{SameFiles};
ghost use Rattle.stalin_top.specs.Facts.{Outcome};
ghost use Rattle.stalin_top.specs.Given.{IsWorkable};
ghost use Rattle.stalin_top.specs.Source.{AsksSource};

use crate::Answer;
use crate::source::analyse_source;
use crate::table::print_table;
use stalin_outside::{Console, Gate, Shelf};
use std::alloc::{AllocGlobal, Global};
use std::thread::Threads;

/// Prints what the rows of the program in the file `source` hold: the least solution of its constraints.
pub(crate) fn facts<R: AllocGlobal + Threads + Sync, H: Shelf, C: Console, G: Gate>(
    rt: &R,
    alloc: Global,
    shelf: &mut H,
    console: &mut C,
    source: &str,
    workers: u32,
    gate: &G,
) -> Answer
    requires { IsWorkable workers }
    ensures files { SameFiles (H.files shelf.old) (H.files shelf.new) }
    ensures outcome { Outcome (H.files shelf.old) source.now result (C.told console.old) (C.told console.new) }
    ensures asks { AsksSource source.now result (H.asks shelf.old) (H.asks shelf.new) }
    ensures cause { HasCause (H.faults shelf.old) (H.faults shelf.new) (result ≡ Answer.FileFault) }
{
    let analysis = match analyse_source(rt, alloc, shelf, source, workers, gate) {
        Ok(analysis) => analysis,
        Err(answer) => return answer,
    };
    if print_table(console, &analysis.constraints, analysis.closed.rows()) {
        Answer::Done
    } else {
        Answer::ConsoleFault
    }
}
