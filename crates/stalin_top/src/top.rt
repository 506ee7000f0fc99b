ghost use Rattle.std.specs.Prelude.{◌≡◌, Ok};
ghost use Rattle.stalin_outside.specs.Causes.{HasCause};
ghost use Rattle.stalin_top.specs.Command.{task_in};
ghost use Rattle.stalin_top.specs.Given.{IsReady, task_by};
ghost use Rattle.stalin_top.specs.Headline.{Does, Promise};
ghost use Rattle.stalin_top.specs.Outside.{outside};

use crate::Answer;
use crate::command::{Command, read_command};
use crate::compile::compile;
use crate::emulate::emulate;
use crate::facts::facts;
use crate::make::make;
use crate::run::run;
use crate::sending::tell;
use scheme_base::Words;
use stalin_outside::{Console, Gate, Shelf};
use std::alloc::{AllocGlobal, Global};
use std::thread::Threads;

/// Does what the words of a command say, and writes the answer's text to the error channel, up to the
/// first call that fails. `specs/Headline` says what it promises, one line a command.
///
/// `compile SOURCE IMAGE` reads the source in the file SOURCE and writes its image to the file IMAGE. `run SOURCE`
/// builds the same image and emulates it on the console. `emulate IMAGE` emulates the image in the file IMAGE.
/// `facts SOURCE` prints which atoms each row of the program holds. `make COUNT` prints how large a program of so
/// many procedures is, its analysis and its image.
/// `--workers W` is how many threads may work on a program, `--heap H` how many bytes its heap has, and
/// `--steps N` how many steps are emulated at most. Nothing but an emulated image reads the console's input, and
/// nothing else but `facts` and `make` writes to its output.
pub fn stalin<R: AllocGlobal + Threads + Sync, H: Shelf, C: Console, G: Gate>(
    rt: &R,
    alloc: Global,
    words: &Words,
    shelf: &mut H,
    console: &mut C,
    gate: &G,
) -> Answer
    ensures promise { Promise words.now result
        (outside (H.files shelf.old) (H.asks shelf.old) (H.faults shelf.old) (C.told console.old))
        (outside (H.files shelf.new) (H.asks shelf.new) (H.faults shelf.new) (C.told console.new)) }
{
    let answer = match read_command(words) {
        Err(word) => Answer::Usage { word },
        Ok(command) => run_command(rt, alloc, command, shelf, console, gate),
    };
    let _whole = tell(console, &answer);
    answer
}

/// Does what a command says.
fn run_command<R: AllocGlobal + Threads + Sync, H: Shelf, C: Console, G: Gate>(
    rt: &R,
    alloc: Global,
    command: Command<'_>,
    shelf: &mut H,
    console: &mut C,
    gate: &G,
) -> Answer
    requires { IsReady command }
    ensures does { Does (Ok (task_by command.entry)) result
        (outside (H.files shelf.old) (H.asks shelf.old) (H.faults shelf.old) (C.told console.old))
        (outside (H.files shelf.new) (H.asks shelf.new) (H.faults shelf.new) (C.told console.new)) }
    ensures fault { HasCause (H.faults shelf.old) (H.faults shelf.new) (result ≡ Answer.FileFault) }
{
    match command {
        Command::Compile {
            source,
            image,
            workers,
            heap,
        } => compile(rt, alloc, shelf, source, image, workers, heap, gate),
        Command::Run {
            source,
            workers,
            heap,
            steps,
        } => run(
            rt, alloc, shelf, console, source, workers, heap, steps, gate,
        ),
        Command::Emulate { image, steps } => emulate(alloc, shelf, console, image, steps),
        Command::Facts { source, workers } => {
            facts(rt, alloc, shelf, console, source, workers, gate)
        }
        Command::Make {
            count,
            workers,
            heap,
        } => make(rt, alloc, console, count, workers, heap, gate),
    }
}
