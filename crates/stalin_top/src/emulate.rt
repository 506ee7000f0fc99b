ghost use Rattle.std.specs.Prelude.{◌≡◌, ◌≤◌, ◌^◌, length, IfOk, IfErr};
ghost use Rattle.elf_write.specs.Reading.{HoldsImage};
ghost use Rattle.elf_write.specs.Valid.{IsValid};
ghost use Rattle.stalin_outside.specs.Causes.{HasCause};
ghost use Rattle.stalin_outside.specs.Shelf.{SameFiles};
ghost use Rattle.stalin_top.specs.Emulate.{Begins, Emulation, IsAskedForImage, IsNoImage, IsRun};

use crate::Answer;
use elf_write::ElfErr;
use rv_emulator::{Machine, RunEnd, load};
use rv_form::Image;
use scheme_base::{Bytes, Limit, LimitKind};
use stalin_outside::{
    Console, Reading, Shelf, answers_are_of_an_environment, console_shows_the_trace, read_file,
};
use std::alloc::Global;

/// The most bytes that an image file may have.
const MOST: usize = 0x8000_0000;

/// What an image file of more bytes than there may be passes.
const LIMIT: Limit = Limit {
    which: LimitKind::File,
    count: MOST as u64 + 1,
};

/// Emulates the image in the file `image` on the console, for so many steps at most.
pub(crate) fn emulate<H: Shelf, C: Console>(
    alloc: Global,
    shelf: &mut H,
    console: &mut C,
    image: &str,
    steps: u64,
) -> Answer
    ensures files { SameFiles (H.files shelf.old) (H.files shelf.new) }
    ensures asks { IsAskedForImage image.now result (H.asks shelf.old) (H.asks shelf.new) }
    ensures cause { HasCause (H.faults shelf.old) (H.faults shelf.new) (result ≡ Answer.FileFault) }
    ensures run { Emulation (H.files shelf.old) image.now steps result
        (C.told console.old) (C.told console.new) }
{
    match read_file(alloc, shelf, image, MOST) {
        Reading::Whole(file) => emulate_file(alloc, console, file, steps),
        Reading::TooLong => Answer::TooLarge(LIMIT),
        Reading::Fault => Answer::FileFault,
        Reading::NoMemory => Answer::NoMemory,
    }
}

/// Emulates the image that the bytes of a file are.
pub(crate) fn emulate_file<C: Console>(
    alloc: Global,
    console: &mut C,
    bytes: Bytes,
    steps: u64,
) -> Answer
    ensures { IsRun bytes steps result
        (C.told console.old) (C.told console.new) }
{
    let mut machine = match machine_of(alloc, bytes) {
        Ok(machine) => machine,
        Err(answer) => return answer,
    };
    answers_are_of_an_environment();
    console_shows_the_trace();
    match machine.run(steps, console) {
        RunEnd::Ended { status } => Answer::Image { status },
        RunEnd::Spent { steps } => Answer::Spent { steps },
        RunEnd::Trapped { kind, pc } => Answer::Trapped { kind, pc },
    }
}

/// The machine at the start of the image that the bytes of a file are, or why there is none. The bytes are dropped
/// before it is made, and the image before it runs.
fn machine_of(alloc: Global, bytes: Bytes) -> Result<Machine, Answer>
    ensures machine { IfOk result (Begins bytes) }
    ensures answer { IfErr result (IsNoImage bytes) }
{
    let image = match read_image(alloc, bytes) {
        Ok(image) => image,
        Err(answer) => return Err(answer),
    };
    match load(alloc, &image) {
        Ok(machine) => Ok(machine),
        Err(_) => Err(Answer::NoMemory),
    }
}

/// The image that the bytes of a file are, which are dropped, or why there is none.
fn read_image(alloc: Global, bytes: Bytes) -> Result<Image, Answer>
    ensures image { IfOk result (HoldsImage bytes) }
    ensures valid { IfOk result IsValid }
    ensures answer { IfErr result (IsNoImage bytes) }
{
    image_of(alloc, bytes.as_slice())
}

fn image_of(alloc: Global, bytes: &[u8]) -> Result<Image, Answer>
    ensures image { IfOk result (HoldsImage bytes.now) }
    ensures valid { IfOk result IsValid }
    ensures answer { IfErr result (IsNoImage bytes.now) }
{
    match elf_write::read(alloc, bytes) {
        Ok(image) => Ok(image),
        Err(ElfErr::NoMemory) => Err(Answer::NoMemory),
        Err(err) => Err(Answer::BadImage(err)),
    }
}
