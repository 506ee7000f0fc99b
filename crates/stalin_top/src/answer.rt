ghost use Rattle.std.specs.Prelude.{◌≡◌};
ghost use Rattle.stalin_top.specs.Answer.{status_of};

use datum_form::FormErr;
use datum_reader::ReadErr;
use elf_write::ElfErr;
use scheme_base::Limit;

/// Why a source is refused; it is never want of memory, nor a limit.
#[derive(Debug, Drop)]
pub enum Refusal {
    /// The text does not read as data.
    Read(ReadErr),
    /// A form is broken.
    Form(FormErr),
}

/// What a command answers.
#[derive(Debug, Drop)]
pub enum Answer {
    /// The command did what it is to do.
    Done,
    /// The words break the command's grammar first at this word, counted from 1.
    Usage { word: u32 },
    /// The source is no program.
    Refused(Refusal),
    /// The source or an image file passes a limit.
    TooLarge(Limit),
    /// A file could not be read or written.
    FileFault,
    /// The output did not take all that the command was to print.
    ConsoleFault,
    /// The bytes of an image file break a check; it is never want of memory.
    BadImage(ElfErr),
    /// The image was emulated for so many steps, and has not ended.
    Spent { steps: u64 },
    /// The image has no step from `pc` on, for the reason that the emulator's `RunEnd` gives.
    Trapped { kind: u8, pc: u64 },
    /// The image has ended with this status.
    Image { status: u8 },
    /// There was not enough memory.
    NoMemory,
}

/// The exit status of an answer.
pub fn status(answer: &Answer) -> u8
    ensures { result ≡ status_of answer.now }
{
    match answer {
        Answer::Done => 0,
        Answer::Usage { .. } => 64,
        Answer::Refused(_) => 65,
        Answer::TooLarge(_) => 66,
        Answer::FileFault => 74,
        Answer::ConsoleFault => 73,
        Answer::BadImage(_) => 76,
        Answer::Spent { .. } => 75,
        Answer::Trapped { .. } => 77,
        Answer::Image { status } => *status,
        Answer::NoMemory => 71,
    }
}
