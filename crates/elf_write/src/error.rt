ghost use Rattle.std.specs.Prelude.{◌≡◌};
ghost use Rattle.elf_write.specs.declared.error.ElfErr.TheVariants.{NoMemory};

use std::alloc::AllocError;
use thiserror::Error;

/// Why bytes are no file of an image: the first check that they fail, in the order that `specs/Reading`
/// gives.
#[derive(Clone, Copy, Debug, PartialEq, Eq, Error)]
pub enum ElfErr {
    /// The file's header, or a program header, does not lie in the file.
    #[error("the file is too short")]
    Short,
    /// The file is no little-endian ELF file of 64 bits.
    #[error("this is no ELF file of 64 bits")]
    Magic,
    /// The file is no RISC-V program with 1 to 16 program headers.
    #[error("this is no RISC-V program")]
    Kind,
    /// This program header, counted from 0, may not be taken.
    #[error("program header {index} cannot be loaded")]
    Segment { index: u16 },
    /// The entry is no multiple of 4 in a segment that may be executed.
    #[error("the entry cannot be executed")]
    Entry,
    #[error("out of memory")]
    NoMemory,
}

impl From<AllocError> for ElfErr {
    ghost from_gives = { λ _ err. err ≡ NoMemory };

    fn from(_err: AllocError) -> ElfErr {
        ElfErr::NoMemory
    }
}
