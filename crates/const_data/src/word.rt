use scheme_base::List;

/// What an address is of. Routines, procedures, parts and words are counted from 0.
#[derive(Clone, Copy, Debug, PartialEq, Eq, Hash)]
pub enum Label {
    /// The routine of this number, in the order of the routines' text.
    Routine(u32),
    /// Where a procedure's part is entered: with the operands in the argument words, or as a list.
    Entry { proc: u32, part: u32, list: bool },
    /// The code of a procedure's part behind its entries.
    Body { proc: u32, part: u32 },
    /// A place inside the code of a procedure.
    Inner { proc: u32, number: u32 },
    /// The data word of this number.
    Word(u32),
    /// The first byte of the heap.
    HeapStart,
    /// The first byte past the heap.
    HeapEnd,
}

/// A word of 64 bits in an image's data.
#[derive(Clone, Copy, Debug, PartialEq, Eq)]
pub enum Word {
    Number(u64),
    /// The address of a label, and `add` more: the tag of the object that stands there.
    Address { label: Label, add: u64 },
}

/// Words of data in the order of their addresses.
pub type Data = List<Word>;
