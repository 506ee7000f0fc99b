//! What a row says.

use rv_asm::Routine;
use scheme_base::{Bytes, List};
use std::alloc::Global;

/// A word: a number, or an address by which data word or by how far it lies from an end of the heap.
#[derive(Clone, Copy, Debug)]
pub(crate) enum Value {
    Number(u64),
    Data(u32, i64),
    Start(i64),
    End(i64),
}

/// A call of a routine with these words in registers 10 to 13.
#[derive(Debug, Drop)]
pub(crate) struct Step {
    pub(crate) routine: Routine,
    pub(crate) operands: List<Value>,
}

/// How a row ends.
#[derive(Debug, Drop)]
pub(crate) enum Ends {
    /// Register 10 has the first of these, and the words from the address of its object on are the others.
    Shows(List<Value>),
    /// The procedure or the return point that is entered shows these.
    Called(List<Value>),
    /// The error of this number is reported.
    Error(u8),
    Storage,
    Io,
}

/// A row. `failing` has the numbers of the calls of channels 0 and 1 that fail.
#[derive(Debug, Drop)]
pub(crate) struct Row {
    pub(crate) heap: u64,
    pub(crate) input: Bytes,
    pub(crate) failing: List<u64>,
    pub(crate) steps: List<Step>,
    pub(crate) ends: Ends,
    /// What is written before the end.
    pub(crate) output: Bytes,
}

impl Row {
    /// A row of which nothing is said.
    pub(crate) fn new(alloc: Global) -> Row {
        Row {
            heap: 65536,
            input: Bytes::new(alloc),
            failing: List::new(alloc),
            steps: List::new(alloc),
            ends: Ends::Shows(List::new(alloc)),
            output: Bytes::new(alloc),
        }
    }
}
