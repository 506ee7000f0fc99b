use scheme_base::Numbers;

/// What one of several workers does to the shared words of the rows, in one atomic step.
#[derive(Clone, Copy, Debug, PartialEq, Eq)]
pub enum Event {
    /// A worker reads a word.
    Load { worker: u32, word: u32 },
    /// A worker sets the bits of a mask in a word.
    Or { worker: u32, word: u32, mask: u64 },
    /// A worker draws a number.
    Claim { worker: u32 },
    /// A worker is done with a block of rules.
    Done { worker: u32, block: u32 },
}

/// What a worker of the race knows and has done, as contracts see it.
///
/// `loaded` and `grown` have the bits that it found and set, word by word as the rows lie; `done` has
/// a bit for each block of rules.
#[derive(Debug, Drop)]
pub struct Worker {
    pub loaded: Numbers,
    pub grown: Numbers,
    pub done: Numbers,
}
