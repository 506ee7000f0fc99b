use scheme_base::{Bytes, List};

/// A stretch of memory that an image loads at `vaddr`: its bytes, and then zeros up to `memsz`.
///
/// In `flags` 4 lets its bytes be read, 2 be written and 1 be executed.
#[derive(Debug, Drop)]
pub struct Segment {
    pub vaddr: u64,
    pub memsz: u64,
    pub flags: u32,
    pub bytes: Bytes,
}

/// The segments of an image, in the order of its file.
pub type Segments = List<Segment>;

/// A program as it is loaded: its first instruction stands at `entry`.
#[derive(Debug, Drop)]
pub struct Image {
    pub entry: u64,
    pub segments: Segments,
}
