//! What the workers have grown and nobody has followed yet.
//!
//! Every worker puts rows here and takes them, whoever grew them, so that all are at work as long as something waits.
//! Like the index, this is under no clause: a row that is left here is left to the next round.

use crate::found::Bits;
use flow_form::Constraints;
use std::alloc::{AllocError, Global};
use std::sync::atomic::{AtomicU32, AtomicU64, Ordering};

/// The rows that wait to be followed, a bit for each, and what has grown in them: a mask for each word, which new
/// bits join until its row is taken.
#[derive(Drop)]
pub(crate) struct Waiting {
    stride: u32,
    rows: Bits,
    masks: Vec<AtomicU64>,
    /// How many workers may still put a row here.
    busy: AtomicU32,
}

impl Waiting {
    /// A list on which nothing waits.
    pub(crate) fn new(alloc: Global, c: &Constraints) -> Result<Waiting, AllocError> {
        let mut masks = Vec::with_capacity(alloc, c.size() as usize)?;
        for _ in 0..c.size() {
            masks.push(AtomicU64::new(0))?;
        }
        Ok(Waiting {
            stride: c.stride(),
            rows: Bits::new(alloc, c.rows as usize)?,
            masks,
            busy: AtomicU32::new(0),
        })
    }

    /// A list that takes nothing.
    pub(crate) fn none(alloc: Global) -> Waiting {
        Waiting {
            stride: 1,
            rows: Bits::none(alloc),
            masks: Vec::new(alloc),
            busy: AtomicU32::new(0),
        }
    }

    /// Puts bits that were set in a word: first the bits, then their row, so that whoever takes the row finds them.
    pub(crate) fn put(&self, word: u32, bits: u64) {
        if let Some(mask) = self.masks.as_slice().get(word as usize) {
            mask.fetch_or(bits, Ordering::SeqCst);
        }
        self.rows.set(word as usize / self.stride.max(1) as usize);
    }

    /// Takes the next row that waits, from one on or else from the first on.
    pub(crate) fn take_row(&self, from: u32) -> Option<u32> {
        let row = match self.rows.take_from(from as usize) {
            Some(row) => row,
            None => self.rows.take_from(0)?,
        };
        u32::try_from(row).ok()
    }

    /// Takes the mask of a word of a row.
    pub(crate) fn take_mask(&self, row: u32, at: usize) -> u64 {
        let first = row.wrapping_mul(self.stride) as usize;
        match self.masks.as_slice().get(first.wrapping_add(at)) {
            Some(mask) if mask.load(Ordering::SeqCst) != 0 => mask.swap(0, Ordering::SeqCst),
            _ => 0,
        }
    }

    /// A worker begins to grow and to follow rows.
    pub(crate) fn begin(&self) {
        self.busy.fetch_add(1, Ordering::SeqCst);
    }

    /// A worker finds no row that waits.
    pub(crate) fn end(&self) {
        self.busy.fetch_sub(1, Ordering::SeqCst);
    }

    /// Whether no worker may put a row here.
    pub(crate) fn all_rest(&self) -> bool {
        self.busy.load(Ordering::SeqCst) == 0
    }
}
