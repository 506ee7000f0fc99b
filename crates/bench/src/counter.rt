//! A gate that counts how often it is passed, that is, how many blocks are done.

use stalin_outside::Gate;
use std::sync::atomic::{AtomicU32, Ordering};

#[derive(Drop)]
pub(crate) struct Counter {
    passes: AtomicU32,
}

impl Counter {
    pub(crate) fn new() -> Counter {
        Counter {
            passes: AtomicU32::new(0),
        }
    }

    pub(crate) fn passes(&self) -> u32 {
        self.passes.load(Ordering::SeqCst)
    }
}

impl Gate for Counter {
    fn pass(&self, _worker: u32, _block: u32) {
        self.passes.fetch_add(1, Ordering::SeqCst);
    }
}
