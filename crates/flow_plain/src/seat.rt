ghost use Rattle.std.specs.Prelude.{◌≡◌, ◌/◌, ◌<◌, length, IfOk};
ghost use Rattle.flow_form.specs.Race.{finishing, growing, loading, new_worker};

use flow_form::Constraints;
use std::alloc::{AllocError, Global};
use std::marker::Model;

/// A worker of a race: contracts see what it has loaded, grown and done.
#[derive(Drop)]
pub(crate) struct Seat {
    loaded: Vec<u64>,
    grown: Vec<u64>,
    done: Vec<u64>,
}

impl Model for Seat {
    ghost use Rattle.flow_form.specs.declared.event.Worker.{Worker};

    ghost Value = { Worker };

    ghost view = { λ seat. record { loaded = seat.loaded.items; grown = seat.grown.items; done = seat.done.items } };
}

impl Seat {
    /// A worker with nothing.
    pub(crate) fn new(alloc: Global, c: &Constraints) -> Result<Seat, AllocError>
        ensures { IfOk result (λ seat. seat ≡ new_worker c.now) }
    {
        let size = c.size() as usize;
        let done_size = c.blocks().div_ceil(64) as usize;
        let loaded = vec![in alloc; 0; size]?;
        let grown = vec![in alloc; 0; size]?;
        let done = vec![in alloc; 0; done_size]?;
        Ok(Seat {
            loaded,
            grown,
            done,
        })
    }

    pub(crate) fn loaded(&self) -> &[u64]
        ensures { result.now ≡ self.now.loaded }
    {
        self.loaded.as_slice()
    }

    pub(crate) fn grown(&self) -> &[u64]
        ensures { result.now ≡ self.now.grown }
    {
        self.grown.as_slice()
    }

    /// Notes the bits of a word as loaded.
    pub(crate) fn load(&mut self, word: u32, bits: u64)
        requires { word < length self.old.loaded }
        ensures { self.new ≡ loading word bits self.old }
    {
        self.loaded[word as usize] |= bits;
    }

    /// Notes the bits of a word as grown.
    pub(crate) fn grow(&mut self, word: u32, bits: u64)
        requires { word < length self.old.grown }
        ensures { self.new ≡ growing word bits self.old }
    {
        self.grown[word as usize] |= bits;
    }

    /// Notes a block as done.
    pub(crate) fn finish(&mut self, block: u32)
        requires { block / 64 < length self.old.done }
        ensures { self.new ≡ finishing block self.old }
    {
        self.done[block as usize / 64] |= 1 << (block % 64);
    }
}
