//! Graphs, number by number.

ghost use Rattle.std.specs.Prelude.{◌≡◌, ℕ, List, IfOk};

use scheme_base::Ids;
use std::alloc::{AllocError, Global};

/// A graph of numbers.
pub trait Graph {
    /// The numbers that a number leads to.
    ghost leads: { Self → ℕ → List ℕ };

    /// The numbers that a number leads to.
    fn next(&self, alloc: Global, number: u32) -> Result<Ids, AllocError>
        ensures { IfOk result (λ numbers. numbers ≡ leads self.now number) };
}
