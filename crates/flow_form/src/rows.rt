ghost use Rattle.std.specs.Prelude.{◌≡◌, ℕ, ◌<◌, ◌↔◌, length, replicate, IfOk};
ghost use Rattle.bit_rows.specs.Members.{IsMember};
ghost use Rattle.flow_form.specs.Shape.{HasShape, In, size_of, stride_of};

use crate::Constraints;
use scheme_base::Numbers;
use std::alloc::{AllocError, Global};

/// A set of (row, atom) pairs, kept as bits.
///
/// Atom `a` of row `r` is bit `a % 64` of word `r * stride + a / 64`.
#[derive(Debug, Drop)]
pub struct Rows {
    /// The words of one row.
    pub stride: u32,
    pub words: Numbers,
}

/// Rows of the shape of the constraints that have no pair.
pub fn no_pairs(alloc: Global, c: &Constraints) -> Result<Rows, AllocError>
    ensures shape { IfOk result (HasShape c.now) }
    ensures none { IfOk result (λ rows. rows.words ≡ replicate (size_of c.now) 0) }
{
    let words = vec![in alloc; 0; c.size() as usize]?;
    Ok(Rows {
        stride: c.stride(),
        words: Numbers::from_vec(words),
    })
}

/// The words of one row, of those of all rows.
pub fn row_of<'a>(c: &Constraints, words: &'a [u64], row: u32) -> &'a [u64]
    requires size { length words.now ≡ size_of c.now }
    requires there { row < c.now.rows }
    ensures size { length result.now ≡ stride_of c.now }
    ensures members { (atom : ℕ) → IsMember result.now atom ↔ In c.now words.now row atom }
{
    let stride = c.stride() as usize;
    let start = row as usize * stride;
    &words[start..start + stride]
}
