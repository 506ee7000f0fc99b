//! What the templates of a procedure know of it, of its steps and of the program.

ghost use Rattle.std.specs.Prelude.{◌≡◌, ◌+◌, IfOk, OnOk};

use const_data::{Label, Offsets};
use flat_form::Place;
use scheme_base::{Lits, Pos};
use std::alloc::AllocError;

/// The procedure whose code is made.
#[derive(Drop)]
pub(crate) struct Unit<'a> {
    pub(crate) proc: u32,
    pub(crate) capturing: bool,
    /// The bytes of its frame.
    pub(crate) frame: u64,
    pub(crate) lits: &'a Lits,
    /// Where the program's data words stand.
    pub(crate) offsets: &'a Offsets,
}

/// What the templates know of a step.
#[derive(Clone, Copy)]
pub(crate) struct Spot {
    /// The place that it binds.
    pub(crate) to: Place,
    /// The position that its errors name.
    pub(crate) pos: Pos,
    /// Whether its checks of types and counts stand.
    pub(crate) checked: bool,
}

/// The next of the procedure's inner labels.
pub(crate) fn fresh_label(proc: u32, labels: &mut u32) -> Result<Label, AllocError>
    ensures label { IfOk result (λ label. label ≡ Label.Inner proc labels.old) }
    ensures next { OnOk result (labels.new ≡ labels.old + 1) }
{
    let number = *labels;
    let Some(next) = number.checked_add(1) else {
        return Err(AllocError);
    };
    *labels = next;
    Ok(Label::Inner { proc, number })
}
