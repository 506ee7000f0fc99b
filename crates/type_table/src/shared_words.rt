//! The rule of the shared words, and what each step on them tells.
ghost use Rattle.std.specs.Prelude.{ℕ};
ghost use Rattle.type_table.specs.SharedWords.{Claims, Finishes, Grows, Loads, joined_view, spent_view};

use atomic_table::{Join, Play, Split, TableRule};
use flow_form::{Constraints, Worker};
use scheme_base::Numbers;
use std::marker::{Brand, PhantomData};
use std::snapshot::Snapshot;

/// What a pass knows, as contracts see it: the constraints and the base of its table, and what it has
/// loaded, grown and done. No value of it is made.
///
/// A pass that another has taken in is not live.
pub struct View {
    pub live: bool,
    pub constraints: Constraints,
    pub base: Numbers,
    pub worker: Worker,
}

/// What a table is told when it is opened, for contracts alone.
#[derive(Drop)]
pub(crate) struct Key {
    pub constraints: Snapshot<Constraints>,
    pub base: Snapshot<Numbers>,
}

/// The rule of the words that passes share.
pub(crate) struct SharedWords;

impl TableRule<u8, View, Key> for SharedWords {
    ghost use Rattle.type_table.specs.SharedWords.{IsRuled, first_view};

    ghost holds = { λ key s. IsRuled key.constraints.value key.base.value s };

    ghost first = { λ key. first_view key.constraints.value key.base.value };
}

pub(crate) struct Load;

impl Play<u8, View> for Load {
    ghost then = { Loads };
}

pub(crate) struct Grow;

impl Play<u8, View> for Grow {
    ghost then = { Grows };
}

/// Names a block of rules.
pub(crate) trait Named {
    ghost block: { ℕ };
}

impl Named for Brand {
    ghost block = { 0 };
}

pub(crate) struct Finish<B> {
    of: PhantomData<B>,
}

impl<B: Named> Play<u8, View> for Finish<B> {
    ghost then = { Finishes B.block };
}

pub(crate) struct Claim;

impl Play<u8, View> for Claim {
    ghost then = { Claims };
}

pub(crate) struct Copy;

impl Split<View> for Copy {
    ghost left = { λ view. view };

    ghost right = { λ view. view };
}

pub(crate) struct Gather;

impl Join<View> for Gather {
    ghost both = { joined_view };

    ghost spent = { spent_view };
}
