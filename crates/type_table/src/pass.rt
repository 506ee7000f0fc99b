ghost use Rattle.std.specs.Prelude.{◌<◌, ◌↔◌, IsTrue};
ghost use Rattle.bit_rows.specs.Members.{IsMember};
ghost use Rattle.flow_form.specs.Shape.{blocks_of};

use crate::shared_words::View;
use atomic_table::Seat;
use bit_rows::contains;
use std::marker::Model;

/// With what one thread steps on the words of a table. Contracts see which table it is of, and what the
/// thread has loaded, grown and done.
///
/// It holds a bit for each block of rules, which tells whether it has done the block.
#[derive(Drop)]
pub struct Pass {
    pub(crate) seat: Seat<u8, View>,
    pub(crate) done: Vec<u64>,
}

impl Model for Pass {
    ghost use Rattle.type_table.specs.Tables.{Held, IsHeld, codes};
    ghost use Rattle.type_table.specs.contracts.shared_words.View as seen;

    ghost Value = { Held };

    ghost coded = { Prim.hlevel (codes, seen.the_row.coded) };

    ghost view = { λ pass. record { table = pass.seat.table_id; view = pass.seat.me.0 } };

    ghost invariant = { λ pass. IsHeld pass.seat.me pass.done.items };
}

impl Pass {
    /// Whether this pass has done the block.
    pub fn has_done(&self, block: u32) -> bool
        requires there { block < blocks_of self.now.view.constraints }
        ensures { IsTrue result ↔ IsMember self.now.view.worker.done block }
    {
        contains(self.done.as_slice(), block)
    }
}
