ghost use Rattle.std.specs.Prelude.{◌≡◌, ◌≤◌, length, take};
ghost use Rattle.std.specs.Mem.Slots.{IsFull, slots_items, slots_len};
ghost use Rattle.type_table.specs.Tables.{IsAnswer};

use crate::shared_words::View;
use atomic_table::Seat;
use flow_form::Rows;
use std::alloc::Global;
use std::marker::Model;

/// What a closed table leaves: the rows, which lie within the least solution, and the rounds that led to
/// them. Contracts also see the constraints and the base, which no running code reads.
#[derive(Drop)]
pub struct Closed {
    pub(crate) rows: Rows,
    pub(crate) rounds: u64,
    pub(crate) facts: Seat<u8, View>,
}

impl Model for Closed {
    ghost use Rattle.type_table.specs.Tables.{Answer, IsAnswer, codes};
    ghost use Rattle.flow_form.specs.contracts.constraints.Constraints as system;

    ghost Value = { Answer };

    ghost coded = { Prim.hlevel (codes, system.the_row.coded) };

    ghost view = { λ closed. record { constraints = closed.facts.me.0.constraints; base = closed.facts.me.0.base; rows = closed.rows; rounds = closed.rounds } };

    ghost invariant = { λ closed. IsAnswer closed.facts.me.0.constraints closed.rows };
}

impl Closed {
    /// The rows that the table had when it was closed.
    pub fn rows(&self) -> &Rows
        ensures value { result.now ≡ self.now.rows }
        ensures answer { IsAnswer self.now.constraints self.now.rows }
    {
        &self.rows
    }

    /// The rounds that led to the rows, this one included.
    pub fn rounds(&self) -> u64
        ensures { result ≡ self.now.rounds }
    {
        self.rounds
    }
}

/// Copies the first words of a table that is closed.
pub(crate) fn copy_words(table: &atomic_table::Closed<u8, Global>, room: &mut [u64])
    requires full { IsFull table.now.words }
    requires enough { length room.old ≤ slots_len table.now.words }
    ensures { room.new ≡ take (length room.old) (slots_items table.now.words) }
{
    for at in 0..room.len() {
        room[at] = table.word(at);
    }
}
