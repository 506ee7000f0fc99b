ghost use Rattle.std.specs.Prelude.{◌≡◌, ◌+◌, ◌/◌, ◌%◌, ◌^◌, ◌<◌, ◌++◌, ◌∷◌, [], true, bit_or, length, IfOk, IfSome};
ghost use Rattle.std.specs.Option.{option_copied};
ghost use Rattle.flow_form.specs.Least.{Given, GivenByBlock, Least, Within};
ghost use Rattle.flow_form.specs.Race.{MaskWithin, Seen, finishing, growing, joined, loading, with_bits};
ghost use Rattle.flow_form.specs.Shape.{In, blocks_of, size_of};
ghost use Rattle.type_table.specs.SharedWords.{IsFresh, with_worker};
ghost use Rattle.type_table.specs.Tables.{IsOf, IsShared, IsStart, Leaves, base_of, knowing, rounds_of};

use crate::closed::{Closed, copy_words};
use crate::pass::Pass;
use crate::shared_words::{Claim, Copy, Finish, Gather, Grow, Key, Load, Named, SharedWords, View};
use atomic_table::{Seat, Shared, Table};
use bit_rows::{insert, union_into};
use flow_form::{Constraints, Rows, no_pairs};
use scheme_base::Numbers;
use std::alloc::{AllocError, Global};
use std::marker::{Brand, Model};
use std::snapshot::Snapshot;

type SharedTable = Table<u8, View, Key, SharedWords, Global>;

/// The words of one round, which the passes of several threads load and grow.
///
/// Contracts see the constraints and the base that it was opened with, and the rounds of its answer.
#[derive(Drop)]
pub struct TypeTable {
    table: SharedTable,
    room: Vec<u64>,
    stride: u32,
    rounds: u64,
}

impl Model for TypeTable {
    ghost use Rattle.type_table.specs.Tables.{IsOpen, Opened, codes};
    ghost use Rattle.flow_form.specs.contracts.constraints.Constraints as system;

    ghost Value = { Opened };

    ghost coded = { Prim.hlevel (codes, system.the_row.coded) };

    ghost view = { λ t. record { table = t.table.shared.table_id; constraints = t.table.shared.key.constraints.value; base = t.table.shared.key.base.value; rounds = t.rounds } };

    ghost invariant = { λ t. IsOpen t.table.shared.table_id t.table.shared.key.constraints.value t.table.shared.key.base.value t.room.items t.stride };
}

/// A table of the words of the base and the count of the claims, and its first seat.
fn share(
    alloc: Global,
    c: &Constraints,
    base: &Numbers,
    words: &[u64],
) -> Result<(SharedTable, Seat<u8, View>), AllocError>
    requires size { length base.now ≡ size_of c.now }
    requires words { words.now ≡ base.now ++ 0 ∷ [] }
    ensures { IfOk result (λ shared. IsShared c.now base.now shared.0.shared.table_id shared.0.shared.key.constraints.value shared.0.shared.key.base.value shared.1.table_id shared.1.me) }
{
    let key = Key {
        constraints: Snapshot::of(c),
        base: Snapshot::of(base),
    };
    Table::of_words(alloc, words, &key)
}

impl TypeTable {
    /// A table whose words are the rows that another left, or no pairs where there is none, and a pass
    /// that knows nothing. The room for its own rows is taken here.
    pub fn open(
        alloc: Global,
        c: &Constraints,
        last: Option<&Closed>,
    ) -> Result<(TypeTable, Pass), AllocError>
        requires of { IfSome (option_copied last) (λ closed. closed.constraints ≡ c.now) }
        requires few { IfSome (option_copied last) (λ closed. closed.rounds + 1 < 2 ^ 64) }
        ensures { IfOk result (λ opened. IsStart c.now (base_of c.now (option_copied last.entry)) (rounds_of (option_copied last.entry)) opened.0 opened.1) }
    {
        match last {
            None => {
                let none = no_pairs(alloc, c)?;
                TypeTable::open_from(alloc, c, &none.words, 1)
            }
            Some(closed) => {
                let rows = closed.rows();
                TypeTable::open_from(alloc, c, &rows.words, closed.rounds() + 1)
            }
        }
    }

    /// A table whose words are those of the base, and a pass that knows nothing.
    fn open_from(
        alloc: Global,
        c: &Constraints,
        base: &Numbers,
        rounds: u64,
    ) -> Result<(TypeTable, Pass), AllocError>
        requires size { length base.now ≡ size_of c.now }
        requires within { Within (In c.now base.now) (Least c.now.rules) }
        ensures { IfOk result (λ opened. IsStart c.now base.now rounds opened.0 opened.1) }
    {
        let mut room = Vec::with_capacity(alloc, c.size() as usize + 1)?;
        room.extend_from_slice(base.as_slice())?;
        room.push(0)?;
        let done = vec![in alloc; 0; c.blocks().div_ceil(64) as usize]?;
        let (table, seat) = share(alloc, c, base, room.as_slice())?;
        room.truncate(c.size() as usize);
        let opened = TypeTable {
            table,
            room,
            stride: c.stride(),
            rounds,
        };
        Ok((opened, Pass { seat, done }))
    }

    /// Loads a word, which it answers. The pass has then loaded it.
    pub fn load(&self, pass: &mut Pass, word: u32) -> u64
        requires of { IsOf pass.old self.now }
        requires there { word < size_of self.now.constraints }
        ensures fresh { IsFresh self.now.constraints self.now.base pass.old.view.worker word result }
        ensures knows { pass.new ≡ knowing pass.old (loading word result pass.old.view.worker) }
        ensures of { IsOf pass.new self.now }
    {
        self.table
            .shared
            .load::<Load>(&mut pass.seat, word as usize)
    }

    /// Sets the bits of a mask in a word, and answers the word as it stood before. The pass has then
    /// grown the mask and what it found.
    pub fn grow(&self, pass: &mut Pass, word: u32, mask: u64) -> u64
        requires of { IsOf pass.old self.now }
        requires there { word < size_of self.now.constraints }
        requires follows { MaskWithin self.now.constraints word mask (Given self.now.constraints.rules (In self.now.constraints pass.old.view.worker.loaded)) }
        ensures fresh { IsFresh self.now.constraints self.now.base pass.old.view.worker word result }
        ensures knows { pass.new ≡ knowing pass.old (growing word (bit_or mask result) pass.old.view.worker) }
        ensures of { IsOf pass.new self.now }
    {
        self.table
            .shared
            .fetch_or::<Grow>(&mut pass.seat, word as usize, mask)
    }

    /// Draws a number. The table counts up from 0, round and round.
    pub fn claim(&self, pass: &mut Pass) -> u64
        requires of { IsOf pass.old self.now }
        ensures { pass.new ≡ pass.old }
    {
        let last = self.table.word_count() - 1;
        self.table
            .shared
            .fetch_add::<Claim>(&mut pass.seat, last, 1)
    }

    /// Notes a block as done, after the pass has loaded or grown all that the block gives from the base.
    pub fn finish(&self, pass: &mut Pass, block: u32)
        requires of { IsOf pass.old self.now }
        requires there { block < blocks_of self.now.constraints }
        requires seen { Within (GivenByBlock self.now.constraints.rules block (In self.now.constraints self.now.base)) (Seen self.now.constraints pass.old.view.worker) }
        ensures knows { pass.new ≡ knowing pass.old (finishing block pass.old.view.worker) }
        ensures of { IsOf pass.new self.now }
    {
        finish_as::<Brand>(&self.table.shared, &mut pass.seat, block);
        insert(pass.done.as_mut_slice(), block);
    }

    /// A second pass that knows what this one does. Where there is no memory for it, nothing is changed.
    pub fn split(&self, alloc: Global, pass: &mut Pass) -> Result<Pass, AllocError>
        requires of { IsOf pass.old self.now }
        ensures unchanged { pass.new ≡ pass.old }
        ensures same { IfOk result (λ second. second ≡ pass.old) }
    {
        let done = pass.done.as_slice().to_vec(alloc)?;
        let seat = self.table.shared.split_seat::<Copy>(&mut pass.seat);
        Ok(Pass { seat, done })
    }

    /// Takes in another pass: what that one knew, this one knows.
    pub fn join(&self, pass: &mut Pass, other: Pass)
        requires of { IsOf pass.old self.now }
        requires other_of { IsOf other self.now }
        ensures knows { pass.new ≡ knowing pass.old (joined pass.old.view.worker other.view.worker) }
        ensures of { IsOf pass.new self.now }
    {
        let Pass { seat, done } = other;
        union_into(pass.done.as_mut_slice(), done.as_slice());
        self.table.shared.join_seat::<Gather>(&mut pass.seat, seat);
    }

    /// Ends the round: the words are the rows that it leaves. A pass that is still out can do nothing
    /// more, since the table is gone.
    pub fn close(self, pass: Pass) -> Closed
        requires { IsOf pass self }
        ensures { Leaves self pass result }
    {
        let Pass { mut seat, done: _ } = pass;
        let TypeTable {
            table,
            mut room,
            stride,
            rounds,
        } = self;
        let facts = table.shared.split_seat::<Copy>(&mut seat);
        let closed = table.close_with(seat);
        copy_words(&closed, room.as_mut_slice());
        closed.free();
        let rows = Rows {
            stride,
            words: Numbers::from_vec(room),
        };
        Closed {
            rows,
            rounds,
            facts,
        }
    }
}

/// The step by which a seat notes a block, which its proof names as `B`.
fn finish_as<B: Named>(
    shared: &Shared<u8, View, Key, SharedWords>,
    seat: &mut Seat<u8, View>,
    block: u32,
)
    requires named { block ≡ B.block }
    requires of { seat.old.table_id ≡ shared.now.table_id }
    requires some { 0 < shared.now.table_id.words }
    requires live { seat.old.me.0.live ≡ true }
    requires there { block < blocks_of shared.now.key.constraints.value }
    requires seen { Within (GivenByBlock shared.now.key.constraints.value.rules block (In shared.now.key.constraints.value shared.now.key.base.value)) (Seen shared.now.key.constraints.value seat.old.me.0.worker) }
    ensures same { (seat.new.table_id ≡ seat.old.table_id) × (seat.new.id ≡ seat.old.id) }
    ensures knows { seat.new.me ≡ (with_worker seat.old.me.0 (finishing block seat.old.me.0.worker), seat.old.me.1) }
{
    shared.fetch_or::<Finish<B>>(seat, 0, 0);
}
