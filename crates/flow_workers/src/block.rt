//! A block of rules, done with a pass.
ghost use Rattle.std.specs.Prelude.{◌≡◌, ◌<◌};
ghost use Rattle.bit_rows.specs.Members.{IsMember};
ghost use Rattle.flow_form.specs.Shape.{blocks_of};
ghost use Rattle.type_table.specs.Tables.{IsOf};
ghost use Rattle.flow_workers.specs.PassSteps.{Steps};

use crate::notes::Notes;
use crate::rule::apply;
use flow_form::{BLOCK, Constraints};
use stalin_outside::Gate;
use type_table::{Pass, TypeTable};

/// Does a block of rules: passes the gate, loads what the rules read, grows what they give, and
/// finishes the block.
///
/// The pass then has done the block, and all that it had done before. It takes no memory, and it waits
/// for nobody but the gate.
pub fn do_block<G: Gate>(
    c: &Constraints,
    table: &TypeTable,
    pass: &mut Pass,
    worker: u32,
    block: u32,
    gate: &G,
)
    requires opened { table.now.constraints ≡ c.now }
    requires of { IsOf pass.old table.now }
    requires there { block < blocks_of c.now }
    ensures steps { Steps c.now table.now pass.old pass.new }
    ensures done { IsMember pass.new.view.worker.done block }
{
    do_noting(c, table, pass, &mut Notes::none(), worker, block, gate);
}

/// The same, and what is grown is noted.
pub(crate) fn do_noting<G: Gate>(
    c: &Constraints,
    table: &TypeTable,
    pass: &mut Pass,
    notes: &mut Notes,
    worker: u32,
    block: u32,
    gate: &G,
)
    requires opened { table.now.constraints ≡ c.now }
    requires of { IsOf pass.old table.now }
    requires there { block < blocks_of c.now }
    ensures steps { Steps c.now table.now pass.old pass.new }
    ensures done { IsMember pass.new.view.worker.done block }
{
    gate.pass(worker, block);
    let first = block as usize * BLOCK;
    for index in first..c.rules.len().min(first + BLOCK) {
        apply(c, table, pass, notes, index);
    }
    table.finish(pass, block);
}
