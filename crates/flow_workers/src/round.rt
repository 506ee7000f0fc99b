//! One round: workers draw blocks until none is left, and what they have done is taken in.
ghost use Rattle.std.specs.Prelude.{◌≡◌, ◌≤◌, ◌+◌, ◌<◌, ◌⊎◌, ℕ, length};
ghost use Rattle.std.specs.Thread.{IsSync};
ghost use Rattle.bit_rows.specs.Members.{IsMember};
ghost use Rattle.flow_form.specs.Shape.{blocks_of, done_size_of};
ghost use Rattle.type_table.specs.Tables.{IsOf, IsStart};
ghost use Rattle.flow_workers.specs.Rounds.{AreSettled, IsRound};

use crate::block::{do_block, do_noting};
use crate::drain::drain;
use crate::notes::Notes;
use crate::readers::Readers;
use bit_rows::contains;
use flow_form::Constraints;
use stalin_outside::Gate;
use std::alloc::{AllocGlobal, Global};
use std::thread::{Threads, join};
use type_table::{Closed, Pass, TypeTable};

/// Runs one round in a table that has just been opened, with so many workers. Blocks that are settled are skipped.
pub(crate) fn round<R: AllocGlobal + Threads + Sync, G: Gate>(
    rt: &R,
    c: &Constraints,
    opened: (TypeTable, Pass),
    settled: &[u64],
    readers: &Readers,
    workers: u32,
    gate: &G,
) -> Closed
    requires start { IsStart c.now opened.0.base opened.0.rounds opened.0 opened.1 }
    requires size { length settled.now ≡ done_size_of c.now }
    requires settled { AreSettled c.now opened.0.base settled.now }
    requires some { 0 < workers }
    requires most { workers ≤ 32 }
    ensures { IsRound c.now opened.0.base opened.0.rounds result }
{
    let (table, pass) = opened;
    let mut pass = run(
        rt,
        rt.alloc(),
        c,
        &table,
        pass,
        settled,
        readers,
        0,
        workers,
        gate,
    );
    do_rest(c, &table, &mut pass, settled, gate);
    table.close(pass)
}

/// Lets workers draw blocks side by side: they are numbered from `first`, and each lets the next one go before it
/// begins. Where there is no memory for a further pass, one of them goes on alone.
fn run<R: Threads + Sync, G: Gate>(
    rt: &R,
    alloc: Global,
    c: &Constraints,
    table: &TypeTable,
    mut pass: Pass,
    settled: &[u64],
    readers: &Readers,
    first: u32,
    workers: u32,
    gate: &G,
) -> Pass
    requires opened { table.now.constraints ≡ c.now }
    requires of { IsOf pass table.now }
    requires size { length settled.now ≡ done_size_of c.now }
    requires some { 0 < workers }
    requires most { first + workers ≤ 32 }
    ensures { IsOf result table.now }
{
    if workers == 1 {
        draw(alloc, c, table, &mut pass, settled, readers, first, gate);
        return pass;
    }
    let Ok(second) = table.split(alloc, &mut pass) else {
        draw(alloc, c, table, &mut pass, settled, readers, first, gate);
        return pass;
    };
    let others = workers - 1;
    let (mut one, two) = join(
        rt,
        || -> Pass
            requires { IsSync G.row × (table.now.constraints ≡ c.now) × IsOf pass table.now × (length settled.now ≡ done_size_of c.now) }
            ensures { IsOf result table.entry.now }
        {
            let mut own = pass;
            draw(alloc, c, table, &mut own, settled, readers, first, gate);
            own
        },
        || -> Pass
            requires { IsSync R.row × IsSync G.row × (table.now.constraints ≡ c.now) × IsOf second table.now × (length settled.now ≡ done_size_of c.now) × (0 < others) × (first + 1 + others ≤ 32) }
            ensures { IsOf result table.entry.now }
        {
            run(
                rt,
                alloc,
                c,
                table,
                second,
                settled,
                readers,
                first + 1,
                others,
                gate,
            )
        },
    );
    table.join(&mut one, two);
    one
}

/// Draws blocks and does those that are not settled, until none is left, and then follows what has
/// grown, whoever grew it.
fn draw<G: Gate>(
    alloc: Global,
    c: &Constraints,
    table: &TypeTable,
    pass: &mut Pass,
    settled: &[u64],
    readers: &Readers,
    worker: u32,
    gate: &G,
)
    requires opened { table.now.constraints ≡ c.now }
    requires of { IsOf pass.old table.now }
    requires size { length settled.now ≡ done_size_of c.now }
    ensures { IsOf pass.new table.now }
{
    let mut notes = Notes::new(readers);
    draw_all(c, table, pass, settled, &mut notes, worker, gate);
    drain(alloc, c, table, pass, &mut notes);
}

/// Draws blocks and does those that are not settled, until none is left.
///
/// A worker draws at most once more than there are blocks.
fn draw_all<G: Gate>(
    c: &Constraints,
    table: &TypeTable,
    pass: &mut Pass,
    settled: &[u64],
    notes: &mut Notes,
    worker: u32,
    gate: &G,
)
    requires opened { table.now.constraints ≡ c.now }
    requires of { IsOf pass.old table.now }
    requires size { length settled.now ≡ done_size_of c.now }
    ensures { IsOf pass.new table.now }
{
    let blocks = c.blocks();
    for _ in 0..=blocks {
        let block = table.claim(pass);
        if block >= u64::from(blocks) {
            return;
        }
        if !contains(settled, block as u32) {
            do_noting(c, table, pass, notes, worker, block as u32, gate);
        }
    }
}

/// Does each block that is neither done nor settled.
fn do_rest<G: Gate>(c: &Constraints, table: &TypeTable, pass: &mut Pass, settled: &[u64], gate: &G)
    requires opened { table.now.constraints ≡ c.now }
    requires of { IsOf pass.old table.now }
    requires size { length settled.now ≡ done_size_of c.now }
    ensures of { IsOf pass.new table.now }
    ensures all { (block : ℕ) → block < blocks_of c.now → IsMember pass.new.view.worker.done block ⊎ IsMember settled.now block }
{
    for block in 0..c.blocks() {
        if !contains(settled, block) && !pass.has_done(block) {
            do_block(c, table, pass, 0, block, gate);
        }
    }
}
