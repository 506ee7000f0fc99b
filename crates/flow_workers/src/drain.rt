//! What a worker does when no block is left: it follows what has grown, whoever grew it.
ghost use Rattle.std.specs.Prelude.{◌≡◌};
ghost use Rattle.type_table.specs.Tables.{IsOf};
ghost use Rattle.flow_workers.specs.PassSteps.{Steps};

use crate::notes::Notes;
use crate::readers::{Readers, Run, Thing};
use crate::rule::{apply, apply_words};
use flow_form::Constraints;
use std::alloc::Global;
use std::thread::yield_now;
use type_table::{Pass, TypeTable};

/// So often a worker without work looks whether others have left it some.
const LOOKS: u32 = 100_000;

/// What the workers of a round share: the constraints, their table, and the index of what the rules read.
#[derive(Drop)]
struct Desk<'a> {
    c: &'a Constraints,
    table: &'a TypeTable,
    readers: &'a Readers,
}

/// Applies the rules that read what has grown, and so on, until all is followed, or nobody is left who follows it.
///
/// A worker that finds nothing looks again, a bounded number of times, as long as others may put something.
pub(crate) fn drain(
    alloc: Global,
    c: &Constraints,
    table: &TypeTable,
    pass: &mut Pass,
    notes: &mut Notes,
)
    requires opened { table.now.constraints ≡ c.now }
    requires of { IsOf pass.old table.now }
    ensures { Steps c.now table.now pass.old pass.new }
{
    let Some(readers) = notes.readers else {
        return;
    };
    let desk = Desk { c, table, readers };
    let waiting = &readers.waiting;
    let Ok(mut grown) = vec![in alloc; 0; c.stride() as usize] else {
        waiting.end();
        return;
    };
    for _ in 0..LOOKS {
        drain_waiting(&desk, pass, notes, grown.as_mut_slice());
        waiting.end();
        if waiting.all_rest() {
            return;
        }
        yield_now();
        waiting.begin();
    }
    waiting.end();
}

/// Takes rows that wait and follows them, until none waits.
///
/// Each row that is taken has a bit that nobody had set before, so there are no more than the rows have bits.
fn drain_waiting(desk: &Desk, pass: &mut Pass, notes: &mut Notes, grown: &mut [u64])
    requires opened { desk.now.table.now.constraints ≡ desk.now.c.now }
    requires of { IsOf pass.old desk.now.table.now }
    ensures { Steps desk.now.c.now desk.now.table.now pass.old pass.new }
{
    for _ in 0..desk.c.size() * 64 {
        let Some(row) = notes.take(grown) else {
            return;
        };
        follow(desk, pass, notes, row, grown);
    }
}

/// Applies the rules that read what has grown in a row, word by word.
fn follow(desk: &Desk, pass: &mut Pass, notes: &mut Notes, row: u32, grown: &[u64])
    requires opened { desk.now.table.now.constraints ≡ desk.now.c.now }
    requires of { IsOf pass.old desk.now.table.now }
    ensures { Steps desk.now.c.now desk.now.table.now pass.old pass.new }
{
    for part in 0..desk.readers.parts() {
        follow_words(desk, pass, notes, part, row, grown);
        begin(desk, pass, notes, part, Thing::others(row));
    }
    pass_on(desk, pass, notes, row, grown);
}

/// Applies the rules of a part that test for atoms of a row.
fn follow_words(
    desk: &Desk,
    pass: &mut Pass,
    notes: &mut Notes,
    part: usize,
    row: u32,
    grown: &[u64],
)
    requires opened { desk.now.table.now.constraints ≡ desk.now.c.now }
    requires of { IsOf pass.old desk.now.table.now }
    ensures { Steps desk.now.c.now desk.now.table.now pass.old pass.new }
{
    let words = (desk.c.stride() as usize).min(grown.len());
    for at in 0..words {
        let bits = desk.readers.tested(desk.c, row, at, grown[at]);
        follow_atoms(desk, pass, notes, part, row, at as u32, bits);
    }
}

/// Applies the rules of a part that test for one of the atoms.
fn follow_atoms(
    desk: &Desk,
    pass: &mut Pass,
    notes: &mut Notes,
    part: usize,
    row: u32,
    at: u32,
    bits: u64,
)
    requires opened { desk.now.table.now.constraints ≡ desk.now.c.now }
    requires of { IsOf pass.old desk.now.table.now }
    ensures { Steps desk.now.c.now desk.now.table.now pass.old pass.new }
{
    let mut bits = bits;
    for _ in 0..64 {
        if bits == 0 {
            return;
        }
        let atom = at.wrapping_mul(64).wrapping_add(bits.trailing_zeros());
        begin(desk, pass, notes, part, Thing::atom(row, atom));
        bits &= bits - 1;
    }
}

/// Applies those rules of a part that test a thing and may give something for the first time.
fn begin(desk: &Desk, pass: &mut Pass, notes: &mut Notes, part: usize, thing: Thing)
    requires opened { desk.now.table.now.constraints ≡ desk.now.c.now }
    requires of { IsOf pass.old desk.now.table.now }
    ensures { Steps desk.now.c.now desk.now.table.now pass.old pass.new }
{
    for run in desk.readers.of(part, thing) {
        if run.thing == thing {
            begin_run(desk, pass, notes, *run);
        }
    }
}

fn begin_run(desk: &Desk, pass: &mut Pass, notes: &mut Notes, run: Run)
    requires opened { desk.now.table.now.constraints ≡ desk.now.c.now }
    requires of { IsOf pass.old desk.now.table.now }
    ensures { Steps desk.now.c.now desk.now.table.now pass.old pass.new }
{
    for rule in run.first as usize..(run.end as usize).min(desk.c.rules.len()) {
        if desk.readers.found.may_begin(rule, run.second) {
            apply(desk.c, desk.table, pass, notes, rule);
        }
    }
}

/// Gives the words of a row that have grown by those rules whose tests hold.
fn pass_on(desk: &Desk, pass: &mut Pass, notes: &mut Notes, row: u32, grown: &[u64])
    requires opened { desk.now.table.now.constraints ≡ desk.now.c.now }
    requires of { IsOf pass.old desk.now.table.now }
    ensures { Steps desk.now.c.now desk.now.table.now pass.old pass.new }
{
    let mut next = desk.readers.found.giver(row);
    for _ in 0..desk.c.rules.len() {
        let Some(rule) = next else {
            return;
        };
        if rule < desk.c.rules.len() {
            apply_words(desk.c, desk.table, pass, notes, rule, grown);
        }
        next = desk.readers.found.giver_before(rule);
    }
}
