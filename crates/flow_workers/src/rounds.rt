//! Round after round, until one adds nothing.
ghost use Rattle.std.specs.Prelude.{◌≡◌, ◌≤◌, ◌<◌, ◌+◌, ℕ, IfOk};
ghost use Rattle.std.specs.Bool.{MatchBool};
ghost use Rattle.bit_rows.specs.Members.{IsMember};
ghost use Rattle.std.specs.Prelude.{None};
ghost use Rattle.std.specs.Thread.{IsSync};
ghost use Rattle.type_table.specs.Tables.{IsStart, base_of, rounds_of};
ghost use Rattle.flow_workers.specs.Rounds.{IsSolved, Reaches};

use crate::readers::Readers;
use crate::round::round;
use crate::settled::{grown_rows, settled_blocks};
use bit_rows::next_member;
use flow_form::{Constraints, no_pairs};
use stalin_outside::Gate;
use std::alloc::{AllocError, AllocGlobal};
use std::thread::{Threads, join};
use type_table::{Closed, Pass, TypeTable};

/// So many blocks are done as fast again as an index of them is made.
const FEW_BLOCKS: u32 = 64;

/// What a round left, and the rows that grew in it, a bit for each.
#[derive(Drop)]
struct Reached {
    closed: Closed,
    grown: Vec<u64>,
}

/// The least solution of the constraints, by so many workers, from 1 to 32.
///
/// A round opens a table from what the last one left and divides passes by fork and join. Each worker
/// draws blocks of 1,024 rules, passes the gate before each that it does, and skips those whose rules
/// read no row that grew in the round before. The solution ends with the first round in which no row
/// grew. The rows are the same for each number of workers and each schedule; the rounds may differ.
pub fn solve<R: AllocGlobal + Threads + Sync, G: Gate>(
    rt: &R,
    c: &Constraints,
    workers: u32,
    gate: &G,
) -> Result<Closed, AllocError>
    requires some { 1 ≤ workers }
    requires most { workers ≤ 32 }
    ensures { IfOk result (IsSolved c.now) }
{
    let (readers, opened) = prepared(rt, c, workers);
    let mut reached = first_round(rt, c, opened?, &readers, workers, gate)?;
    while some_grew(c, reached.grown.as_slice()) {
        reached = next_round(rt, c, &reached, &readers, workers, gate)?;
    }
    Ok(reached.closed)
}

/// The index that workers follow, and the table of the first round: side by side where there are several workers.
fn prepared<R: AllocGlobal + Threads + Sync>(
    rt: &R,
    c: &Constraints,
    workers: u32,
) -> (Readers, Result<(TypeTable, Pass), AllocError>)
    ensures { IfOk result.1 (λ opened. IsStart c.now (base_of c.now None) (rounds_of None) opened.0 opened.1) }
{
    if workers <= 1 {
        return (
            readers_of(rt, c, workers),
            TypeTable::open(rt.alloc(), c, None),
        );
    }
    let alloc = rt.alloc();
    join(
        rt,
        || -> Readers
            requires { IsSync R.row }
        { readers_of(rt, c, workers) },
        || -> Result<(TypeTable, Pass), AllocError>
            ensures { IfOk result (λ opened. IsStart c.entry.now (base_of c.entry.now None) (rounds_of None) opened.0 opened.1) }
        { TypeTable::open(alloc, c, None) },
    )
}

/// The index that workers follow: an empty one where there are few blocks, or no memory for it.
fn readers_of<R: AllocGlobal + Threads + Sync>(rt: &R, c: &Constraints, workers: u32) -> Readers {
    if c.blocks() > FEW_BLOCKS {
        if let Ok(readers) = Readers::new(rt, c, workers) {
            return readers;
        }
    }
    Readers::none(rt.alloc())
}

/// Whether some row grew.
fn some_grew(c: &Constraints, grown: &[u64]) -> bool
    ensures { MatchBool result ((row : ℕ) × IsMember grown.now row) ((row : ℕ) → row < c.now.rows → ¬ IsMember grown.now row) }
{
    let _ = c;
    next_member(grown, 0).is_some()
}

/// The round from no pairs, in which no block is settled.
fn first_round<R: AllocGlobal + Threads + Sync, G: Gate>(
    rt: &R,
    c: &Constraints,
    opened: (TypeTable, Pass),
    readers: &Readers,
    workers: u32,
    gate: &G,
) -> Result<Reached, AllocError>
    requires start { IsStart c.now (base_of c.now None) (rounds_of None) opened.0 opened.1 }
    requires some { 1 ≤ workers }
    requires most { workers ≤ 32 }
    ensures { IfOk result (λ reached. Reaches c.now reached.closed reached.grown.items) }
{
    let alloc = rt.alloc();
    let base = no_pairs(alloc, c)?;
    let settled = vec![in alloc; 0; c.blocks().div_ceil(64) as usize]?;
    let closed = round(rt, c, opened, settled.as_slice(), readers, workers, gate);
    let rows = closed.rows();
    let (before, after) = (base.words.as_slice(), rows.words.as_slice());
    let grown = grown_rows(rt, alloc, c, before, after, workers)?;
    Ok(Reached { closed, grown })
}

/// The round from what the last one left, in which some row grew.
fn next_round<R: AllocGlobal + Threads + Sync, G: Gate>(
    rt: &R,
    c: &Constraints,
    last: &Reached,
    readers: &Readers,
    workers: u32,
    gate: &G,
) -> Result<Reached, AllocError>
    requires some { 1 ≤ workers }
    requires most { workers ≤ 32 }
    requires reached { Reaches c.now last.now.closed last.now.grown.items }
    requires grew { (row : ℕ) × IsMember last.now.grown.items row }
    ensures reached { IfOk result (λ reached. Reaches c.now reached.closed reached.grown.items) }
    ensures later { IfOk result (λ reached. reached.closed.rounds ≡ last.now.closed.rounds + 1) }
{
    let alloc = rt.alloc();
    let settled = settled_blocks(rt, alloc, c, last.grown.as_slice(), workers)?;
    let opened = TypeTable::open(alloc, c, Some(&last.closed))?;
    let closed = round(rt, c, opened, settled.as_slice(), readers, workers, gate);
    let base = last.closed.rows();
    let rows = closed.rows();
    let (before, after) = (base.words.as_slice(), rows.words.as_slice());
    let grown = grown_rows(rt, alloc, c, before, after, workers)?;
    Ok(Reached { closed, grown })
}
