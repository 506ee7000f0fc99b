//! The workers on constraints shaped like those of a program.

ghost use Rattle.std.specs.Prelude.{◌<◌, ◌≤◌};

use crate::counter::Counter;
use crate::ones::count_ones;
use crate::program::constraints;
use flow_form::Constraints;
use flow_plain::solve_plain;
use flow_workers::solve;
use std::alloc::AllocGlobal;
use std::io;
use std::io::Print;
use std::thread::Threads;

/// The procedures of the large program: 20,000 rows, 3,000 atoms and 2,000,001 rules.
const LARGE: u32 = 2_000;

const SMALL: u32 = 100;

/// The constraints of a small program by 1, 2 and 4 workers.
pub(crate) fn small<R: AllocGlobal + Print + Threads + Sync>(rt: &R) -> io::Result<()> {
    let Some(c) = told(rt, SMALL)? else {
        return Ok(());
    };
    for workers in [1, 2, 4] {
        solved(rt, &c, workers)?;
    }
    Ok(())
}

/// Those of a large program by so many workers, with the rounds and the blocks that were done, which may
/// differ from run to run.
pub(crate) fn large<R: AllocGlobal + Print + Threads + Sync>(rt: &R, workers: u32) -> io::Result<()>
    requires some { 1 ≤ workers }
    requires few { workers ≤ 32 }
{
    let Some(c) = told(rt, LARGE)? else {
        return Ok(());
    };
    let (rounds, done) = solved(rt, &c, workers)?;
    let blocks = u64::from(c.blocks());
    println!(rt; "{rounds} rounds, {done} blocks done, {blocks} in a round")
}

/// Those of a large program by plain steps.
pub(crate) fn plain<R: AllocGlobal + Print + Threads + Sync>(rt: &R) -> io::Result<()> {
    let Some(c) = told(rt, LARGE)? else {
        return Ok(());
    };
    let rows = solve_plain(rt.alloc(), &c)?;
    let pairs = count_ones(rows.words.as_slice());
    println!(rt; "plain steps: {pairs} pairs")
}

/// The constraints of so many procedures, with their sizes printed.
fn told<R: AllocGlobal + Print + Threads + Sync>(
    rt: &R,
    procedures: u32,
) -> io::Result<Option<Constraints>>
    requires some { 0 < procedures }
    requires few { procedures ≤ 2000 }
{
    let made = constraints(rt.alloc(), procedures)?;
    match &made {
        Some(c) => println!(rt;
            "{} rows, {} atoms, {} rules",
            c.rows,
            c.atoms,
            c.rules.len()
        )?,
        None => println!(rt; "these are too many")?,
    }
    Ok(made)
}

/// Solves by so many workers; answers the rounds and the blocks that were done.
fn solved<R: AllocGlobal + Print + Threads + Sync>(
    rt: &R,
    c: &Constraints,
    workers: u32,
) -> io::Result<(u64, u32)>
    requires some { 1 ≤ workers }
    requires few { workers ≤ 32 }
{
    let gate = Counter::new();
    let closed = solve(rt, c, workers, &gate)?;
    let pairs = count_ones(closed.rows().words.as_slice());
    println!(rt; "{workers} workers: {pairs} pairs")?;
    Ok((closed.rounds(), gate.passes()))
}
