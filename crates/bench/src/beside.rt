//! The workers beside a plain work list in the same process, on the constraints of a program.

ghost use Rattle.std.specs.Prelude.{◌≤◌};

use crate::counter::Counter;
use crate::made::constraints;
use crate::ones::count_ones;
use crate::worklist;
use flow_form::Constraints;
use flow_workers::solve;
use stalin_outside::OpenGate;
use std::alloc::AllocGlobal;
use std::io;
use std::io::Print;
use std::rt::Clock;
use std::thread::Threads;
use std::time::Instant;

/// So many procedures have more than 64 blocks of rules.
const SMALL: u64 = 150;

/// How often each is done: the least time counts.
const TIMES: u32 = 3;

/// The constraints of a few procedures by a work list, and by 1, 2 and 4 workers.
pub(crate) fn small<R: AllocGlobal + Print + Threads + Sync>(rt: &R) -> io::Result<()> {
    let Some(c) = constraints(rt.alloc(), SMALL)? else {
        return println!(rt; "these are too many");
    };
    let words = worklist::solve(rt.alloc(), &c)?;
    let pairs = count_ones(words.as_slice());
    println!(rt; "a work list: {} rules, {pairs} pairs", c.rules.len())?;
    for workers in [1, 2, 4] {
        let closed = solve(rt, &c, workers, &OpenGate)?;
        let same = closed.rows().words.as_slice() == words.as_slice();
        println!(rt; "{workers} workers: the same rows: {same}")?;
    }
    Ok(())
}

/// Those of a program of so many procedures.
pub(crate) fn large<R: AllocGlobal + Print + Threads + Sync + Clock>(
    rt: &R,
    procedures: u64,
) -> io::Result<()> {
    match constraints(rt.alloc(), procedures)? {
        Some(c) => compare(rt, &c),
        None => println!(rt; "these are too many"),
    }
}

/// Prints the times of the work list and of 1, 2 and 4 workers, their rounds and the blocks that they did, which may
/// differ from run to run.
fn compare<R: AllocGlobal + Print + Threads + Sync + Clock>(
    rt: &R,
    c: &Constraints,
) -> io::Result<()> {
    println!(rt;
        "{} rows, {} atoms, {} rules",
        c.rows,
        c.atoms,
        c.rules.len()
    )?;
    let mut words = Vec::new(rt.alloc());
    let mut least = u128::MAX;
    for _ in 0..TIMES {
        let start = Instant::now(rt)?;
        words = worklist::solve(rt.alloc(), c)?;
        least = least.min(start.elapsed(rt)?.as_micros());
    }
    println!(rt; "a work list: {} ms", least / 1_000)?;
    for workers in [1, 2, 4] {
        beside(rt, c, words.as_slice(), least, workers)?;
    }
    Ok(())
}

/// By so many workers, beside the words and the time, in microseconds, of the work list.
fn beside<R: AllocGlobal + Print + Threads + Sync + Clock>(
    rt: &R,
    c: &Constraints,
    words: &[u64],
    list: u128,
    workers: u32,
) -> io::Result<()>
    requires some { 1 ≤ workers }
    requires few { workers ≤ 32 }
{
    let mut least = u128::MAX;
    for _ in 0..TIMES {
        let gate = Counter::new();
        let start = Instant::now(rt)?;
        let closed = solve(rt, c, workers, &gate)?;
        let time = start.elapsed(rt)?.as_micros();
        let same = closed.rows().words.as_slice() == words;
        let done = gate.passes();
        let rounds = closed.rounds();
        println!(rt;
            "{workers} workers: {} ms, {rounds} rounds, {done} blocks done, the same rows: {same}",
            time / 1_000
        )?;
        least = least.min(time);
    }
    let part = least.saturating_mul(100) / list.max(1);
    println!(rt; "{workers} workers: {part} percent of the work list's time")
}
