//! Which rows grew in a round, and which blocks of rules read none of them.
ghost use Rattle.std.specs.Prelude.{◌≡◌, ◌/◌, ◌+◌, ◌*◌, ◌<◌, ◌≤◌, ◌↔◌, ◌⊎◌, ℕ, length, IsTrue, IfOk};
ghost use Rattle.std.specs.Thread.{IsSync};
ghost use Rattle.bit_rows.specs.Members.{IsMember};
ghost use Rattle.flow_form.specs.Shape.{blocks_of, size_of};
ghost use Rattle.flow_form.specs.Valid.{RuleNames, TestNames};
ghost use Rattle.flow_workers.specs.Rounds.{AreGrown, AreRests, GrewBetween, HasRows, BlockRests, RuleRests, TestRests};

use bit_rows::{contains, insert, union_into, within};
use flow_form::{BLOCK, Constraints, Give, Rule, Test, row_of};
use std::alloc::{AllocError, Global};
use std::thread::{Threads, join};

/// The rows that have a pair in `after` which they have not in `before`, a bit for each row, found by so many threads.
pub(crate) fn grown_rows<R: Threads + Sync>(
    rt: &R,
    alloc: Global,
    c: &Constraints,
    before: &[u64],
    after: &[u64],
    threads: u32,
) -> Result<Vec<u64>, AllocError>
    requires before { length before.now ≡ size_of c.now }
    requires after { length after.now ≡ size_of c.now }
    ensures { IfOk result (λ grown. AreGrown c.now before.now after.now grown.items) }
{
    grown_between(rt, alloc, c, before, after, 0, c.rows, threads)
}

/// Those from one row to before another.
fn grown_between<R: Threads + Sync>(
    rt: &R,
    alloc: Global,
    c: &Constraints,
    before: &[u64],
    after: &[u64],
    first: u32,
    end: u32,
    threads: u32,
) -> Result<Vec<u64>, AllocError>
    requires before { length before.now ≡ size_of c.now }
    requires after { length after.now ≡ size_of c.now }
    requires order { first ≤ end }
    requires there { end ≤ c.now.rows }
    ensures { IfOk result (λ grown. GrewBetween c.now before.now after.now first end grown.items) }
{
    if threads <= 1 {
        return grown_among(alloc, c, before, after, first, end);
    }
    let middle = first + (end - first) / 2;
    let half = threads / 2;
    let others = threads - half;
    let (one, two) = join(
        rt,
        || -> Result<Vec<u64>, AllocError>
            requires { IsSync R.row × (length before.now ≡ size_of c.now) × (length after.now ≡ size_of c.now) × (first ≤ middle) × (middle ≤ c.now.rows) × (0 < half) }
            ensures { IfOk result (λ grown. GrewBetween c.entry.now before.entry.now after.entry.now first middle grown.items) }
        { grown_between(rt, alloc, c, before, after, first, middle, half) },
        || -> Result<Vec<u64>, AllocError>
            requires { IsSync R.row × (length before.now ≡ size_of c.now) × (length after.now ≡ size_of c.now) × (middle ≤ end) × (end ≤ c.now.rows) × (0 < others) }
            ensures { IfOk result (λ grown. GrewBetween c.entry.now before.entry.now after.entry.now middle end grown.items) }
        { grown_between(rt, alloc, c, before, after, middle, end, others) },
    );
    let one = one?;
    let two = two?;
    Ok(union_of(one, two.as_slice()))
}

/// Those from one row to before another, by one thread.
fn grown_among(
    alloc: Global,
    c: &Constraints,
    before: &[u64],
    after: &[u64],
    first: u32,
    end: u32,
) -> Result<Vec<u64>, AllocError>
    requires before { length before.now ≡ size_of c.now }
    requires after { length after.now ≡ size_of c.now }
    requires order { first ≤ end }
    requires there { end ≤ c.now.rows }
    ensures { IfOk result (λ grown. GrewBetween c.now before.now after.now first end grown.items) }
{
    let mut grown = vec![in alloc; 0; c.rows.div_ceil(64) as usize]?;
    for row in first..end {
        if !within(row_of(c, after, row), row_of(c, before, row)) {
            insert(grown.as_mut_slice(), row);
        }
    }
    Ok(grown)
}

/// The blocks whose rules read none of the rows that grew, a bit for each block, found by so many threads.
pub(crate) fn settled_blocks<R: Threads + Sync>(
    rt: &R,
    alloc: Global,
    c: &Constraints,
    grown: &[u64],
    threads: u32,
) -> Result<Vec<u64>, AllocError>
    requires { HasRows c.now grown.now }
    ensures { IfOk result (λ settled. AreRests c.now grown.now 0 (blocks_of c.now) settled.items) }
{
    settled_between(rt, alloc, c, grown, 0, c.blocks(), threads)
}

/// Those from one block to before another.
fn settled_between<R: Threads + Sync>(
    rt: &R,
    alloc: Global,
    c: &Constraints,
    grown: &[u64],
    first: u32,
    end: u32,
    threads: u32,
) -> Result<Vec<u64>, AllocError>
    requires size { HasRows c.now grown.now }
    requires order { first ≤ end }
    requires there { end ≤ blocks_of c.now }
    ensures { IfOk result (λ settled. AreRests c.now grown.now first end settled.items) }
{
    if threads <= 1 {
        return settled_among(alloc, c, grown, first, end);
    }
    let middle = first + (end - first) / 2;
    let half = threads / 2;
    let others = threads - half;
    let (one, two) = join(
        rt,
        || -> Result<Vec<u64>, AllocError>
            requires { IsSync R.row × HasRows c.now grown.now × (first ≤ middle) × (middle ≤ blocks_of c.now) × (0 < half) }
            ensures { IfOk result (λ settled. AreRests c.entry.now grown.entry.now first middle settled.items) }
        { settled_between(rt, alloc, c, grown, first, middle, half) },
        || -> Result<Vec<u64>, AllocError>
            requires { IsSync R.row × HasRows c.now grown.now × (middle ≤ end) × (end ≤ blocks_of c.now) × (0 < others) }
            ensures { IfOk result (λ settled. AreRests c.entry.now grown.entry.now middle end settled.items) }
        { settled_between(rt, alloc, c, grown, middle, end, others) },
    );
    let one = one?;
    let two = two?;
    Ok(union_of(one, two.as_slice()))
}

/// Those from one block to before another, by one thread.
fn settled_among(
    alloc: Global,
    c: &Constraints,
    grown: &[u64],
    first: u32,
    end: u32,
) -> Result<Vec<u64>, AllocError>
    requires size { HasRows c.now grown.now }
    requires order { first ≤ end }
    requires there { end ≤ blocks_of c.now }
    ensures { IfOk result (λ settled. AreRests c.now grown.now first end settled.items) }
{
    let mut settled = vec![in alloc; 0; c.blocks().div_ceil(64) as usize]?;
    for block in first..end {
        if block_rests(c, grown, block) {
            insert(settled.as_mut_slice(), block);
        }
    }
    Ok(settled)
}

/// The members of the one row and of the other.
fn union_of(one: Vec<u64>, two: &[u64]) -> Vec<u64>
    requires { length one.items ≡ length two.now }
    ensures size { length result.items ≡ length one.items }
    ensures members { (k : ℕ) → IsMember result.items k ↔ (IsMember one.items k ⊎ IsMember two.now k) }
{
    let mut both = one;
    union_into(both.as_mut_slice(), two);
    both
}

/// Whether the rules of a block read none of the rows that grew.
fn block_rests(c: &Constraints, grown: &[u64], block: u32) -> bool
    requires size { HasRows c.now grown.now }
    ensures { IsTrue result ↔ BlockRests c.now grown.now block }
{
    let first = block as usize * BLOCK;
    for index in first..c.rules.len().min(first + BLOCK) {
        if !rule_rests(c, grown, &c.rules.as_slice()[index]) {
            return false;
        }
    }
    true
}

fn rule_rests(c: &Constraints, grown: &[u64], rule: &Rule) -> bool
    requires size { HasRows c.now grown.now }
    requires named { RuleNames c.now.rows c.now.atoms rule.now }
    ensures { IsTrue result ↔ RuleRests grown.now rule.now }
{
    test_rests(c, grown, rule.first)
        && test_rests(c, grown, rule.second)
        && match rule.give {
            Give::Atom(_) => true,
            Give::Row(row) => !contains(grown, row),
        }
}

fn test_rests(c: &Constraints, grown: &[u64], test: Option<Test>) -> bool
    requires size { HasRows c.now grown.now }
    requires named { TestNames c.now.rows c.now.atoms test }
    ensures { IsTrue result ↔ TestRests grown.now test }
{
    let _ = c;
    match test {
        None => true,
        Some(Test::Has { row, atom: _ } | Test::Other { row, atom: _ }) => !contains(grown, row),
    }
}
