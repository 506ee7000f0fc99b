//! Constraints that workers solve, beside one worker's solution.

ghost use Rattle.std.specs.Prelude.{◌<◌};

use flow_form::{BLOCK, Constraints, Give, Rule, Rules, Test};
use flow_plain::{chain, solve_plain};
use flow_workers::solve;
use stalin_outside::{Gate, OpenGate};
use std::alloc::{AllocGlobal, Global};
use std::sync::atomic::{AtomicU32, Ordering};
use std::test::Fail;
use std::thread::Threads;

/// A rule without a test.
fn always(give: Give, to: u32) -> Rule {
    Rule {
        first: None,
        second: None,
        give,
        to,
    }
}

/// A rule with one test.
fn when(first: Test, give: Give, to: u32) -> Rule {
    Rule {
        first: Some(first),
        ..always(give, to)
    }
}

/// Constraints in which each rule stands so many times.
fn system(
    alloc: Global,
    rows: u32,
    atoms: u32,
    rules: &[Rule],
    times: usize,
) -> Result<Constraints, Fail> {
    let mut all = Rules::new(alloc);
    for rule in rules {
        for _ in 0..times {
            all.push(*rule)?;
        }
    }
    Ok(Constraints::new(rows, atoms, all).ok_or("the constraints are valid")?)
}

/// Atom 0 to row 0, and from each row to the next: four blocks, most of them too early.
fn four_blocks(alloc: Global) -> Result<Constraints, Fail> {
    let rules = [
        always(Give::Atom(0), 0),
        always(Give::Row(2), 3),
        always(Give::Row(1), 2),
        always(Give::Row(0), 1),
    ];
    system(alloc, 4, 1, &rules, BLOCK)
}

/// From a row to the next one: each third time what it has, where it has atom 0 and another than atom 1.
fn link(row: u32) -> Rule
    requires { row < 1000 }
{
    let has = Test::Has { row, atom: 0 };
    match row % 3 {
        0 => always(Give::Row(row), row + 1),
        1 => when(has, Give::Atom(0), row + 1),
        _ => Rule {
            second: Some(Test::Other { row, atom: 1 }),
            ..when(has, Give::Row(row), row + 1)
        },
    }
}

/// An atom to the first row, and from each of a hundred rows to the next, as a round in the order of the rules does it.
fn with_the_order(alloc: Global) -> Result<Rules, Fail> {
    let mut rules = Rules::new(alloc);
    rules.push(always(Give::Atom(0), 0))?;
    for row in 0..99 {
        rules.push(link(row))?;
    }
    Ok(rules)
}

/// The same, the last rule first: a round in their order does one after what it needs.
fn against_the_order(alloc: Global) -> Result<Rules, Fail> {
    let mut rules = Rules::new(alloc);
    for row in 1..100 {
        rules.push(link(99 - row))?;
    }
    rules.push(always(Give::Atom(0), 0))?;
    Ok(rules)
}

/// A gate that counts how often it is passed.
#[derive(Drop)]
struct Counter {
    passes: AtomicU32,
}

impl Gate for Counter {
    fn pass(&self, _worker: u32, _block: u32) {
        self.passes.fetch_add(1, Ordering::SeqCst);
    }
}

/// A gate that holds the first to come until three more have come, but not for ever.
#[derive(Drop)]
struct Meeting {
    passes: AtomicU32,
    met: AtomicU32,
}

impl Gate for Meeting {
    fn pass(&self, _worker: u32, _block: u32) {
        if self.passes.fetch_add(1, Ordering::SeqCst) > 0 {
            return;
        }
        for _ in 0..200_000_000 {
            if self.passes.load(Ordering::SeqCst) >= 4 {
                self.met.store(1, Ordering::SeqCst);
                return;
            }
        }
    }
}

#[test]
fn blocks_at_rest_are_skipped(rt: HostRuntime) -> Result<(), Fail> {
    let c = four_blocks(rt.alloc())?;
    let gate = Counter {
        passes: AtomicU32::new(0),
    };
    let closed = solve(&rt, &c, 1, &gate)?;
    assert_eq!(rt; closed.rows().words.as_slice(), [1, 1, 1, 1].as_slice());
    assert_eq!(rt; closed.rounds(), 4);
    assert_eq!(rt; gate.passes.load(Ordering::SeqCst), 7);
    Ok(())
}

#[test]
fn two_workers_meet(rt: HostRuntime) -> Result<(), Fail> {
    let c = four_blocks(rt.alloc())?;
    let gate = Meeting {
        passes: AtomicU32::new(0),
        met: AtomicU32::new(0),
    };
    let closed = solve(&rt, &c, 2, &gate)?;
    assert_eq!(rt; closed.rows().words.as_slice(), [1, 1, 1, 1].as_slice());
    assert_eq!(rt; gate.met.load(Ordering::SeqCst), 1);
    Ok(())
}

/// Solves with 1, 2, 7 and 32 workers, and compares with what plain steps make.
fn solve_with_all<R: AllocGlobal + Threads + Sync>(rt: &R, c: &Constraints) -> Result<bool, Fail> {
    let plain = solve_plain(rt.alloc(), c)?;
    let most = u64::from(chain(rt.alloc(), c)?) + 1;
    for workers in [1, 2, 7, 32] {
        let closed = solve(rt, c, workers, &OpenGate)?;
        if closed.rows().words.as_slice() != plain.words.as_slice() || closed.rounds() > most {
            return Ok(false);
        }
    }
    Ok(true)
}

#[test]
fn each_number_of_workers_finds_the_least_solution(rt: HostRuntime) -> Result<(), Fail> {
    let more_than_3 = [
        when(Test::Other { row: 0, atom: 3 }, Give::Atom(0), 1),
        when(Test::Has { row: 2, atom: 0 }, Give::Atom(1), 0),
        when(Test::Has { row: 0, atom: 3 }, Give::Atom(0), 2),
        always(Give::Atom(3), 0),
    ];
    let wide = [
        always(Give::Row(0), 1),
        always(Give::Atom(69), 0),
        when(Test::Other { row: 1, atom: 69 }, Give::Atom(1), 2),
        when(Test::Has { row: 1, atom: 69 }, Give::Atom(64), 2),
    ];
    let both = Rule {
        second: Some(Test::Other { row: 0, atom: 1 }),
        ..when(Test::Has { row: 0, atom: 0 }, Give::Atom(1), 1)
    };
    let second = [always(Give::Atom(0), 0), both];
    let with = with_the_order(rt.alloc())?;
    let against = against_the_order(rt.alloc())?;
    // rows, atoms, rules, how often each stands: in more than 64 blocks, where these are 20,000 or `BLOCK`
    let cases: [(u32, u32, &[Rule], usize); 13] = [
        (4, 1, &[], 1),
        (3, 5, &more_than_3, 1),
        (3, 5, &more_than_3, 700),
        (3, 5, &more_than_3, 20_000),
        (3, 70, &wide, 1),
        (3, 70, &wide, 2_000),
        (3, 70, &wide, 20_000),
        (2, 2, &second, 1_025),
        (2, 2, &second, 40_000),
        (100, 2, with.as_slice(), 10),
        (100, 2, with.as_slice(), BLOCK),
        (100, 2, against.as_slice(), 10),
        (100, 2, against.as_slice(), BLOCK),
    ];
    for (rows, atoms, rules, times) in cases {
        let c = system(rt.alloc(), rows, atoms, rules, times)?;
        assert!(rt; solve_with_all(&rt, &c)?, "{rows} rows, {times} times");
    }
    Ok(())
}
