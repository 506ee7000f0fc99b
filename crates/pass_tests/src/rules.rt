//! The limits of the constraints, on both sides.

use flow_constraints::generate;
use flow_form::{Give, Rule, Test};
use named_form::{Act, Block, Named, Proc, Step};
use scheme_base::{Limit, LimitErr, LimitKind, List, Lit, Pos};
use sqlite_items::Items;
use std::alloc::{AllocError, Global};
use std::test::Fail;

/// A step that binds this variable.
fn step(alloc: Global, var: u32, act: Act) -> Result<Step, AllocError> {
    Ok(Step {
        vars: List::from_vec(vec![in alloc; var]?),
        act,
        pos: Pos { line: 1, col: 1 },
    })
}

/// A procedure without parameters.
fn procedure(alloc: Global, steps: Items<Step>) -> Proc {
    Proc {
        params: List::new(alloc),
        rest: None,
        body: Block { steps, value: None },
        pos: Pos { line: 0, col: 0 },
    }
}

/// The program that is the literal `1`.
fn one(alloc: Global) -> Result<Named, AllocError> {
    let mut steps = Items::new(alloc);
    steps.push(step(alloc, 0, Act::Const { lit: 0 })?)?;
    Ok(Named {
        procs: List::from_vec(vec![in alloc; procedure(alloc, steps)]?),
        tops: 0,
        lits: List::from_vec(vec![in alloc; Lit::Integer(1)]?),
    })
}

/// The program with so many top-level variables that makes so many boxes: each has an atom and two rows.
fn boxes(alloc: Global, tops: u32, many: u32) -> Result<Named, AllocError> {
    let mut steps = Items::new(alloc);
    for var in 0..many {
        steps.push(step(alloc, var, Act::MakeHole)?)?;
    }
    Ok(Named {
        procs: List::from_vec(vec![in alloc; procedure(alloc, steps)]?),
        tops,
        lits: List::new(alloc),
    })
}

/// The program that has so many calls, and so many procedures that each of them may call: two rules for each.
fn calls(alloc: Global, many: u32, callees: u32) -> Result<Named, AllocError> {
    let mut steps = Items::new(alloc);
    for var in 0..many {
        let operands = List::new(alloc);
        steps.push(step(
            alloc,
            var,
            Act::Call {
                operator: 0,
                operands,
            },
        )?)?;
    }
    let mut procs = List::from_vec(vec![in alloc; procedure(alloc, steps)]?);
    for _ in 0..callees {
        procs.push(procedure(alloc, Items::new(alloc)))?;
    }
    Ok(Named {
        procs,
        tops: 0,
        lits: List::new(alloc),
    })
}

/// The limit for which a program is refused.
fn refusal(alloc: Global, named: &Named) -> Option<Limit> {
    match generate(alloc, named) {
        Err(LimitErr::Limit(limit)) => Some(limit),
        _ => None,
    }
}

fn limit(which: LimitKind, count: u64) -> Option<Limit> {
    Some(Limit { which, count })
}

#[test]
fn literal_has_its_rule(rt: HostRuntime) -> Result<(), Fail> {
    let constraints = generate(rt.alloc(), &one(rt.alloc())?)?;
    let reached = Rule {
        first: None,
        second: None,
        give: Give::Atom(0),
        to: 0,
    };
    let integer = Rule {
        first: Some(Test::Has { row: 0, atom: 0 }),
        second: None,
        give: Give::Atom(1),
        to: 1,
    };
    assert_eq!(rt; constraints.rows, 2);
    assert_eq!(rt; constraints.atoms, 10);
    assert_eq!(rt; constraints.rules.as_slice(), [reached, integer].as_slice());
    Ok(())
}

#[test]
fn counts_at_the_limits_are_taken(rt: HostRuntime) -> Result<(), Fail> {
    let rows = generate(rt.alloc(), &boxes(rt.alloc(), 65_535, 0)?)?;
    assert_eq!(rt; rows.rows, 65_536);
    let words = generate(rt.alloc(), &boxes(rt.alloc(), 16_403, 8_182)?)?;
    assert_eq!(rt; words.rows, 32_768);
    assert_eq!(rt; words.atoms, 8_192);
    Ok(())
}

#[test]
fn first_limit_that_is_passed_is_told(rt: HostRuntime) -> Result<(), Fail> {
    let rows = boxes(rt.alloc(), 65_536, 8_183)?;
    assert_eq!(rt; refusal(rt.alloc(), &rows), limit(LimitKind::Rows, 81_903));
    let atoms = boxes(rt.alloc(), 40_000, 8_183)?;
    assert_eq!(rt; refusal(rt.alloc(), &atoms), limit(LimitKind::Atoms, 8_193));
    let words = boxes(rt.alloc(), 16_404, 8_182)?;
    assert_eq!(rt;
        refusal(rt.alloc(), &words),
        limit(LimitKind::Table, 4_194_432)
    );
    let rules = calls(rt.alloc(), 525, 8_000)?;
    assert_eq!(rt;
        refusal(rt.alloc(), &rules),
        limit(LimitKind::Rules, 8_400_001)
    );
    Ok(())
}
