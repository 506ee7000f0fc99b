use crate::reprs;
use flow_form::Rows;
use named_form::{Act, Block, Fiction, Named, Proc, Repr, Slots, Step};
use scheme_base::{Ids, List, Lit, Op, Pos, Stated};
use sqlite_items::Items;
use std::alloc::{AllocError, Global};
use std::test::Fail;

fn step(alloc: Global, var: u32, act: Act) -> Result<Step, AllocError> {
    Ok(Step {
        vars: List::from_vec(vec![in alloc; var]?),
        act,
        pos: Pos { line: 1, col: 1 },
    })
}

fn ids(alloc: Global, numbers: &[u32]) -> Result<Ids, AllocError> {
    List::from_slice(alloc, numbers)
}

/// `(%+ 1 #t)`, which binds its operands and its sum, and the variable of an `If` whose arms are empty.
fn sum(alloc: Global) -> Result<Named, AllocError> {
    let mut steps = Items::new(alloc);
    steps.push(step(alloc, 0, Act::Const { lit: 0 })?)?;
    steps.push(step(alloc, 1, Act::Const { lit: 1 })?)?;
    let operands = ids(alloc, &[0, 1])?;
    steps.push(step(
        alloc,
        2,
        Act::Prim {
            op: Op::Add,
            operands,
        },
    )?)?;
    let twice = ids(alloc, &[0, 0])?;
    steps.push(step(
        alloc,
        3,
        Act::Prim {
            op: Op::Add,
            operands: twice,
        },
    )?)?;
    let main = Proc {
        params: List::new(alloc),
        rest: None,
        body: Block { steps, value: None },
        pos: Pos { line: 0, col: 0 },
    };
    Ok(Named {
        procs: List::from_vec(vec![in alloc; main]?),
        tops: 0,
        lits: List::from_vec(vec![in alloc; Lit::Integer(1), Lit::Boolean(true)]?),
    })
}

#[test]
fn integers_are_bare_and_checks_stand_where_they_refuse(rt: HostRuntime) -> Result<(), Fail> {
    let alloc = rt.alloc();
    let named = sum(alloc)?;
    // the first block is reached; the first variable is an integer, the second true, both sums integers
    let rows = Rows {
        stride: 1,
        words: List::from_vec(vec![in alloc; 1, 2, 16, 2, 2]?),
    };
    let slots = Slots {
        kept: List::new(alloc),
        fictitious: List::from_vec(vec![in alloc;
            Fiction {
                var: 1,
                value: Stated::True
            },
        ]?),
        global: List::new(alloc),
        compared: List::new(alloc),
    };
    let found = reprs(alloc, &named, &rows, &slots)?;
    let held = [Repr::Raw, Repr::Nothing, Repr::Raw, Repr::Raw];
    assert_eq!(rt; found.vars.as_slice(), held.as_slice());
    assert_eq!(rt; found.blocks.as_slice(), [true].as_slice());
    let mut checked = Vec::new(alloc);
    for used in found.steps.as_slice() {
        assert!(rt; used.reached);
        checked.push(used.checked)?;
    }
    assert_eq!(rt; checked.as_slice(), [true, true, true, false].as_slice());
    Ok(())
}
