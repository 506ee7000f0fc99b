use crate::slots;
use flow_form::Rows;
use named_form::{Act, Block, Fiction, Named, Proc, Slots, Step};
use scheme_base::{Ids, List, Lit, Op, Pos, Stated};
use sqlite_items::Items;
use std::alloc::{AllocError, Global};
use std::test::Fail;

fn step(alloc: Global, var: u32, act: Act) -> Result<Step, AllocError> {
    Ok(Step {
        vars: List::from_vec(vec![in alloc; var]?),
        act,
        pos: Pos { line: 1, col: 1 },
    })
}

fn ids(alloc: Global, numbers: &[u32]) -> Result<Ids, AllocError> {
    List::from_slice(alloc, numbers)
}

fn proc(
    alloc: Global,
    params: &[u32],
    steps: Items<Step>,
    value: Option<u32>,
) -> Result<Proc, AllocError> {
    Ok(Proc {
        params: ids(alloc, params)?,
        rest: None,
        body: Block { steps, value },
        pos: Pos { line: 0, col: 0 },
    })
}

/// A procedure that gives a closure which adds its operand to itself, called with 5.
fn adder(alloc: Global) -> Result<Named, AllocError> {
    let mut main = Items::new(alloc);
    main.push(step(alloc, 0, Act::Closure { proc: 1 })?)?;
    main.push(step(alloc, 1, Act::Const { lit: 0 })?)?;
    let operands = ids(alloc, &[1])?;
    main.push(step(
        alloc,
        2,
        Act::Call {
            operator: 0,
            operands,
        },
    )?)?;
    let mut outer = Items::new(alloc);
    outer.push(step(alloc, 4, Act::Closure { proc: 2 })?)?;
    let mut inner = Items::new(alloc);
    let operands = ids(alloc, &[3, 3])?;
    inner.push(step(
        alloc,
        5,
        Act::Prim {
            op: Op::Add,
            operands,
        },
    )?)?;
    let mut procs = Vec::new(alloc);
    procs.push(proc(alloc, &[], main, None)?)?;
    procs.push(proc(alloc, &[3], outer, Some(4))?)?;
    procs.push(proc(alloc, &[], inner, Some(5))?)?;
    Ok(Named {
        procs: List::from_vec(procs),
        tops: 0,
        lits: List::from_vec(vec![in alloc; Lit::Integer(5)]?),
    })
}

/// The rows of the first body and its variables, of the outer procedure's body, its result and its variables, and
/// of the inner one's. The closures have the atoms 10 and 11.
fn rows(alloc: Global, inner: u64) -> Result<Rows, AllocError> {
    Ok(Rows {
        stride: 1,
        words: List::from_vec(vec![in alloc; 1, 1024, 2, 2048, 1, 2048, 2, 2048, inner, 2, 2]?),
    })
}

/// Each variable that is kept, with the procedure whose closures keep it.
fn kept(alloc: Global, slots: &Slots) -> Result<Vec<(usize, u32)>, AllocError> {
    let mut all = Vec::new(alloc);
    for (proc, vars) in slots.kept.as_slice().iter().enumerate() {
        for var in vars.as_slice() {
            all.push((proc, *var))?;
        }
    }
    Ok(all)
}

fn fictions(alloc: Global, slots: &Slots) -> Result<Vec<(u32, Stated)>, AllocError> {
    let mut all = Vec::new(alloc);
    for Fiction { var, value } in slots.fictitious.as_slice() {
        all.push((*var, *value))?;
    }
    Ok(all)
}

#[test]
fn closure_keeps_what_a_reached_step_reads(rt: HostRuntime) -> Result<(), Fail> {
    let alloc = rt.alloc();
    let found = slots(alloc, &adder(alloc)?, &rows(alloc, 1)?, &List::new(alloc))?;
    assert_eq!(rt; kept(alloc, &found)?.as_slice(), [(2, 3)].as_slice());
    assert_eq!(rt;
        fictions(alloc, &found)?.as_slice(),
        [(0, Stated::Closure(1))].as_slice()
    );
    assert_eq!(rt; found.global.as_slice(), [1, 2].as_slice());
    assert!(rt; found.compared.is_empty());
    Ok(())
}

#[test]
fn closure_of_an_unreached_body_keeps_nothing(rt: HostRuntime) -> Result<(), Fail> {
    let alloc = rt.alloc();
    let found = slots(alloc, &adder(alloc)?, &rows(alloc, 0)?, &List::new(alloc))?;
    assert!(rt; kept(alloc, &found)?.is_empty());
    let known = [
        (0, Stated::Closure(1)),
        (2, Stated::Closure(2)),
        (4, Stated::Closure(2)),
    ];
    assert_eq!(rt; fictions(alloc, &found)?.as_slice(), known.as_slice());
    Ok(())
}

#[test]
fn nothing_is_global_where_something_is_captured(rt: HostRuntime) -> Result<(), Fail> {
    let alloc = rt.alloc();
    let capturing = ids(alloc, &[0])?;
    let found = slots(alloc, &adder(alloc)?, &rows(alloc, 1)?, &capturing)?;
    assert!(rt; found.global.is_empty());
    Ok(())
}

/// A procedure that makes another, which calls itself and never returns.
fn caller_of_itself(alloc: Global) -> Result<Named, AllocError> {
    let mut main = Items::new(alloc);
    main.push(step(alloc, 0, Act::Closure { proc: 1 })?)?;
    let mut outer = Items::new(alloc);
    let procs = ids(alloc, &[2])?;
    outer.push(step(alloc, 1, Act::Fix { procs })?)?;
    let mut inner = Items::new(alloc);
    let operands = ids(alloc, &[])?;
    inner.push(step(
        alloc,
        2,
        Act::Call {
            operator: 1,
            operands,
        },
    )?)?;
    let mut procs = Vec::new(alloc);
    procs.push(proc(alloc, &[], main, None)?)?;
    procs.push(proc(alloc, &[], outer, Some(1))?)?;
    procs.push(proc(alloc, &[], inner, Some(2))?)?;
    Ok(Named {
        procs: List::from_vec(procs),
        tops: 0,
        lits: List::new(alloc),
    })
}

/// Each body is reached, variable 0 is the first closure, variable 1 the second one, variable 2 nothing.
fn all_rows(alloc: Global) -> Result<Rows, AllocError> {
    Ok(Rows {
        stride: 1,
        words: List::from_vec(vec![in alloc; 1, 1024, 1, 2048, 2048, 1, 0, 0]?),
    })
}

#[test]
fn closure_that_needs_itself_alone_keeps_nothing(rt: HostRuntime) -> Result<(), Fail> {
    let alloc = rt.alloc();
    let found = slots(
        alloc,
        &caller_of_itself(alloc)?,
        &all_rows(alloc)?,
        &List::new(alloc),
    )?;
    assert!(rt; kept(alloc, &found)?.is_empty());
    let known = [
        (0, Stated::Closure(1)),
        (1, Stated::Closure(2)),
        (2, Stated::Unspecified),
    ];
    assert_eq!(rt; fictions(alloc, &found)?.as_slice(), known.as_slice());
    Ok(())
}

/// A closure that is compared with itself.
fn comparison(alloc: Global) -> Result<Named, AllocError> {
    let mut main = Items::new(alloc);
    main.push(step(alloc, 0, Act::Closure { proc: 1 })?)?;
    let operands = ids(alloc, &[0, 0])?;
    main.push(step(
        alloc,
        1,
        Act::Prim {
            op: Op::Eqv,
            operands,
        },
    )?)?;
    let mut procs = Vec::new(alloc);
    procs.push(proc(alloc, &[], main, None)?)?;
    procs.push(proc(alloc, &[], Items::new(alloc), None)?)?;
    Ok(Named {
        procs: List::from_vec(procs),
        tops: 0,
        lits: List::new(alloc),
    })
}

#[test]
fn compared_closure_has_a_place(rt: HostRuntime) -> Result<(), Fail> {
    let alloc = rt.alloc();
    let words = List::from_vec(vec![in alloc; 1, 1024, 16, 0, 0]?);
    let rows = Rows { stride: 1, words };
    let found = slots(alloc, &comparison(alloc)?, &rows, &List::new(alloc))?;
    assert_eq!(rt; found.compared.as_slice(), [1].as_slice());
    assert_eq!(rt; found.global.as_slice(), [0].as_slice());
    assert_eq!(rt;
        fictions(alloc, &found)?.as_slice(),
        [(1, Stated::True)].as_slice()
    );
    Ok(())
}
