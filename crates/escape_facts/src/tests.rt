use crate::escapes;
use flow_form::Rows;
use named_form::{Act, Block, Named, Proc, ProcSet, Sites, Step};
use scheme_base::{List, Pos};
use sqlite_items::Items;
use std::alloc::{AllocError, Global};
use std::test::Fail;

/// A step that binds a variable.
fn step(alloc: Global, var: u32, act: Act) -> Result<Step, AllocError> {
    Ok(Step {
        vars: List::from_vec(vec![in alloc; var]?),
        act,
        pos: Pos { line: 1, col: 1 },
    })
}

/// A procedure without parameters whose steps are these, and whose value is that of a variable.
fn proc(alloc: Global, steps: Items<Step>, value: Option<u32>) -> Proc {
    Proc {
        params: List::new(alloc),
        rest: None,
        body: Block { steps, value },
        pos: Pos { line: 0, col: 0 },
    }
}

/// A program that makes the closures of a procedure which makes two boxes and gives back the second one.
fn boxes(alloc: Global) -> Result<Named, AllocError> {
    let mut main = Items::new(alloc);
    main.push(step(alloc, 0, Act::Closure { proc: 1 })?)?;
    let mut inner = Items::new(alloc);
    inner.push(step(alloc, 1, Act::MakeHole)?)?;
    inner.push(step(alloc, 2, Act::MakeHole)?)?;
    let mut procs = List::new(alloc);
    procs.push(proc(alloc, main, None))?;
    procs.push(proc(alloc, inner, Some(2)))?;
    Ok(Named {
        procs,
        tops: 0,
        lits: List::new(alloc),
    })
}

/// The rows of that program, where its second procedure gives back what has these atoms, and its second box holds what
/// has those. They are those of the body and of variable 0, of the body and the results of procedure 1, and of the two
/// boxes with their contents.
fn rows(alloc: Global, results: u64, held: u64) -> Result<Rows, AllocError> {
    let mut words = List::new(alloc);
    words.extend_from_slice(&[1, 1 << 10, 1, results, 1 << 11, 0, 1 << 12, held])?;
    Ok(Rows { stride: 1, words })
}

/// The sites of that program that escape, where nothing is captured.
fn escaping(alloc: Global, results: u64, held: u64) -> Result<Sites, AllocError> {
    let named = boxes(alloc)?;
    let nobody = ProcSet {
        procs: List::new(alloc),
        recording: List::new(alloc),
    };
    escapes(alloc, &named, &rows(alloc, results, held)?, &nobody)
}

#[test]
fn what_is_given_back_escapes(rt: HostRuntime) -> Result<(), Fail> {
    let second = escaping(rt.alloc(), 1 << 12, 0)?;
    assert_eq!(rt; second.as_slice(), [0, 2].as_slice());
    let neither = escaping(rt.alloc(), 0, 0)?;
    assert_eq!(rt; neither.as_slice(), [0].as_slice());
    Ok(())
}

#[test]
fn what_an_escaping_box_holds_escapes(rt: HostRuntime) -> Result<(), Fail> {
    let both = escaping(rt.alloc(), 1 << 12, 1 << 11)?;
    assert_eq!(rt; both.as_slice(), [0, 1, 2].as_slice());
    let neither = escaping(rt.alloc(), 0, 1 << 11)?;
    assert_eq!(rt; neither.as_slice(), [0].as_slice());
    Ok(())
}
