use crate::captures;
use flow_form::Rows;
use named_form::{Act, Block, Named, Proc, Step};
use scheme_base::{List, Pos};
use sqlite_items::Items;
use std::alloc::{AllocError, Global};
use std::test::Fail;

/// A program of one step, which calls what a variable is bound to with its continuation.
fn capturing(alloc: Global) -> Result<Named, AllocError> {
    let mut steps = Items::new(alloc);
    steps.push(Step {
        vars: List::from_vec(vec![in alloc; 0]?),
        act: Act::CallCC { operator: 0 },
        pos: Pos { line: 1, col: 1 },
    })?;
    let main = Proc {
        params: List::new(alloc),
        rest: None,
        body: Block { steps, value: None },
        pos: Pos { line: 0, col: 0 },
    };
    Ok(Named {
        procs: List::from_vec(vec![in alloc; main]?),
        tops: 0,
        lits: List::new(alloc),
    })
}

/// The rows of that program: its block has the first word, its variable and the continuation have nothing.
fn rows(alloc: Global, block: u64) -> Result<Rows, AllocError> {
    Ok(Rows {
        stride: 1,
        words: List::from_vec(vec![in alloc; block, 0, 0]?),
    })
}

#[test]
fn what_is_reached_captures(rt: HostRuntime) -> Result<(), Fail> {
    let named = capturing(rt.alloc())?;
    let reached = captures(rt.alloc(), &named, &rows(rt.alloc(), 1)?)?;
    assert_eq!(rt; reached.procs.as_slice(), [0].as_slice());
    assert!(rt; reached.recording.is_empty());
    let unreached = captures(rt.alloc(), &named, &rows(rt.alloc(), 0)?)?;
    assert!(rt; unreached.procs.is_empty());
    Ok(())
}
