use crate::regions;
use named_form::{Act, Block, Named, Proc, Step};
use scheme_base::{List, Mark, Pos};
use sqlite_items::Items;
use std::alloc::{AllocError, Global};
use std::test::Fail;

/// A program that makes two boxes.
fn boxes(alloc: Global) -> Result<Named, AllocError> {
    let mut steps = Items::new(alloc);
    for var in 0..2 {
        steps.push(Step {
            vars: List::from_vec(vec![in alloc; var]?),
            act: Act::MakeHole,
            pos: Pos { line: 1, col: 1 },
        })?;
    }
    let main = Proc {
        params: List::new(alloc),
        rest: None,
        body: Block { steps, value: None },
        pos: Pos { line: 0, col: 0 },
    };
    Ok(Named {
        procs: List::from_vec(vec![in alloc; main]?),
        tops: 0,
        lits: List::new(alloc),
    })
}

#[test]
fn what_escapes_is_global(rt: HostRuntime) -> Result<(), Fail> {
    let named = boxes(rt.alloc())?;
    let escaping = List::from_vec(vec![in rt.alloc(); 1, 7]?);
    let marks = regions(rt.alloc(), &named, &escaping)?;
    assert_eq!(rt; marks.as_slice(), [Mark::Local, Mark::Global].as_slice());
    Ok(())
}
