//! Renamed cores: shared expressions, and the depth that is refused.

use alpha_core::rename;
use core_form::{Core, Expr, Var, VarRef, What};
use scheme_base::{Bytes, Ids, LimitErr, LimitKind, List, Pos};
use std::alloc::{AllocError, Global};
use std::test::Fail;

fn expr(what: What<Var>) -> Expr {
    Expr {
        what,
        pos: Pos { line: 1, col: 1 },
    }
}

fn var(alloc: Global, name: &[u8]) -> Result<Var, AllocError> {
    Ok(Var {
        name: Bytes::from_slice(alloc, name)?,
        lib: false,
    })
}

/// `(seq (lambda (x) x) (lambda (x) x))`, where both items are one expression.
fn shared(alloc: Global) -> Result<Core, AllocError> {
    let mut exprs = List::new(alloc);
    exprs.push(expr(What::Ref(var(alloc, b"x".as_slice())?)))?;
    exprs.push(expr(What::Lambda {
        params: List::from_vec(vec![in alloc; var(alloc, b"x".as_slice())?]?),
        rest: None,
        body: 0,
    }))?;
    exprs.push(expr(What::Seq {
        items: Ids::from_slice(alloc, [1u32, 1u32].as_slice())?,
    }))?;
    Ok(Core {
        exprs,
        forms: Ids::from_slice(alloc, [2u32].as_slice())?,
        lits: List::new(alloc),
    })
}

/// The core of `(and 1 .. 1)` with so many operands.
fn conditionals(alloc: Global, count: u32) -> Result<Core, AllocError> {
    let mut exprs = List::new(alloc);
    exprs.push(expr(What::Const(0)))?;
    let mut last = 0;
    for _ in 1..count {
        let Ok(id) = u32::try_from(exprs.len()) else {
            return Err(AllocError);
        };
        exprs.push(expr(What::If {
            test: 0,
            yes: last,
            no: 0,
        }))?;
        last = id;
    }
    Ok(Core {
        exprs,
        forms: Ids::from_slice(alloc, [last].as_slice())?,
        lits: List::new(alloc),
    })
}

#[test]
fn shared_expression_is_renamed_at_each_place(rt: HostRuntime) -> Result<(), Fail> {
    let core = shared(rt.alloc())?;
    let Ok(renamed) = rename(rt.alloc(), &core) else {
        return Err(AllocError.into());
    };
    assert_eq!(rt; renamed.exprs.len(), 5);
    let Some(second) = renamed.exprs.get(2) else {
        return Err(AllocError.into());
    };
    assert!(rt; matches!(&second.what, What::Ref(VarRef::Local(1))));
    Ok(())
}

#[test]
fn depth_is_at_most_4000(rt: HostRuntime) -> Result<(), Fail> {
    let core = conditionals(rt.alloc(), 4000)?;
    assert!(rt; rename(rt.alloc(), &core).is_ok());
    let core = conditionals(rt.alloc(), 4001)?;
    let Err(LimitErr::Limit(limit)) = rename(rt.alloc(), &core) else {
        return Err(AllocError.into());
    };
    assert!(rt; limit.which == LimitKind::Depth);
    assert_eq!(rt; limit.count, 4001);
    Ok(())
}
