//! The named form of a small core.

use box_name::name;
use core_form::{RenExpr, Renamed, VarRef, What};
use named_form::Act;
use scheme_base::{Ids, List, Lit, Pos};
use std::alloc::{AllocError, Global};
use std::test::Fail;

fn expr(what: What<VarRef>) -> RenExpr {
    RenExpr {
        what,
        pos: Pos { line: 1, col: 1 },
    }
}

/// `((lambda (x) (set! x x)) #f)`
fn sample(alloc: Global) -> Result<Renamed, AllocError> {
    let mut exprs = List::new(alloc);
    exprs.push(expr(What::Ref(VarRef::Local(0))))?;
    exprs.push(expr(What::Set {
        var: VarRef::Local(0),
        value: 0,
    }))?;
    exprs.push(expr(What::Lambda {
        params: List::from_vec(vec![in alloc; VarRef::Local(0)]?),
        rest: None,
        body: 1,
    }))?;
    exprs.push(expr(What::Const(0)))?;
    exprs.push(expr(What::Call {
        operator: 2,
        operands: Ids::from_slice(alloc, [3u32].as_slice())?,
    }))?;
    Ok(Renamed {
        exprs,
        forms: Ids::from_slice(alloc, [4u32].as_slice())?,
        lits: List::from_vec(vec![in alloc; Lit::Boolean(false)]?),
    })
}

#[test]
fn assigned_parameter_of_a_direct_call_is_a_box(rt: HostRuntime) -> Result<(), Fail> {
    let core = sample(rt.alloc())?;
    let named = name(rt.alloc(), &core)?;
    assert_eq!(rt; named.procs.len(), 1);
    let Some(program) = named.procs.get(0) else {
        return Err(AllocError.into());
    };
    let [constant, copy, boxed, read, written] = program.body.steps.as_slice() else {
        return Err(AllocError.into());
    };
    assert!(rt; matches!(&constant.act, Act::Const { lit: 0 }));
    assert!(rt; matches!(&copy.act, Act::Copy { from: 0 }));
    assert!(rt; matches!(&boxed.act, Act::MakeBox { from: 1 }));
    assert!(rt;
        matches!(
            &read.act,
            Act::Unbox {
                boxed: 2,
                checked: false
            }
        )
    );
    assert!(rt; matches!(&written.act, Act::SetBox { boxed: 2, from: 3 }));
    Ok(())
}
