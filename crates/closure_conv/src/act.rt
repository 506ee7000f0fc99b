//! What one step does, arms aside.

ghost use Rattle.std.specs.Prelude.{◌≡◌, map, None, Some, IfOk, if◌then◌else◌};
ghost use Rattle.std.specs.Option.{option_map};
ghost use Rattle.flat_form.specs.FlatCode.{Prim as PrimOf, Call as CallOf, Apply as ApplyOf, CallCC as CallCCOf, If as IfOf, Closure as ClosureOf, Fix as FixOf, MakeBox as MakeBoxOf, SetBox as SetBoxOf, TopSet as TopSetOf, TopDefine as TopDefineOf};
ghost use Rattle.flat_form.specs.FlatWritten.{act, code, arm};
ghost use Rattle.named_form.specs.Code.{makes as makes_object, closure_site};
ghost use Rattle.named_form.specs.Storage.{mark_of as mark_at, is_static as has_one_closure};
ghost use Rattle.closure_conv.specs.FlatOf.{home, homes, mode_of as mode_at, made as made_of};
ghost use Rattle.closure_conv.specs.Tables.{Runs, scene, mode_in};

use crate::counts::makes;
use crate::tables::{Tables, keeps, mark_of, place_of, places_of};
use flat_form::{FlatAct, FlatBlock, Made, Mades, Mode};
use named_form::Plan;
use scheme_base::{List, Mark, Op};
use std::alloc::{AllocError, Global};

/// What a call that binds this variable does with the frame of its caller.
fn mode_of(tables: &Tables, tail: bool, var: u32) -> Mode
    ensures { result ≡ mode_in tables.now tail var }
{
    if tail {
        if tables.capturing.contains(tables.proc) {
            Mode::RecordTail
        } else {
            Mode::StackTail
        }
    } else if tables.recording.contains(var) {
        Mode::Record
    } else {
        Mode::Stack
    }
}

/// An operation, at the site of what it makes.
pub(crate) fn prim(
    alloc: Global,
    plan: &Plan,
    tables: &Tables,
    site: usize,
    op: Op,
    operands: &[u32],
) -> Result<FlatAct, AllocError>
    requires { Runs plan.now tables.now }
    ensures { IfOk result (λ a. act a ≡ PrimOf op (homes (scene plan.now tables.now) operands.now) (if makes_object op then Some (mark_at plan.now site) else None)) }
{
    let mark = if makes(op) {
        Some(mark_of(plan, site))
    } else {
        None
    };
    Ok(FlatAct::Prim {
        op,
        operands: places_of(alloc, plan, tables, operands)?,
        mark,
    })
}

/// A call that binds `var`, in tail position or not.
pub(crate) fn call(
    alloc: Global,
    plan: &Plan,
    tables: &Tables,
    tail: bool,
    var: u32,
    operator: u32,
    operands: &[u32],
) -> Result<FlatAct, AllocError>
    requires { Runs plan.now tables.now }
    ensures { IfOk result (λ a. act a ≡ CallOf (home (scene plan.now tables.now) operator) (homes (scene plan.now tables.now) operands.now) (mode_at (scene plan.now tables.now) tail var)) }
{
    Ok(FlatAct::Call {
        operator: place_of(plan, tables, operator)?,
        operands: places_of(alloc, plan, tables, operands)?,
        mode: mode_of(tables, tail, var),
    })
}

/// A call with the items of a list.
pub(crate) fn apply(
    plan: &Plan,
    tables: &Tables,
    tail: bool,
    var: u32,
    operator: u32,
    list: u32,
) -> Result<FlatAct, AllocError>
    requires { Runs plan.now tables.now }
    ensures { IfOk result (λ a. act a ≡ ApplyOf (home (scene plan.now tables.now) operator) (home (scene plan.now tables.now) list) (mode_at (scene plan.now tables.now) tail var)) }
{
    Ok(FlatAct::Apply {
        operator: place_of(plan, tables, operator)?,
        list: place_of(plan, tables, list)?,
        mode: mode_of(tables, tail, var),
    })
}

/// A call with the continuation.
pub(crate) fn call_cc(
    plan: &Plan,
    tables: &Tables,
    tail: bool,
    var: u32,
    operator: u32,
) -> Result<FlatAct, AllocError>
    requires { Runs plan.now tables.now }
    ensures { IfOk result (λ a. act a ≡ CallCCOf (home (scene plan.now tables.now) operator) (mode_at (scene plan.now tables.now) tail var)) }
{
    Ok(FlatAct::CallCC {
        operator: place_of(plan, tables, operator)?,
        mode: mode_of(tables, tail, var),
    })
}

/// Whether a procedure has one closure, which no step makes: one that keeps nothing and is not told apart.
fn is_static(plan: &Plan, tables: &Tables, proc: u32) -> bool
    requires { Runs plan.now tables.now }
    ensures { result ≡ has_one_closure plan.now proc }
{
    match keeps(plan, proc) {
        [] => !tables.compared.contains(proc),
        _ => false,
    }
}

/// A closure of a procedure.
fn made(alloc: Global, plan: &Plan, tables: &Tables, proc: u32) -> Result<Made, AllocError>
    requires { Runs plan.now tables.now }
    ensures { IfOk result (λ m. m ≡ made_of (scene plan.now tables.now) proc) }
{
    Ok(Made {
        proc,
        kept: places_of(alloc, plan, tables, keeps(plan, proc))?,
        mark: if is_static(plan, tables, proc) {
            None
        } else {
            Some(closure_mark(plan, proc))
        },
    })
}

/// Where a procedure's closures are made. The sites of closures are the first ones.
fn closure_mark(plan: &Plan, proc: u32) -> Mark
    ensures { result ≡ mark_at plan.now (closure_site proc) }
{
    if proc == 0 {
        mark_of(plan, 0)
    } else {
        mark_of(plan, (proc - 1) as usize)
    }
}

/// A closure.
pub(crate) fn closure(
    alloc: Global,
    plan: &Plan,
    tables: &Tables,
    proc: u32,
) -> Result<FlatAct, AllocError>
    requires { Runs plan.now tables.now }
    ensures { IfOk result (λ a. act a ≡ ClosureOf (made_of (scene plan.now tables.now) proc)) }
{
    Ok(FlatAct::Closure {
        made: made(alloc, plan, tables, proc)?,
    })
}

/// Closures that know each other.
pub(crate) fn fix(
    alloc: Global,
    plan: &Plan,
    tables: &Tables,
    procs: &[u32],
) -> Result<FlatAct, AllocError>
    requires { Runs plan.now tables.now }
    ensures { IfOk result (λ a. act a ≡ FixOf (map (made_of (scene plan.now tables.now)) procs.now)) }
{
    let mut mades: Mades = List::new(alloc);
    for proc in procs {
        mades.push(made(alloc, plan, tables, *proc)?)?;
    }
    Ok(FlatAct::Fix { made: mades })
}

/// A conditional with these arms.
pub(crate) fn choice(
    plan: &Plan,
    tables: &Tables,
    tail: bool,
    test: u32,
    yes: Option<FlatBlock>,
    no: Option<FlatBlock>,
) -> Result<FlatAct, AllocError>
    requires { Runs plan.now tables.now }
    ensures { IfOk result (λ a. act a ≡ IfOf (home (scene plan.now tables.now) test) tail (arm (option_map code yes)) (arm (option_map code no))) }
{
    Ok(FlatAct::If {
        test: place_of(plan, tables, test)?,
        tail,
        yes,
        no,
    })
}

/// An assignment of a variable that is a box.
pub(crate) fn set_box(
    plan: &Plan,
    tables: &Tables,
    boxed: u32,
    from: u32,
) -> Result<FlatAct, AllocError>
    requires { Runs plan.now tables.now }
    ensures { IfOk result (λ a. act a ≡ SetBoxOf (home (scene plan.now tables.now) boxed) (home (scene plan.now tables.now) from)) }
{
    Ok(FlatAct::SetBox {
        boxed: place_of(plan, tables, boxed)?,
        from: place_of(plan, tables, from)?,
    })
}

/// An assignment of a top-level variable.
pub(crate) fn top_set(
    plan: &Plan,
    tables: &Tables,
    top: u32,
    from: u32,
    checked: bool,
) -> Result<FlatAct, AllocError>
    requires { Runs plan.now tables.now }
    ensures { IfOk result (λ a. act a ≡ TopSetOf top (home (scene plan.now tables.now) from) checked) }
{
    Ok(FlatAct::TopSet {
        top,
        from: place_of(plan, tables, from)?,
        checked,
    })
}

/// A definition.
pub(crate) fn top_define(
    plan: &Plan,
    tables: &Tables,
    top: u32,
    from: u32,
) -> Result<FlatAct, AllocError>
    requires { Runs plan.now tables.now }
    ensures { IfOk result (λ a. act a ≡ TopDefineOf top (home (scene plan.now tables.now) from)) }
{
    Ok(FlatAct::TopDefine {
        top,
        from: place_of(plan, tables, from)?,
    })
}
