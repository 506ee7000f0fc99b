//! Which checks stand.

ghost use Rattle.std.specs.Prelude.{◌≡◌, map, slice_get, IfOk};
ghost use Rattle.std.specs.Option.{option_copied};
ghost use Rattle.named_form.specs.Written.{procedure};
ghost use Rattle.plan_facts.specs.Represented.{any_refused, call_refused, is_checked, is_refused, takes_many as takes_so_many, takes_not};
ghost use Rattle.repr_choice.specs.Wanted.{kind_of};

use crate::wanted::{Wanted, operands_wanted, suits};
use flow_constraints::{Flow, Kind};
use flow_form::Rows;
use named_form::Proc;
use plan_facts::{Action, members, takes_many};
use std::alloc::{AllocError, Global};

/// Whether a step's checks stand.
pub(crate) fn is_checked(
    alloc: Global,
    procs: &[Proc],
    flow: &Flow,
    rows: &Rows,
    action: &Action,
) -> Result<bool, AllocError>
    ensures { IfOk result (λ stands. stands ≡ is_checked (map procedure procs.now) flow.now rows.now action.now) }
{
    match action {
        Action::Prim { op, operands } => {
            any_refused(alloc, flow, rows, operands_wanted(*op), operands.as_slice())
        }
        Action::Call { operator, operands } => {
            call_refused(alloc, procs, flow, rows, *operator, operands.len())
        }
        Action::CallCC { operator } => call_refused(alloc, procs, flow, rows, *operator, 1),
        _ => Ok(true),
    }
}

/// Whether some operand may be of a kind that is not wanted.
fn any_refused(
    alloc: Global,
    flow: &Flow,
    rows: &Rows,
    wanted: &[Wanted],
    operands: &[u32],
) -> Result<bool, AllocError>
    ensures { IfOk result (λ refused. refused ≡ any_refused flow.now rows.now (map kind_of wanted.now) operands.now) }
{
    for at in 0..wanted.len() {
        if at >= operands.len() {
            return Ok(false);
        }
        if is_refused(alloc, flow, rows, wanted[at], operands[at])? {
            return Ok(true);
        }
    }
    Ok(false)
}

/// Whether some value that a variable may be does not suit an operand.
fn is_refused(
    alloc: Global,
    flow: &Flow,
    rows: &Rows,
    wanted: Wanted,
    operand: u32,
) -> Result<bool, AllocError>
    ensures { IfOk result (λ refused. refused ≡ is_refused flow.now rows.now (kind_of wanted) operand) }
{
    let atoms = members(alloc, rows, flow.var(operand))?;
    for atom in atoms.as_slice() {
        if !suits(wanted, *atom, flow.kinds.get(*atom as usize)) {
            return Ok(true);
        }
    }
    Ok(false)
}

/// Whether some value that a variable may be is nothing that takes so many operands.
fn call_refused(
    alloc: Global,
    procs: &[Proc],
    flow: &Flow,
    rows: &Rows,
    operator: u32,
    operands: usize,
) -> Result<bool, AllocError>
    ensures { IfOk result (λ refused. refused ≡ call_refused (map procedure procs.now) flow.now rows.now operator operands) }
{
    let atoms = members(alloc, rows, flow.var(operator))?;
    for atom in atoms.as_slice() {
        if takes_not(procs, operands, flow.kinds.get(*atom as usize)) {
            return Ok(true);
        }
    }
    Ok(false)
}

/// Whether what an atom stands for is no closure and no continuation that takes so many operands.
fn takes_not(procs: &[Proc], operands: usize, kind: Option<&Kind>) -> bool
    ensures { result ≡ takes_not (map procedure procs.now) operands (option_copied kind.entry) }
{
    match kind {
        Some(Kind::Closure { proc }) => !takes(procs, *proc, operands),
        Some(Kind::Continuation { .. }) => operands != 1,
        _ => true,
    }
}

/// Whether a procedure is there that takes so many operands.
fn takes(procs: &[Proc], number: u32, operands: usize) -> bool
    ensures { result ≡ takes_so_many (slice_get (map procedure procs.now) number) operands }
{
    match procs.get(number as usize) {
        None => false,
        Some(proc) => takes_many(proc, operands),
    }
}
