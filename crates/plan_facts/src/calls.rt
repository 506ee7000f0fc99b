//! What a call may reach.

ghost use Rattle.std.specs.Prelude.{◌≡◌, is_some, length, map, slice_get, IfOk};
ghost use Rattle.std.specs.List.{flat_map};
ghost use Rattle.scheme_base.specs.Operations.{takes};
ghost use Rattle.named_form.specs.Code.{option_list};
ghost use Rattle.named_form.specs.Written.{procedure};
ghost use Rattle.plan_facts.specs.Calls.{entered, entered_at, is_reached, may_resume, operator_of, resumes, takes_of};

use crate::{Action, holds, members};
use flow_constraints::{Flow, Kind};
use flow_form::Rows;
use named_form::Proc;
use scheme_base::{Ids, List};
use std::alloc::{AllocError, Global};

/// The atom by which a block is reached.
const REACHED: u32 = 0;

/// Whether a block is reached.
pub fn is_reached(flow: &Flow, rows: &Rows, block: u32) -> bool
    ensures { result ≡ is_reached flow.now rows.now block }
{
    holds(rows, flow.reach(block), REACHED)
}

/// The variable whose value a call calls.
fn operator_of(action: &Action) -> Option<u32>
    ensures { result ≡ operator_of action.now }
{
    match action {
        Action::Call { operator, .. }
        | Action::Apply { operator, .. }
        | Action::CallCC { operator } => { Some(*operator) }
        _ => None,
    }
}

/// The procedures that a call may enter, by the atoms of its operator's row.
pub fn entered(
    alloc: Global,
    procs: &[Proc],
    flow: &Flow,
    rows: &Rows,
    action: &Action,
) -> Result<Ids, AllocError>
    ensures { IfOk result (λ numbers. numbers ≡ entered (map procedure procs.now) flow.now rows.now action.now) }
{
    match operator_of(action) {
        None => Ok(List::new(alloc)),
        Some(operator) => {
            let atoms = members(alloc, rows, flow.var(operator))?;
            entered_of(alloc, procs, flow, action, atoms.as_slice())
        }
    }
}

/// The procedures that a call may enter whose operator has these atoms.
fn entered_of(
    alloc: Global,
    procs: &[Proc],
    flow: &Flow,
    action: &Action,
    atoms: &[u32],
) -> Result<Ids, AllocError>
    ensures { IfOk result (λ numbers. numbers ≡ flat_map (λ atom. option_list (entered_at (map procedure procs.now) flow.now action.now atom)) atoms.now) }
{
    let mut numbers = List::new(alloc);
    for atom in atoms {
        if let Some(number) = entered_at(procs, flow, action, *atom) {
            numbers.push(number)?;
        }
    }
    Ok(numbers)
}

/// The procedure of an atom, if the atom is of its closures and it takes the call's operands.
fn entered_at(procs: &[Proc], flow: &Flow, action: &Action, atom: u32) -> Option<u32>
    ensures { result ≡ entered_at (map procedure procs.now) flow.now action.now atom }
{
    match flow.kinds.get(atom as usize) {
        Some(Kind::Closure { proc }) if takes(procs, *proc, action) => Some(*proc),
        _ => None,
    }
}

/// Whether a procedure is there and takes the operands of a call.
fn takes(procs: &[Proc], number: u32, action: &Action) -> bool
    ensures { result ≡ takes_of (slice_get (map procedure procs.now) number) action.now }
{
    match procs.get(number as usize) {
        None => false,
        Some(proc) => match action {
            Action::Call { operands, .. } => takes_many(proc, operands.len()),
            Action::CallCC { .. } => takes_many(proc, 1),
            Action::Apply { .. } => true,
            _ => false,
        },
    }
}

/// Whether a procedure takes so many operands.
pub fn takes_many(proc: &Proc, operands: usize) -> bool
    ensures { result ≡ takes (length proc.now.params) (is_some proc.now.rest) operands }
{
    match proc.rest {
        None => proc.params.len() == operands,
        Some(_) => proc.params.len() <= operands,
    }
}

/// Whether a call may reach a continuation.
pub fn may_resume(flow: &Flow, rows: &Rows, action: &Action) -> bool
    ensures { result ≡ may_resume flow.now rows.now action.now }
{
    match action {
        Action::Call { operator, operands } => operands.len() == 1
            && resumes(flow, rows, *operator),
        Action::Apply { operator, .. } | Action::CallCC { operator } => resumes(
            flow, rows, *operator,
        ),
        _ => false,
    }
}

/// Whether a variable may be bound to a continuation.
fn resumes(flow: &Flow, rows: &Rows, operator: u32) -> bool
    ensures { result ≡ resumes flow.now rows.now operator }
{
    let row = flow.var(operator);
    for atom in flow.continuations.as_slice() {
        if holds(rows, row, *atom) {
            return true;
        }
    }
    false
}
