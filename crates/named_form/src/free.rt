//! The free variables of each procedure, in order.

ghost use Rattle.std.specs.Prelude.{◌≡◌, ◌++◌, length, map, nat_lt, vec_len, IfOk, OnOk};
ghost use Rattle.std.specs.List.{filter, flat_map};
ghost use Rattle.named_form.specs.Code.{needs};
ghost use Rattle.named_form.specs.Needs.{among, arms_need, listed, needs_in};
ghost use Rattle.named_form.specs.PlainPlan.{Begins, all_free};
ghost use Rattle.named_form.specs.Written.{act_of, code, procedure};

use crate::{Act, Block, Proc, Step};
use scheme_base::{Ids, List, Uses};
use std::alloc::{AllocError, Global};

/// The free variables of each procedure, in order, where the variables of procedure q are numbered from
/// `firsts[q]` on. A procedure makes closures of later ones alone, so the last comes first.
pub(crate) fn free_variables(
    alloc: Global,
    procs: &[Proc],
    firsts: &[usize],
) -> Result<Uses, AllocError>
    requires { length firsts.now ≡ length procs.now }
    ensures { Begins (map procedure procs.now) firsts.now → IfOk result (λ uses. uses ≡ all_free (map procedure procs.now)) }
{
    let mut free = no_variables(alloc, procs.len())?;
    for q in (0..procs.len()).rev() {
        free[q] = free_in(alloc, &procs[q], firsts[q], free.as_slice())?;
    }
    Ok(List::from_vec(free))
}

/// So many empty lists.
fn no_variables(alloc: Global, many: usize) -> Result<Vec<Ids>, AllocError>
    ensures { IfOk result (λ lists. vec_len lists ≡ many) }
{
    let mut lists = Vec::new(alloc);
    for _ in 0..many {
        lists.push(List::new(alloc))?;
    }
    Ok(lists)
}

/// The free variables of a procedure, in order: those that it needs and that are bound before it.
fn free_in(alloc: Global, proc: &Proc, first: usize, free: &[Ids]) -> Result<Ids, AllocError>
    ensures { IfOk result (λ ids. ids ≡ among first (needs_in (listed free.now) (code proc.now.body))) }
{
    let mut wanted = Vec::new(alloc);
    want_block(&mut wanted, &proc.body, free)?;
    in_order(alloc, wanted, first)
}

/// The variables below `first` of a list, in order.
fn in_order(alloc: Global, mut wanted: Vec<u32>, first: usize) -> Result<Ids, AllocError>
    ensures { IfOk result (λ ids. ids ≡ among first wanted.items) }
{
    wanted.sort()?;
    wanted.dedup();
    let before = below(alloc, wanted.as_slice(), first)?;
    Ok(List::from_vec(before))
}

/// Those of these variables that are below `first`.
fn below(alloc: Global, vars: &[u32], first: usize) -> Result<Vec<u32>, AllocError>
    ensures { IfOk result (λ below. below.items ≡ filter (λ var. nat_lt var first) vars.now) }
{
    vars.iter()
        .copied()
        .filter(|var| (*var as usize) < first)
        .collect(alloc)
}

/// Adds the variables that a block reads, and those that are free in the procedures of which it makes
/// closures.
#[cycle(want)]
fn want_block(wanted: &mut Vec<u32>, block: &Block, free: &[Ids]) -> Result<(), AllocError>
    ensures { OnOk result (wanted.new.items ≡ wanted.old.items ++ needs_in (listed free.now) (code block.now)) }
{
    for step in block.steps.as_slice() {
        want_act(wanted, &step.act, free)?;
    }
    if let Some(value) = block.value {
        wanted.push(value)?;
    }
    Ok(())
}

/// Adds what a step wants, and its arms.
#[cycle(want)]
fn want_act(wanted: &mut Vec<u32>, act: &Act, free: &[Ids]) -> Result<(), AllocError>
    ensures { OnOk result (wanted.new.items ≡ wanted.old.items ++ (needs (listed free.now) (act_of act.now) ++ arms_need (listed free.now) (act_of act.now))) }
{
    match act {
        Act::Copy { from }
        | Act::MakeBox { from }
        | Act::TopSet { from, .. }
        | Act::TopDefine { from, .. } => wanted.push(*from)?,
        Act::Prim { operands, .. } => wanted.extend_from_slice(operands.as_slice())?,
        Act::Call { operator, operands } => {
            wanted.push(*operator)?;
            wanted.extend_from_slice(operands.as_slice())?;
        }
        Act::Apply { operator, list } => wanted.extend_from_slice(&[*operator, *list])?,
        Act::CallCC { operator } => wanted.push(*operator)?,
        Act::If { test, yes, no } => {
            wanted.push(*test)?;
            want_block(wanted, yes, free)?;
            want_block(wanted, no, free)?;
        }
        Act::Closure { proc } => want_free(wanted, *proc, free)?,
        Act::Fix { procs } => want_all(wanted, procs.as_slice(), free)?,
        Act::Unbox { boxed, .. } => wanted.push(*boxed)?,
        Act::SetBox { boxed, from } => wanted.extend_from_slice(&[*boxed, *from])?,
        Act::Const { .. } | Act::MakeHole | Act::TopGet { .. } => {}
    }
    Ok(())
}

/// Adds what is free in a procedure.
fn want_free(wanted: &mut Vec<u32>, proc: u32, free: &[Ids]) -> Result<(), AllocError>
    ensures { OnOk result (wanted.new.items ≡ wanted.old.items ++ listed free.now proc) }
{
    if let Some(ids) = free.get(proc as usize) {
        wanted.extend_from_slice(ids.as_slice())?;
    }
    Ok(())
}

/// Adds what is free in these procedures.
fn want_all(wanted: &mut Vec<u32>, procs: &[u32], free: &[Ids]) -> Result<(), AllocError>
    ensures { OnOk result (wanted.new.items ≡ wanted.old.items ++ flat_map (listed free.now) procs.now) }
{
    for proc in procs {
        want_free(wanted, *proc, free)?;
    }
    Ok(())
}
