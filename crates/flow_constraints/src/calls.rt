//! The rules of calls: what enters a procedure or a continuation, and what comes back.

ghost use Rattle.std.specs.Prelude.{◌≡◌, ◌++◌, length, OnOk, IfOk};
ghost use Rattle.flow_constraints.specs.Table.{any_list_rules, apply_rules, applied, call_rules, enter_rules, leave_rules, list_rules, operand_rules, rest_rules, resume_rules, spine_rules, takes};

use crate::flow::plus;
use crate::put::{Guard, NIL, REACHED, put_atom, put_row};
use crate::{Entry, Flow};
use flow_form::Rules;
use std::alloc::AllocError;

/// A call in a block: the guard of its rules, the row of what it calls, and the row of its value.
#[derive(Clone, Copy)]
pub(crate) struct Site {
    pub(crate) guard: Guard,
    pub(crate) operator: u32,
    pub(crate) value: u32,
}

/// Whether a procedure takes so many operands.
pub(crate) fn takes(entry: &Entry, operands: usize) -> bool
    ensures { result ≡ takes entry.now operands }
{
    match entry.rest {
        None => entry.params.len() == operands,
        Some(_) => entry.params.len() <= operands,
    }
}

/// The rules of a call with operands of these rows.
pub(crate) fn put_call(
    flow: &Flow,
    rules: &mut Rules,
    site: Site,
    operands: &[u32],
) -> Result<(), AllocError>
    ensures { OnOk result (rules.new ≡ rules.old ++ call_rules flow.now site operands.now) }
{
    for entry in flow.entries.as_slice() {
        put_enter(flow, rules, site, entry, operands)?;
    }
    match operands {
        [operand] => put_resume(flow, rules, site, *operand),
        _ => Ok(()),
    }
}

/// The rules of entering a procedure, if it takes the operands.
fn put_enter(
    flow: &Flow,
    rules: &mut Rules,
    site: Site,
    entry: &Entry,
    operands: &[u32],
) -> Result<(), AllocError>
    ensures { OnOk result (rules.new ≡ rules.old ++ enter_rules flow.now site operands.now entry.now) }
{
    if !takes(entry, operands.len()) {
        return Ok(());
    }
    let guard = site.guard.has(site.operator, entry.atom);
    put_operands(flow, rules, guard, entry, operands)?;
    put_leave(flow, rules, guard, entry, site.value)
}

/// The rules of operands: those of the parameters, then those of the rest list.
fn put_operands(
    flow: &Flow,
    rules: &mut Rules,
    guard: Guard,
    entry: &Entry,
    operands: &[u32],
) -> Result<(), AllocError>
    ensures { OnOk result (rules.new ≡ rules.old ++ operand_rules flow.now guard entry.now entry.now.params operands.now) }
{
    let mut params = entry.params.as_slice();
    let mut operands = operands;
    while let Some((param, others)) = params.split_first() {
        let Some((operand, more)) = operands.split_first() else {
            return Ok(());
        };
        put_row(rules, guard, *operand, flow.var(*param))?;
        params = others;
        operands = more;
    }
    put_rest(flow, rules, guard, entry, operands)
}

/// The rules of the operands past the parameters, and of the list of them.
fn put_rest(
    flow: &Flow,
    rules: &mut Rules,
    guard: Guard,
    entry: &Entry,
    operands: &[u32],
) -> Result<(), AllocError>
    ensures { OnOk result (rules.new ≡ rules.old ++ rest_rules flow.now guard entry.now operands.now) }
{
    let Some(rest) = entry.rest else {
        return Ok(());
    };
    let car = flow.part(entry.list, 0)?;
    for operand in operands {
        put_row(rules, guard, *operand, car)?;
    }
    put_list(flow, rules, guard, entry, rest, operands.len())
}

/// The rules of a list of so many operands.
fn put_list(
    flow: &Flow,
    rules: &mut Rules,
    guard: Guard,
    entry: &Entry,
    rest: u32,
    operands: usize,
) -> Result<(), AllocError>
    ensures { OnOk result (rules.new ≡ rules.old ++ list_rules flow.now guard entry.now rest operands) }
{
    if operands == 0 {
        return put_atom(rules, guard, NIL, flow.var(rest));
    }
    let cdr = flow.part(entry.list, 1)?;
    put_atom(rules, guard, entry.list, flow.var(rest))?;
    put_atom(rules, guard, NIL, cdr)?;
    if operands == 1 {
        return Ok(());
    }
    put_atom(rules, guard, entry.list, cdr)
}

/// The rules of a procedure that is entered: it is reached, and its result comes back.
fn put_leave(
    flow: &Flow,
    rules: &mut Rules,
    guard: Guard,
    entry: &Entry,
    value: u32,
) -> Result<(), AllocError>
    ensures { OnOk result (rules.new ≡ rules.old ++ leave_rules flow.now guard entry.now value) }
{
    let reach = flow.reach(entry.block);
    put_atom(rules, guard, REACHED, reach)?;
    let result = plus(reach, 1)?;
    put_row(rules, guard, result, value)
}

/// The rules of giving an operand to each continuation.
fn put_resume(flow: &Flow, rules: &mut Rules, site: Site, operand: u32) -> Result<(), AllocError>
    ensures { OnOk result (rules.new ≡ rules.old ++ resume_rules flow.now site operand) }
{
    for atom in flow.continuations.as_slice() {
        let guard = site.guard.has(site.operator, *atom);
        put_row(rules, guard, operand, flow.var(flow.continuing(*atom)))?;
    }
    Ok(())
}

/// The rules of the pairs that a list may be made of: `spine` is the row of the list and its cdrs, `items` that of
/// its items.
pub(crate) fn put_spine(
    flow: &Flow,
    rules: &mut Rules,
    guard: Guard,
    spine: u32,
    items: u32,
) -> Result<(), AllocError>
    ensures { OnOk result (rules.new ≡ rules.old ++ spine_rules flow.now guard spine items) }
{
    for atom in flow.pairs.as_slice() {
        let guard = guard.has(spine, *atom);
        put_row(rules, guard, flow.part(*atom, 1)?, spine)?;
        put_row(rules, guard, flow.part(*atom, 0)?, items)?;
    }
    Ok(())
}

/// The rules of a call with any number of operands of one row.
pub(crate) fn put_apply(
    flow: &Flow,
    rules: &mut Rules,
    site: Site,
    items: u32,
) -> Result<(), AllocError>
    ensures { OnOk result (rules.new ≡ rules.old ++ apply_rules flow.now site items) }
{
    for entry in flow.entries.as_slice() {
        put_applied(flow, rules, site, entry, items)?;
    }
    put_resume(flow, rules, site, items)
}

/// The rules of entering a procedure with any number of operands of one row.
fn put_applied(
    flow: &Flow,
    rules: &mut Rules,
    site: Site,
    entry: &Entry,
    items: u32,
) -> Result<(), AllocError>
    ensures { OnOk result (rules.new ≡ rules.old ++ applied flow.now site items entry.now) }
{
    let guard = site.guard.has(site.operator, entry.atom);
    for param in entry.params.as_slice() {
        put_row(rules, guard, items, flow.var(*param))?;
    }
    put_any_list(flow, rules, guard, entry, items)?;
    put_leave(flow, rules, guard, entry, site.value)
}

/// The rules of a rest list of any length with items of one row.
fn put_any_list(
    flow: &Flow,
    rules: &mut Rules,
    guard: Guard,
    entry: &Entry,
    items: u32,
) -> Result<(), AllocError>
    ensures { OnOk result (rules.new ≡ rules.old ++ any_list_rules flow.now guard entry.now items) }
{
    let Some(rest) = entry.rest else {
        return Ok(());
    };
    let rest = flow.var(rest);
    let cdrs = flow.part(entry.list, 1)?;
    put_row(rules, guard, items, flow.part(entry.list, 0)?)?;
    put_atom(rules, guard, entry.list, rest)?;
    put_atom(rules, guard, NIL, rest)?;
    put_atom(rules, guard, NIL, cdrs)?;
    put_atom(rules, guard, entry.list, cdrs)
}
