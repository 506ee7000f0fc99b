//! The procedures whose closures are told apart.

ghost use Rattle.std.specs.Prelude.{◌≡◌, ◌++◌, map, IfOk, OnOk};
ghost use Rattle.std.specs.List.{flat_map};
ghost use Rattle.plan_facts.specs.Pairs.{holds};
ghost use Rattle.slot_facts.specs.Compare.{closures_of, compared_at, met_by};

use crate::values::closing;
use flow_constraints::Flow;
use flow_form::Rows;
use plan_facts::{Action, Place, holds, is_reached, members};
use scheme_base::{Ids, List, Op};
use std::alloc::{AllocError, Global};

/// The procedures that some `%eqv?` of these may meet as both operands.
pub(crate) fn compared(
    alloc: Global,
    procs: usize,
    flow: &Flow,
    rows: &Rows,
    places: &[Place],
) -> Result<Ids, AllocError>
    ensures { IfOk result (λ numbers. numbers ≡ flat_map (compared_at procs flow.now rows.now) places.now) }
{
    let mut numbers = List::new(alloc);
    for place in places {
        if is_reached(flow, rows, place.block) {
            put_met(alloc, &mut numbers, procs, flow, rows, &place.action)?;
        }
    }
    Ok(numbers)
}

/// The procedures whose closures a step compares.
fn put_met(
    alloc: Global,
    numbers: &mut Ids,
    procs: usize,
    flow: &Flow,
    rows: &Rows,
    action: &Action,
) -> Result<(), AllocError>
    ensures { OnOk result (numbers.new ≡ numbers.old ++ met_by procs flow.now rows.now action.now) }
{
    let Action::Prim { op, operands } = action else {
        return Ok(());
    };
    match (op, operands.as_slice()) {
        (Op::Eqv, [one, other]) => {
            let atoms = members(alloc, rows, flow.var(*one))?;
            put_closures(numbers, procs, flow, rows, atoms.as_slice(), *other)
        }
        _ => Ok(()),
    }
}

/// The procedures of these atoms that a variable may have.
fn put_closures(
    numbers: &mut Ids,
    procs: usize,
    flow: &Flow,
    rows: &Rows,
    atoms: &[u32],
    other: u32,
) -> Result<(), AllocError>
    ensures { OnOk result (numbers.new ≡ numbers.old ++ flat_map (closures_of procs flow.now rows.now other) atoms.now) }
{
    let row = flow.var(other);
    for atom in atoms {
        if let Some(proc) = closing(procs, flow, *atom)
            && holds(rows, row, *atom)
        {
            numbers.push(proc)?;
        }
    }
    Ok(())
}
