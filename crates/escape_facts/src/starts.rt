//! The sites that escape whatever else does.

ghost use Rattle.std.specs.Prelude.{◌≡◌, ◌++◌, None, OnOk, IfOk};
ghost use Rattle.std.specs.List.{flat_map};
ghost use Rattle.least_set.specs.Search.{listed};
ghost use Rattle.named_form.specs.Code.{option_list};
ghost use Rattle.named_form.specs.Valid.{numbers_from};
ghost use Rattle.plan_facts.specs.Escaping.{operand_at, passes_on, stored, stored_operand};
ghost use Rattle.escape_facts.specs.Owners.{each_entry};
ghost use Rattle.escape_facts.specs.Reached.{all_starts, passed_starts, result_starts, row_starts, rows_sites, step_starts, stored_starts, vars_sites, var_sites};

use crate::contents::next_row;
use crate::owners::number_of;
use crate::rows::put_row;
use flow_constraints::{Entry, Flow};
use flow_form::Rows;
use plan_facts::{Action, Place, is_reached};
use scheme_base::{Ids, List, Op};
use std::alloc::{AllocError, Global};

/// The sites that escape whatever else does, where `owners` are the procedures whose a site is, and `own` the sites of
/// a procedure.
pub(crate) fn starts_of(
    alloc: Global,
    tops: u32,
    flow: &Flow,
    rows: &Rows,
    places: &[Place],
    owners: &[Ids],
    own: &[Ids],
    capturing: &[u32],
) -> Result<Ids, AllocError>
    ensures { IfOk result (λ sites. sites ≡ all_starts (listed owners.now) (listed own.now) flow.now rows.now tops places.now capturing.now) }
{
    let mut sites = row_starts(alloc, tops, flow, rows, places, owners)?;
    put_own(&mut sites, own, capturing)?;
    Ok(sites)
}

/// The sites that rows tell of, whatever else escapes.
fn row_starts(
    alloc: Global,
    tops: u32,
    flow: &Flow,
    rows: &Rows,
    places: &[Place],
    owners: &[Ids],
) -> Result<Ids, AllocError>
    ensures { IfOk result (λ sites. sites ≡ row_starts (listed owners.now) flow.now rows.now tops places.now) }
{
    let mut sites = List::new(alloc);
    put_tops(alloc, &mut sites, rows, owners, tops)?;
    put_steps(alloc, &mut sites, flow, rows, owners, places)?;
    put_results(
        alloc,
        &mut sites,
        flow,
        rows,
        owners,
        flow.entries.as_slice(),
    )?;
    Ok(sites)
}

/// Puts the sites of what top-level variables may be at the end of a list.
fn put_tops(
    alloc: Global,
    sites: &mut Ids,
    rows: &Rows,
    owners: &[Ids],
    tops: u32,
) -> Result<(), AllocError>
    ensures { OnOk result (sites.new ≡ sites.old ++ rows_sites (listed owners.now) rows.now None (numbers_from 0 tops)) }
{
    for top in 0..tops {
        put_row(alloc, sites, rows, owners, None, top)?;
    }
    Ok(())
}

/// Puts the sites of what steps store or hand on at the end of a list.
fn put_steps(
    alloc: Global,
    sites: &mut Ids,
    flow: &Flow,
    rows: &Rows,
    owners: &[Ids],
    places: &[Place],
) -> Result<(), AllocError>
    ensures { OnOk result (sites.new ≡ sites.old ++ flat_map (step_starts (listed owners.now) flow.now rows.now) places.now) }
{
    for place in places {
        put_step(alloc, sites, flow, rows, owners, place)?;
    }
    Ok(())
}

/// Puts the sites of what a step stores or hands on at the end of a list.
fn put_step(
    alloc: Global,
    sites: &mut Ids,
    flow: &Flow,
    rows: &Rows,
    owners: &[Ids],
    place: &Place,
) -> Result<(), AllocError>
    ensures { OnOk result (sites.new ≡ sites.old ++ step_starts (listed owners.now) flow.now rows.now place.now) }
{
    if !is_reached(flow, rows, place.block) {
        return Ok(());
    }
    put_stored(alloc, sites, flow, rows, owners, place)?;
    put_passed(alloc, sites, flow, rows, owners, place)
}

/// Puts the sites of what a step stores at the end of a list.
fn put_stored(
    alloc: Global,
    sites: &mut Ids,
    flow: &Flow,
    rows: &Rows,
    owners: &[Ids],
    place: &Place,
) -> Result<(), AllocError>
    ensures { OnOk result (sites.new ≡ sites.old ++ stored_starts (listed owners.now) flow.now rows.now place.now) }
{
    match stored(&place.action) {
        None => Ok(()),
        Some(var) => put_var(alloc, sites, flow, rows, owners, None, var),
    }
}

/// What a step stores in an object or a box.
fn stored(action: &Action) -> Option<u32>
    ensures { result ≡ stored action.now }
{
    match action {
        Action::SetBox { from, .. } => Some(*from),
        Action::Prim { op, operands } => operand_at(operands, stored_operand(*op)),
        _ => None,
    }
}

/// Which operand an operation stores in an object.
fn stored_operand(op: Op) -> Option<usize>
    ensures { result ≡ stored_operand op }
{
    match op {
        Op::SetCar | Op::SetCdr => Some(1),
        Op::VectorSet => Some(2),
        _ => None,
    }
}

fn operand_at(operands: &Ids, place: Option<usize>) -> Option<u32>
    ensures { result ≡ operand_at operands.now place }
{
    match place {
        None => None,
        Some(place) => operands.get(place).copied(),
    }
}

/// Puts the sites of what a tail call hands on of its procedure's own at the end of a list.
fn put_passed(
    alloc: Global,
    sites: &mut Ids,
    flow: &Flow,
    rows: &Rows,
    owners: &[Ids],
    place: &Place,
) -> Result<(), AllocError>
    ensures { OnOk result (sites.new ≡ sites.old ++ passed_starts (listed owners.now) flow.now rows.now place.now) }
{
    if !place.tail {
        return Ok(());
    }
    let vars = passed(alloc, &place.action)?;
    put_vars(
        alloc,
        sites,
        flow,
        rows,
        owners,
        Some(place.proc),
        vars.as_slice(),
    )
}

/// What a call hands on.
fn passed(alloc: Global, action: &Action) -> Result<Ids, AllocError>
    ensures { IfOk result (λ vars. vars ≡ passes_on action.now) }
{
    match action {
        Action::Call { operator, operands } => {
            let mut vars = List::from_slice(alloc, &[*operator])?;
            vars.extend_from_slice(operands.as_slice())?;
            Ok(vars)
        }
        Action::Apply { operator, list } => List::from_slice(alloc, &[*operator, *list]),
        Action::CallCC { operator } => List::from_slice(alloc, &[*operator]),
        _ => Ok(List::new(alloc)),
    }
}

/// Puts the sites of what variables may be at the end of a list.
fn put_vars(
    alloc: Global,
    sites: &mut Ids,
    flow: &Flow,
    rows: &Rows,
    owners: &[Ids],
    whose: Option<u32>,
    vars: &[u32],
) -> Result<(), AllocError>
    ensures { OnOk result (sites.new ≡ sites.old ++ vars_sites (listed owners.now) flow.now rows.now whose vars.now) }
{
    for var in vars {
        put_var(alloc, sites, flow, rows, owners, whose, *var)?;
    }
    Ok(())
}

/// Puts the sites of what a variable may be at the end of a list.
fn put_var(
    alloc: Global,
    sites: &mut Ids,
    flow: &Flow,
    rows: &Rows,
    owners: &[Ids],
    whose: Option<u32>,
    var: u32,
) -> Result<(), AllocError>
    ensures { OnOk result (sites.new ≡ sites.old ++ var_sites (listed owners.now) flow.now rows.now whose var) }
{
    put_row(alloc, sites, rows, owners, whose, flow.var(var))
}

/// Puts the sites of what procedures give back of their own at the end of a list.
fn put_results(
    alloc: Global,
    sites: &mut Ids,
    flow: &Flow,
    rows: &Rows,
    owners: &[Ids],
    entries: &[Entry],
) -> Result<(), AllocError>
    ensures { OnOk result (sites.new ≡ sites.old ++ each_entry (result_starts (listed owners.now) flow.now rows.now) 1 entries.now) }
{
    for at in 0..entries.len() {
        let number = number_of(at)?;
        let row = next_row(flow.reach(entries[at].block))?;
        put_row(alloc, sites, rows, owners, Some(number), row)?;
    }
    Ok(())
}

/// Puts the sites of the program and of captured procedures at the end of a list, where these are the sites of a
/// procedure.
fn put_own(sites: &mut Ids, own: &[Ids], capturing: &[u32]) -> Result<(), AllocError>
    ensures { OnOk result (sites.new ≡ sites.old ++ (listed own.now 0 ++ flat_map (listed own.now) capturing.now)) }
{
    put_sites(sites, own, 0)?;
    for proc in capturing {
        put_sites(sites, own, *proc)?;
    }
    Ok(())
}

/// Puts the sites of a procedure at the end of a list.
fn put_sites(sites: &mut Ids, own: &[Ids], proc: u32) -> Result<(), AllocError>
    ensures { OnOk result (sites.new ≡ sites.old ++ listed own.now proc) }
{
    match own.get(proc as usize) {
        None => Ok(()),
        Some(more) => sites.extend_from_slice(more.as_slice()),
    }
}
