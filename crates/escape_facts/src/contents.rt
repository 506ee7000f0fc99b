//! What the objects of a site hold.

ghost use Rattle.std.specs.Prelude.{◌≡◌, ◌+◌, map, slice_get, IfOk};
ghost use Rattle.flow_constraints.specs.Rows.{row, Inside, Var};
ghost use Rattle.least_set.specs.Search.{listed};
ghost use Rattle.plan_facts.specs.Escaping.{contents};
ghost use Rattle.escape_facts.specs.Reached.{held_sites};

use crate::owners::FIRST;
use crate::rows::put_rows;
use flow_constraints::{Flow, Kind};
use flow_form::Rows;
use least_set::Graph;
use scheme_base::{Ids, List};
use std::alloc::{AllocError, Global};

/// The graph in which a site leads to the sites of what its objects hold. `owners` are the procedures whose a site
/// is, `free` the free variables of a procedure.
#[derive(Clone, Copy)]
pub(crate) struct Held<'a> {
    pub(crate) flow: &'a Flow,
    pub(crate) rows: &'a Rows,
    pub(crate) owners: &'a [Ids],
    pub(crate) free: &'a [Ids],
}

impl Graph for Held<'_> {
    ghost leads = { λ held. held_sites (listed held.owners.now) held.flow.now held.rows.now (listed held.free.now) };

    fn next(&self, alloc: Global, number: u32) -> Result<Ids, AllocError> {
        held_sites(alloc, self.flow, self.rows, self.owners, self.free, number)
    }
}

/// The sites of what the objects of a site hold.
fn held_sites(
    alloc: Global,
    flow: &Flow,
    rows: &Rows,
    owners: &[Ids],
    free: &[Ids],
    site: u32,
) -> Result<Ids, AllocError>
    ensures { IfOk result (λ sites. sites ≡ held_sites (listed owners.now) flow.now rows.now (listed free.now) site) }
{
    let atom = FIRST.checked_add(site).ok_or(AllocError)?;
    let numbers = contents(alloc, flow, free, atom)?;
    let mut sites = List::new(alloc);
    put_rows(alloc, &mut sites, rows, owners, None, numbers.as_slice())?;
    Ok(sites)
}

/// The rows of what the objects of an atom hold.
fn contents(alloc: Global, flow: &Flow, free: &[Ids], atom: u32) -> Result<Ids, AllocError>
    ensures { IfOk result (λ rows. rows ≡ contents flow.now (listed free.now) (slice_get flow.now.kinds atom)) }
{
    match flow.kinds.get(atom as usize) {
        Some(Kind::Pair { row, .. }) => List::from_slice(alloc, &[*row, next_row(*row)?]),
        Some(Kind::Vector { row, .. }) | Some(Kind::Symbol { row }) => {
            List::from_slice(alloc, &[*row])
        }
        Some(Kind::Boxed { var }) => List::from_slice(alloc, &[inside(flow, *var)?]),
        Some(Kind::Closure { proc }) => free_rows(alloc, flow, free, *proc),
        _ => Ok(List::new(alloc)),
    }
}

/// The row after a row.
pub(crate) fn next_row(row: u32) -> Result<u32, AllocError>
    ensures { IfOk result (λ next. next ≡ row + 1) }
{
    row.checked_add(1).ok_or(AllocError)
}

/// The row of what is in the boxes that a variable is bound to.
fn inside(flow: &Flow, var: u32) -> Result<u32, AllocError>
    ensures { IfOk result (λ number. number ≡ row flow.now (Inside var)) }
{
    next_row(flow.var(var))
}

/// The rows of the free variables of a procedure.
fn free_rows(alloc: Global, flow: &Flow, free: &[Ids], proc: u32) -> Result<Ids, AllocError>
    ensures { IfOk result (λ rows. rows ≡ map (λ x. row flow.now (Var x)) (listed free.now proc)) }
{
    match free.get(proc as usize) {
        None => Ok(List::new(alloc)),
        Some(vars) => var_rows(alloc, flow, vars.as_slice()),
    }
}

/// The rows of variables.
fn var_rows(alloc: Global, flow: &Flow, vars: &[u32]) -> Result<Ids, AllocError>
    ensures { IfOk result (λ rows. rows ≡ map (λ x. row flow.now (Var x)) vars.now) }
{
    let mut rows = List::new(alloc);
    for var in vars {
        rows.push(flow.var(*var))?;
    }
    Ok(rows)
}
