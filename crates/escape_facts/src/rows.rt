//! The sites of which rows have objects.

ghost use Rattle.std.specs.Prelude.{◌≡◌, ◌++◌, OnOk};
ghost use Rattle.std.specs.List.{flat_map};
ghost use Rattle.least_set.specs.Least.{has};
ghost use Rattle.least_set.specs.Search.{listed};
ghost use Rattle.escape_facts.specs.Reached.{belongs, row_sites, rows_sites, site_at};

use crate::owners::FIRST;
use flow_form::Rows;
use plan_facts::members;
use scheme_base::Ids;
use std::alloc::{AllocError, Global};

/// Puts the sites of rows at the end of a list: those of one procedure, or all if none is given.
pub(crate) fn put_rows(
    alloc: Global,
    sites: &mut Ids,
    rows: &Rows,
    owners: &[Ids],
    whose: Option<u32>,
    numbers: &[u32],
) -> Result<(), AllocError>
    ensures { OnOk result (sites.new ≡ sites.old ++ rows_sites (listed owners.now) rows.now whose numbers.now) }
{
    for row in numbers {
        put_row(alloc, sites, rows, owners, whose, *row)?;
    }
    Ok(())
}

/// Puts the sites of a row at the end of a list.
pub(crate) fn put_row(
    alloc: Global,
    sites: &mut Ids,
    rows: &Rows,
    owners: &[Ids],
    whose: Option<u32>,
    row: u32,
) -> Result<(), AllocError>
    ensures { OnOk result (sites.new ≡ sites.old ++ row_sites (listed owners.now) rows.now whose row) }
{
    let atoms = members(alloc, rows, row)?;
    put_atoms(sites, owners, whose, atoms.as_slice())
}

/// Puts the sites of atoms at the end of a list.
fn put_atoms(
    sites: &mut Ids,
    owners: &[Ids],
    whose: Option<u32>,
    atoms: &[u32],
) -> Result<(), AllocError>
    ensures { OnOk result (sites.new ≡ sites.old ++ flat_map (site_at (listed owners.now) whose) atoms.now) }
{
    for atom in atoms {
        put_atom(sites, owners, whose, *atom)?;
    }
    Ok(())
}

/// Puts the site of an atom at the end of a list.
fn put_atom(
    sites: &mut Ids,
    owners: &[Ids],
    whose: Option<u32>,
    atom: u32,
) -> Result<(), AllocError>
    ensures { OnOk result (sites.new ≡ sites.old ++ site_at (listed owners.now) whose atom) }
{
    if !(atom >= FIRST && belongs(owners, whose, atom - FIRST)) {
        return Ok(());
    }
    sites.push(atom - FIRST)
}

/// Whether a site is one of a procedure, or of any if none is given.
fn belongs(owners: &[Ids], whose: Option<u32>, site: u32) -> bool
    ensures { result ≡ belongs (listed owners.now) whose site }
{
    match owners.get(site as usize) {
        None => false,
        Some(procs) => is_among(procs.as_slice(), whose),
    }
}

/// Whether a list has a number, or any if none is given.
fn is_among(procs: &[u32], whose: Option<u32>) -> bool
    ensures { result ≡ belongs (λ site. procs.now) whose 0 }
{
    match whose {
        None => !procs.is_empty(),
        Some(proc) => has(procs, proc),
    }
}

fn has(numbers: &[u32], wanted: u32) -> bool
    ensures { result ≡ has numbers.now wanted }
{
    for number in numbers {
        if wanted == *number {
            return true;
        }
    }
    false
}
