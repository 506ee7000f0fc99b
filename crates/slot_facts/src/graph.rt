//! The graph of procedures whose closures have slots, and of variables that have places.
//!
//! A procedure is the node of its number, and variable x is node `procs + x`. That a procedure has slots gives a
//! place to each variable that can be its closure alone; that a variable has a place gives slots to each procedure
//! that needs it.

ghost use Rattle.std.specs.Prelude.{◌≡◌, ◌+◌, ◌++◌, IsTrue, length, IfOk, OnOk};
ghost use Rattle.std.specs.List.{flat_map, list_all};
ghost use Rattle.least_set.specs.Least.{IsClosed, IsLeast, all_below, has};
ghost use Rattle.slot_facts.specs.Graph.{AllClose, Found, all_links, all_starts, link_by, need_link, value_at};
ghost use Rattle.slot_facts.specs.Marks.{is_marked as marked_at};

use crate::marks::{is_marked, marks_of, number_of, put_if};
use least_set::{Link, Links, least_closed};
use scheme_base::{Ids, List, Stated};
use std::alloc::{AllocError, Global};

/// Marks of the nodes that are found: procedures that have slots, and variables that have places. `compared` are
/// the procedures that are compared, `values` what is known of each variable, `needed` what each procedure needs;
/// `own` marks the variables that have a cell for good, if they have a place.
pub(crate) fn search(
    alloc: Global,
    procs: usize,
    compared: &[u32],
    values: &[Option<Stated>],
    needed: &[Ids],
    own: &[bool],
) -> Result<Vec<bool>, AllocError>
    requires compared { IsTrue (all_below procs compared.now) }
    requires closures { AllClose procs values.now }
    requires needed { length needed.now ≡ procs }
    ensures { IfOk result (λ marks. Found procs compared.now values.now needed.now own.now marks.items) }
{
    let many = behind(procs, values.len())?;
    let starts = starts_of(alloc, procs, compared, values)?;
    let links = links_of(alloc, procs, values, needed, own)?;
    let found = least_closed(alloc, many, starts.as_slice(), links.as_slice())?;
    let marks = marks_of(alloc, many, found.as_slice())?;
    Ok(marks)
}

/// The node of a variable.
fn node(procs: usize, var: usize) -> Result<u32, AllocError>
    ensures { IfOk result (λ node. node ≡ procs + var) }
{
    number_of(behind(procs, var)?)
}

/// How many there are with so many procedures before them.
pub(crate) fn behind(procs: usize, many: usize) -> Result<usize, AllocError>
    ensures { IfOk result (λ all. all ≡ procs + many) }
{
    procs.checked_add(many).ok_or(AllocError)
}

/// What is known of a variable, if it is there.
pub(crate) fn known(values: &[Option<Stated>], var: usize) -> Option<Stated>
    ensures { result ≡ value_at values.now var }
{
    match values.get(var) {
        None => None,
        Some(value) => *value,
    }
}

/// The procedures that are compared, and the variables that can have several values.
fn starts_of(
    alloc: Global,
    procs: usize,
    compared: &[u32],
    values: &[Option<Stated>],
) -> Result<Ids, AllocError>
    ensures { IfOk result (λ starts. starts ≡ all_starts procs (length values.now) compared.now (value_at values.now)) }
{
    let mut starts = List::from_slice(alloc, compared)?;
    for var in 0..values.len() {
        put_if(&mut starts, node(procs, var)?, known(values, var).is_none())?;
    }
    Ok(starts)
}

/// The links of all variables, and of all that procedures need.
fn links_of(
    alloc: Global,
    procs: usize,
    values: &[Option<Stated>],
    needed: &[Ids],
    own: &[bool],
) -> Result<Links, AllocError>
    ensures { IfOk result (λ links. links ≡ all_links procs (length values.now) (value_at values.now) (marked_at own.now) needed.now) }
{
    let mut links = List::new(alloc);
    for var in 0..values.len() {
        put_closure(&mut links, node(procs, var)?, known(values, var))?;
    }
    for proc in 0..needed.len() {
        let to = number_of(proc)?;
        put_needed(
            &mut links,
            procs,
            values.len(),
            own,
            to,
            needed[proc].as_slice(),
        )?;
    }
    Ok(links)
}

/// The link to a variable from the procedure whose closure alone it can be.
fn put_closure(links: &mut Links, to: u32, value: Option<Stated>) -> Result<(), AllocError>
    ensures { OnOk result (links.new ≡ links.old ++ link_by to value) }
{
    match value {
        Some(Stated::Closure(from)) => links.push(Link { from, to }),
        _ => Ok(()),
    }
}

/// The links to a procedure from what it needs.
fn put_needed(
    links: &mut Links,
    procs: usize,
    vars: usize,
    own: &[bool],
    proc: u32,
    needs: &[u32],
) -> Result<(), AllocError>
    ensures { OnOk result (links.new ≡ links.old ++ flat_map (need_link procs vars (marked_at own.now) proc) needs.now) }
{
    for var in needs {
        let at = *var as usize;
        if at < vars && !is_marked(own, at) {
            let from = node(procs, at)?;
            links.push(Link { from, to: proc })?;
        }
    }
    Ok(())
}
