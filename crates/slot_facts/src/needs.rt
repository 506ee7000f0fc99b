//! What each procedure needs of the variables that are free in it.

ghost use Rattle.std.specs.Prelude.{◌≡◌, ◌++◌, ◌∷◌, [], length, map, slice_set, IfOk, OnOk};
ghost use Rattle.std.specs.List.{filter, flat_map};
ghost use Rattle.std.specs.List.Sorted.{IsNonDecreasingBy};
ghost use Rattle.least_set.specs.Least.{has};
ghost use Rattle.least_set.specs.Search.{IsNext, listed};
ghost use Rattle.slot_facts.specs.Needs.{IsNeeded, link, makings, reads, references};

use crate::ends::End;
use flow_constraints::Flow;
use flow_form::Rows;
use least_set::{Link, Links};
use plan_facts::{Action, Place, is_reached};
use scheme_base::{Ids, List};
use std::alloc::{AllocError, Global};

/// Links from procedures to the variables that they refer to, in a reached step or as the value of a reached block.
pub(crate) fn references(
    alloc: Global,
    flow: &Flow,
    rows: &Rows,
    places: &[Place],
    ends: &[End],
) -> Result<Links, AllocError>
    ensures { IfOk result (λ links. links ≡ references flow.now rows.now places.now ends.now) }
{
    let mut links = List::new(alloc);
    for place in places {
        if is_reached(flow, rows, place.block) {
            put_reads(&mut links, place.proc, &place.action)?;
        }
    }
    for end in ends {
        if let Some(value) = end.value
            && is_reached(flow, rows, end.block)
        {
            put_link(&mut links, end.proc, value)?;
        }
    }
    Ok(links)
}

/// Links from a procedure to what a step of it reads itself.
fn put_reads(links: &mut Links, proc: u32, action: &Action) -> Result<(), AllocError>
    ensures { OnOk result (links.new ≡ links.old ++ reads proc action.now) }
{
    match action {
        Action::Prim { operands, .. } => put_links(links, proc, operands.as_slice()),
        Action::Call { operator, operands } => {
            put_link(links, proc, *operator)?;
            put_links(links, proc, operands.as_slice())
        }
        Action::Apply { operator, list } => put_links(links, proc, &[*operator, *list]),
        Action::CallCC { operator } => put_link(links, proc, *operator),
        Action::Make { .. } => Ok(()),
        Action::SetBox { boxed, from } => put_links(links, proc, &[*boxed, *from]),
        Action::NewBox { reads } | Action::Other { reads } => put_links(
            links,
            proc,
            reads.as_slice(),
        ),
    }
}

/// Links from procedures to those of which they make closures in a reached step.
pub(crate) fn makings(
    alloc: Global,
    flow: &Flow,
    rows: &Rows,
    places: &[Place],
) -> Result<Links, AllocError>
    ensures { IfOk result (λ links. links ≡ makings flow.now rows.now places.now) }
{
    let mut links = List::new(alloc);
    for place in places {
        if let Action::Make { procs } = &place.action
            && is_reached(flow, rows, place.block)
        {
            put_links(&mut links, place.proc, procs.as_slice())?;
        }
    }
    Ok(links)
}

/// Links from a number to these.
fn put_links(links: &mut Links, from: u32, numbers: &[u32]) -> Result<(), AllocError>
    ensures { OnOk result (links.new ≡ links.old ++ map (link from) numbers.now) }
{
    for to in numbers {
        put_link(links, from, *to)?;
    }
    Ok(())
}

/// A link from a number to another.
fn put_link(links: &mut Links, from: u32, to: u32) -> Result<(), AllocError>
    ensures { OnOk result (links.new ≡ links.old ++ link from to ∷ []) }
{
    links.push(Link { from, to })
}

/// For each number below `many`, all that it is linked to.
pub(crate) fn grouped(alloc: Global, many: usize, links: &[Link]) -> Result<Vec<Ids>, AllocError>
    ensures { IfOk result (λ lists. IsNext many links.now lists.items) }
{
    let mut lists = empty_lists(alloc, many)?;
    for link in links {
        put_to(&mut lists, link.from as usize, link.to)?;
    }
    Ok(lists)
}

/// Puts a number at the end of the list of this place, if there is one.
fn put_to(lists: &mut Vec<Ids>, at: usize, number: u32) -> Result<(), AllocError>
    ensures { OnOk result (lists.new.items ≡ slice_set lists.old.items at (listed lists.old.items at ++ number ∷ [])) }
{
    if at >= lists.len() {
        return Ok(());
    }
    lists[at].push(number)
}

/// So many empty lists.
fn empty_lists(alloc: Global, many: usize) -> Result<Vec<Ids>, AllocError>
    ensures { IfOk result (λ lists. IsNext many [] lists.items) }
{
    let mut lists = Vec::new(alloc);
    for _ in 0..many {
        lists.push(List::new(alloc))?;
    }
    Ok(lists)
}

/// For each of so many procedures what it needs of the variables that are free in it: what it refers to, and what
/// those need of which it makes closures. These are later ones, so the last comes first.
pub(crate) fn needed(
    alloc: Global,
    many: usize,
    free: &[Ids],
    references: &[Ids],
    makings: &[Ids],
) -> Result<Vec<Ids>, AllocError>
    requires references { length references.now ≡ many }
    requires makings { length makings.now ≡ many }
    ensures { IfOk result (λ needed. IsNeeded many free.now references.now makings.now needed.items) }
{
    let mut needed = empty_lists(alloc, many)?;
    for q in (0..many).rev() {
        let wanted = wanted(
            alloc,
            references[q].as_slice(),
            makings[q].as_slice(),
            needed.as_slice(),
        )?;
        needed[q] = common_at(alloc, free, q, wanted)?;
    }
    Ok(needed)
}

/// These variables, and all that these procedures need.
fn wanted(
    alloc: Global,
    variables: &[u32],
    procs: &[u32],
    needed: &[Ids],
) -> Result<Vec<u32>, AllocError>
    ensures { IfOk result (λ wanted. wanted.items ≡ variables.now ++ flat_map (listed needed.now) procs.now) }
{
    let mut wanted = Vec::new(alloc);
    wanted.extend_from_slice(variables)?;
    for proc in procs {
        if let Some(more) = needed.get(*proc as usize) {
            wanted.extend_from_slice(more.as_slice())?;
        }
    }
    Ok(wanted)
}

/// Those of the variables in the list of this place that are wanted.
fn common_at(alloc: Global, lists: &[Ids], at: usize, wanted: Vec<u32>) -> Result<Ids, AllocError>
    ensures { IfOk result (λ both. both ≡ filter (has wanted.items) (listed lists.now at)) }
{
    match lists.get(at) {
        None => Ok(List::new(alloc)),
        Some(variables) => common(alloc, variables.as_slice(), wanted),
    }
}

/// Those of these variables that are wanted.
fn common(alloc: Global, variables: &[u32], mut wanted: Vec<u32>) -> Result<Ids, AllocError>
    ensures { IfOk result (λ both. both ≡ filter (has wanted.items) variables.now) }
{
    wanted.sort()?;
    let mut both = List::new(alloc);
    for var in variables {
        if is_among(wanted.as_slice(), *var) {
            both.push(*var)?;
        }
    }
    Ok(both)
}

/// Whether a number is among these, which do not fall.
fn is_among(sorted: &[u32], number: u32) -> bool
    requires { IsNonDecreasingBy (λ y. y) sorted.now }
    ensures { result ≡ has sorted.now number }
{
    sorted.binary_search(&number).is_ok()
}
