//! The graph of procedures and calls.

ghost use Rattle.std.specs.Prelude.{◌≡◌, ◌+◌, ◌++◌, length, map, IfOk, OnOk};
ghost use Rattle.std.specs.List.{flat_map};
ghost use Rattle.named_form.specs.Written.{procedure};
ghost use Rattle.plan_facts.specs.Calls.{is_call, is_callcc};
ghost use Rattle.callcc_conv.specs.Graph.{all_links, all_starts, begins, call_links, call_starts, callee_links, is_open, tail_links};

use flow_constraints::Flow;
use flow_form::Rows;
use least_set::{Link, Links};
use named_form::Proc;
use plan_facts::{Action, Place, entered, is_reached, may_resume};
use scheme_base::{Ids, List};
use std::alloc::{AllocError, Global};

/// The number of the call that stands at a place, behind those of so many procedures.
fn node_of(procs: usize, at: usize) -> Result<u32, AllocError>
    ensures { IfOk result (λ node. node ≡ procs + at) }
{
    let node = procs.checked_add(at).ok_or(AllocError)?;
    u32::try_from(node).map_err(|_| AllocError)
}

fn is_call(action: &Action) -> bool
    ensures { result ≡ is_call action.now }
{
    matches!(
        action,
        Action::Call { .. } | Action::Apply { .. } | Action::CallCC { .. }
    )
}

fn is_callcc(action: &Action) -> bool
    ensures { result ≡ is_callcc action.now }
{
    matches!(action, Action::CallCC { .. })
}

/// Whether a step is a call in a reached block.
fn is_open(flow: &Flow, rows: &Rows, place: &Place) -> bool
    ensures { result ≡ is_open flow.now rows.now place.now }
{
    is_call(&place.action) && is_reached(flow, rows, place.block)
}

/// Whether a call is joined whatever the set has.
fn begins(flow: &Flow, rows: &Rows, place: &Place) -> bool
    ensures { result ≡ begins flow.now rows.now place.now }
{
    is_callcc(&place.action) || may_resume(flow, rows, &place.action)
}

/// The calls that are joined whatever the set has.
pub(crate) fn starts_of(
    alloc: Global,
    flow: &Flow,
    rows: &Rows,
    procs: usize,
    places: &[Place],
) -> Result<Ids, AllocError>
    ensures { IfOk result (λ starts. starts ≡ all_starts flow.now rows.now procs places.now) }
{
    let mut starts = List::new(alloc);
    for at in 0..places.len() {
        put_start(&mut starts, flow, rows, node_of(procs, at)?, &places[at])?;
    }
    Ok(starts)
}

/// Puts a call at the end of a list, if it is joined whatever the set has.
fn put_start(
    starts: &mut Ids,
    flow: &Flow,
    rows: &Rows,
    node: u32,
    place: &Place,
) -> Result<(), AllocError>
    ensures { OnOk result (starts.new ≡ starts.old ++ call_starts flow.now rows.now node place.now) }
{
    if !(is_open(flow, rows, place) && begins(flow, rows, place)) {
        return Ok(());
    }
    starts.push(node)
}

/// The links of all calls.
pub(crate) fn links_of(
    alloc: Global,
    procs: &[Proc],
    flow: &Flow,
    rows: &Rows,
    places: &[Place],
) -> Result<Links, AllocError>
    ensures { IfOk result (λ links. links ≡ all_links (map procedure procs.now) flow.now rows.now (length procs.now) places.now) }
{
    let mut links = List::new(alloc);
    for at in 0..places.len() {
        let node = node_of(procs.len(), at)?;
        put_call(alloc, &mut links, procs, flow, rows, node, &places[at])?;
    }
    Ok(links)
}

/// Puts the links of a step at the end of a list, if it is a call in a reached block.
fn put_call(
    alloc: Global,
    links: &mut Links,
    procs: &[Proc],
    flow: &Flow,
    rows: &Rows,
    node: u32,
    place: &Place,
) -> Result<(), AllocError>
    ensures { OnOk result (links.new ≡ links.old ++ call_links (map procedure procs.now) flow.now rows.now node place.now) }
{
    if !is_open(flow, rows, place) {
        return Ok(());
    }
    let callees = entered(alloc, procs, flow, rows, &place.action)?;
    links.push(Link {
        from: node,
        to: place.proc,
    })?;
    put_tail(links, node, place)?;
    put_callees(links, node, callees.as_slice())
}

/// Puts the link from a procedure to its tail call at the end of a list.
fn put_tail(links: &mut Links, node: u32, place: &Place) -> Result<(), AllocError>
    ensures { OnOk result (links.new ≡ links.old ++ tail_links node place.now) }
{
    if !place.tail {
        return Ok(());
    }
    links.push(Link {
        from: place.proc,
        to: node,
    })
}

/// Puts the links between a call and what it may enter at the end of a list.
fn put_callees(links: &mut Links, node: u32, callees: &[u32]) -> Result<(), AllocError>
    ensures { OnOk result (links.new ≡ links.old ++ flat_map (callee_links node) callees.now) }
{
    for callee in callees {
        links.push(Link {
            from: *callee,
            to: node,
        })?;
        links.push(Link {
            from: node,
            to: *callee,
        })?;
    }
    Ok(())
}
