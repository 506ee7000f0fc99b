//! The sites of a program, each linked to the procedure whose it is.

ghost use Rattle.std.specs.Prelude.{◌≡◌, ◌+◌, ◌++◌, OnOk, IfOk};
ghost use Rattle.std.specs.List.{flat_map};
ghost use Rattle.named_form.specs.Code.{closure_site, makes};
ghost use Rattle.plan_facts.specs.Escaping.{closes, makes_object};
ghost use Rattle.escape_facts.specs.Owners.{bound_from, closure_owner, each_entry, larger, list_owners, made_owners, owners_of, place_owners, turned};

use flow_constraints::{Entry, Flow};
use least_set::{Link, Links};
use plan_facts::{Action, Place};
use scheme_base::{List, Op};
use std::alloc::{AllocError, Global};

/// The atom of site 0.
pub(crate) const FIRST: u32 = 10;

/// The sites of a program, each linked to the procedure whose it is.
pub(crate) fn owners_of(alloc: Global, flow: &Flow, places: &[Place]) -> Result<Links, AllocError>
    ensures { IfOk result (λ links. links ≡ owners_of flow.now places.now) }
{
    let mut links = List::new(alloc);
    put_places(&mut links, places)?;
    put_lists(&mut links, flow.entries.as_slice())?;
    Ok(links)
}

/// Puts the sites of steps at the end of a list.
fn put_places(links: &mut Links, places: &[Place]) -> Result<(), AllocError>
    ensures { OnOk result (links.new ≡ links.old ++ flat_map place_owners places.now) }
{
    for place in places {
        put_made(links, place)?;
        put_closures(links, place)?;
    }
    Ok(())
}

/// Puts the site of what a step makes at the end of a list.
fn put_made(links: &mut Links, place: &Place) -> Result<(), AllocError>
    ensures { OnOk result (links.new ≡ links.old ++ made_owners place.now) }
{
    if !makes_object(&place.action) {
        return Ok(());
    }
    links.push(Link {
        from: place.site,
        to: place.proc,
    })
}

/// Whether a step makes an object at its site.
fn makes_object(action: &Action) -> bool
    ensures { result ≡ makes_object action.now }
{
    match action {
        Action::Prim { op, .. } => makes(*op),
        Action::NewBox { .. } | Action::CallCC { .. } => true,
        _ => false,
    }
}

fn makes(op: Op) -> bool
    ensures { result ≡ makes op }
{
    matches!(
        op,
        Op::Cons | Op::MakeVector | Op::MakeString | Op::MakeSymbol
    )
}

/// Puts the sites of the closures that a step makes at the end of a list.
fn put_closures(links: &mut Links, place: &Place) -> Result<(), AllocError>
    ensures { OnOk result (links.new ≡ links.old ++ flat_map (closure_owner place.now.proc) (closes place.now.action)) }
{
    match &place.action {
        Action::Make { procs } => put_closures_of(links, place.proc, procs.as_slice()),
        _ => Ok(()),
    }
}

/// Puts the sites of the closures of these procedures at the end of a list.
fn put_closures_of(links: &mut Links, proc: u32, made: &[u32]) -> Result<(), AllocError>
    ensures { OnOk result (links.new ≡ links.old ++ flat_map (closure_owner proc) made.now) }
{
    for number in made {
        links.push(Link {
            from: closure_site(*number),
            to: proc,
        })?;
    }
    Ok(())
}

/// The site of the closures of a procedure.
fn closure_site(proc: u32) -> u32
    ensures { result ≡ closure_site proc }
{
    match proc {
        0 => 0,
        _ => proc - 1,
    }
}

/// Puts the sites of the rest lists of the procedures from 1 on at the end of a list.
fn put_lists(links: &mut Links, entries: &[Entry]) -> Result<(), AllocError>
    ensures { OnOk result (links.new ≡ links.old ++ each_entry list_owners 1 entries.now) }
{
    for at in 0..entries.len() {
        put_list(links, number_of(at)?, &entries[at])?;
    }
    Ok(())
}

/// The number of the procedure of an entry.
pub(crate) fn number_of(at: usize) -> Result<u32, AllocError>
    ensures { IfOk result (λ number. number ≡ at + 1) }
{
    let number = at.checked_add(1).ok_or(AllocError)?;
    u32::try_from(number).map_err(|_| AllocError)
}

/// Puts the site of a procedure's rest lists at the end of a list, if it has some.
fn put_list(links: &mut Links, proc: u32, entry: &Entry) -> Result<(), AllocError>
    ensures { OnOk result (links.new ≡ links.old ++ list_owners proc entry.now) }
{
    if !(entry.rest.is_some() && entry.list >= FIRST) {
        return Ok(());
    }
    links.push(Link {
        from: entry.list - FIRST,
        to: proc,
    })
}

/// The same links, turned round.
pub(crate) fn turned(alloc: Global, links: &[Link]) -> Result<Links, AllocError>
    ensures { IfOk result (λ others. others ≡ turned links.now) }
{
    let mut others = List::new(alloc);
    for link in links {
        others.push(Link {
            from: link.to,
            to: link.from,
        })?;
    }
    Ok(others)
}

/// A number that is above all numbers of links.
pub(crate) fn bound_of(links: &[Link]) -> usize
    ensures { result ≡ bound_from 0 links.now }
{
    let mut many = 0;
    for link in links {
        many = larger(many, link.from as usize + 1);
        many = larger(many, link.to as usize + 1);
    }
    many
}

fn larger(one: usize, other: usize) -> usize
    ensures { result ≡ larger one other }
{
    if one < other { other } else { one }
}
