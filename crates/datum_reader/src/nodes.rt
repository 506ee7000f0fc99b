ghost use Rattle.std.specs.Prelude.{◌≡◌, ◌∷◌, ◌++◌, [], Some, None, ◌<◌, length, IfOk, OnOk, ℕ};
ghost use Rattle.datum_form.specs.Data.{Datum, Datum as datum, Items, mark_name};
ghost use Rattle.datum_form.specs.Data.Items.{none, item};
ghost use Rattle.datum_form.specs.Stands.{Stands, StandAll};
ghost use Rattle.datum_form.specs.declared.token.Atom.TheVariants.{Symbol};
ghost use Rattle.datum_reader.specs.Nodes.{Builds, tailed};

use datum_form::{Atom, Kind, Mark, Node, Nodes};
use scheme_base::{Ids, List, Pos};
use std::alloc::{AllocError, Global};

/// Adds a node, and gives its number. More nodes than a number counts are refused as want of memory.
fn add(nodes: &mut Nodes, kind: Kind, pos: Pos) -> Result<u32, AllocError>
    ensures number { IfOk result (λ id. id ≡ length nodes.old) }
    ensures added { OnOk result (nodes.new ≡ nodes.old ++ record { kind = kind; pos = pos } ∷ []) }
{
    let Ok(id) = u32::try_from(nodes.len()) else {
        return Err(AllocError);
    };
    nodes.push(Node { kind, pos })?;
    Ok(id)
}

/// A datum without parts.
pub(crate) fn single(nodes: &mut Nodes, atom: Atom, pos: Pos) -> Result<u32, AllocError>
    ensures { IfOk result (λ id. Builds nodes.old nodes.new id (datum.Atomic pos atom)) }
{
    let kind = atom.kind();
    let id = add(nodes, kind, pos)?;
    Ok(id)
}

pub(crate) fn list(nodes: &mut Nodes, items: Ids, pos: Pos) -> Result<u32, AllocError>
    ensures { IfOk result (λ id. (is : Items) → StandAll nodes.old items is → Builds nodes.old nodes.new id (datum.List pos is)) }
{
    let id = add(nodes, Kind::List { items, tail: None }, pos)?;
    Ok(id)
}

pub(crate) fn vector(nodes: &mut Nodes, items: Ids, pos: Pos) -> Result<u32, AllocError>
    ensures { IfOk result (λ id. (is : Items) → StandAll nodes.old items is → Builds nodes.old nodes.new id (datum.Vector pos is)) }
{
    let id = add(nodes, Kind::Vector { items }, pos)?;
    Ok(id)
}

/// A list of items before a tail, which is joined to them where it is a list itself.
pub(crate) fn dotted(nodes: &mut Nodes, items: Ids, tail: u32, pos: Pos) -> Result<u32, AllocError>
    requires { tail < length nodes.old }
    ensures { IfOk result (λ id. (is : Items) (d : Datum) → StandAll nodes.old items is → Stands nodes.old tail d → Builds nodes.old nodes.new id (tailed pos is d)) }
{
    let table = nodes.as_slice();
    match &table[tail as usize].kind {
        Kind::List {
            items: more,
            tail: end,
        } => {
            let end = *end;
            let mut all = items;
            all.extend_from_slice(more.as_slice())?;
            let id = add(
                nodes,
                Kind::List {
                    items: all,
                    tail: end,
                },
                pos,
            )?;
            Ok(id)
        }
        _ => {
            let id = add(
                nodes,
                Kind::List {
                    items,
                    tail: Some(tail),
                },
                pos,
            )?;
            Ok(id)
        }
    }
}

/// The list of a mark's name and a datum.
pub(crate) fn marked(
    alloc: Global,
    nodes: &mut Nodes,
    mark: Mark,
    given: u32,
    pos: Pos,
) -> Result<u32, AllocError>
    ensures { IfOk result (λ id. (d : Datum) → Stands nodes.old given d → Builds nodes.old nodes.new id (datum.List pos (item (datum.Atomic pos (Symbol (mark_name mark))) (item d none)))) }
{
    let name = List::from_slice(alloc, mark.name())?;
    let first = single(nodes, Atom::Symbol(name), pos)?;
    let items = List::from_slice(alloc, &[first, given])?;
    let id = list(nodes, items, pos)?;
    Ok(id)
}
