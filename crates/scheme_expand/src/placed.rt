//! Data moved to the numbers of their forms, as the library's are before they are expanded.
//!
//! What is to be copied stands in a list, and gets its number there: a node's copy is put behind the other copies,
//! and what the node names behind the list. `specs/Copied` says what the copies are.

ghost use Rattle.std.specs.Prelude.{◌≡◌, Some, IfOk, OnOk, length, slice_get};
ghost use Rattle.datum_form.specs.Data.{Items};
ghost use Rattle.datum_form.specs.Stands.{Holds};
ghost use Rattle.scheme_expand.specs.Copied.{original, all_in, forms_from, Grows, AreAt, TailIsAt, KindCopies, IsCopy, AreCopies};
ghost use Rattle.scheme_expand.specs.Programs.{placed as all_placed};

use datum_form::{Datums, Kind, Node, Nodes};
use scheme_base::{Bytes, Ids, Pos};
use std::alloc::{AllocError, Global};

/// A node that is copied, and the number of the form that it stands in.
#[derive(Clone, Copy)]
struct Original {
    id: u32,
    form: u32,
}

/// A copy of data in which all of the first form is at 0:1, all of the second at 0:2, and so on.
pub(crate) fn placed(alloc: Global, datums: &Datums) -> Result<Datums, AllocError>
    ensures { IfOk result (λ copy. (ds : Items) → Holds datums.now ds → Holds copy (all_placed 1 ds)) }
{
    let mut from = Vec::new(alloc);
    let tops = forms(alloc, datums.tops.as_slice(), &mut from)?;
    let nodes = copies(alloc, datums.nodes.as_slice(), &mut from)?;
    Ok(Datums { nodes, tops })
}

/// The numbers that the copies of forms get.
fn forms(alloc: Global, ids: &[u32], from: &mut Vec<Original>) -> Result<Ids, AllocError>
    ensures { IfOk result (AreAt from.new.items (forms_from 1 ids.now)) }
{
    let mut copies = Ids::new(alloc);
    let mut form: u32 = 1;
    for id in ids {
        copies.push(wait(*id, form, from)?)?;
        let Some(next) = form.checked_add(1) else {
            return Err(AllocError);
        };
        form = next;
    }
    Ok(copies)
}

/// The copies of nodes, and of all that they name.
fn copies(alloc: Global, nodes: &[Node], from: &mut Vec<Original>) -> Result<Nodes, AllocError>
    ensures grows { OnOk result (Grows from.old.items from.new.items) }
    ensures all { IfOk result (λ copies. length copies ≡ length from.new.items) }
    ensures copies { IfOk result (AreCopies nodes.now from.new.items) }
{
    let mut copies = Nodes::new(alloc);
    for _turn in 0..usize::MAX {
        let Some(original) = from.get(copies.len()) else {
            return Ok(copies);
        };
        let copy = node_copy(alloc, nodes, *original, from)?;
        copies.push(copy)?;
    }
    Err(AllocError)
}

/// The copy of a node, at the place of its form.
fn node_copy(
    alloc: Global,
    nodes: &[Node],
    original: Original,
    from: &mut Vec<Original>,
) -> Result<Node, AllocError>
    ensures grows { OnOk result (Grows from.old.items from.new.items) }
    ensures copies { IfOk result (IsCopy nodes.now from.new.items original) }
{
    let Some(node) = nodes.get(original.id as usize) else {
        return Err(AllocError);
    };
    let kind = kind_copy(alloc, &node.kind, original.form, from)?;
    let pos = Pos {
        line: 0,
        col: original.form,
    };
    Ok(Node { kind, pos })
}

fn kind_copy(
    alloc: Global,
    kind: &Kind,
    form: u32,
    from: &mut Vec<Original>,
) -> Result<Kind, AllocError>
    ensures grows { OnOk result (Grows from.old.items from.new.items) }
    ensures copies { IfOk result (KindCopies from.new.items form kind.now) }
{
    match kind {
        Kind::Integer(n) => Ok(Kind::Integer(*n)),
        Kind::Boolean(b) => Ok(Kind::Boolean(*b)),
        Kind::Char(b) => Ok(Kind::Char(*b)),
        Kind::Text(bytes) => Ok(Kind::Text(Bytes::from_slice(alloc, bytes.as_slice())?)),
        Kind::Name(bytes) => Ok(Kind::Name(Bytes::from_slice(alloc, bytes.as_slice())?)),
        Kind::List { items, tail } => {
            let items = wait_all(alloc, items.as_slice(), form, from)?;
            let tail = wait_tail(*tail, form, from)?;
            Ok(Kind::List { items, tail })
        }
        Kind::Vector { items } => {
            let items = wait_all(alloc, items.as_slice(), form, from)?;
            Ok(Kind::Vector { items })
        }
    }
}

/// Lets nodes of a form be copied, and gives the numbers of their copies.
fn wait_all(
    alloc: Global,
    ids: &[u32],
    form: u32,
    from: &mut Vec<Original>,
) -> Result<Ids, AllocError>
    ensures grows { OnOk result (Grows from.old.items from.new.items) }
    ensures copies { IfOk result (AreAt from.new.items (all_in form ids.now)) }
{
    let mut copies = Ids::new(alloc);
    for id in ids {
        copies.push(wait(*id, form, from)?)?;
    }
    Ok(copies)
}

fn wait_tail(
    tail: Option<u32>,
    form: u32,
    from: &mut Vec<Original>,
) -> Result<Option<u32>, AllocError>
    ensures grows { OnOk result (Grows from.old.items from.new.items) }
    ensures copies { IfOk result (TailIsAt from.new.items form tail) }
{
    match tail {
        Some(id) => {
            let copy = wait(id, form, from)?;
            Ok(Some(copy))
        }
        None => Ok(None),
    }
}

/// Lets a node of a form be copied, and gives the number of its copy.
fn wait(id: u32, form: u32, from: &mut Vec<Original>) -> Result<u32, AllocError>
    ensures grows { OnOk result (Grows from.old.items from.new.items) }
    ensures copies { IfOk result (λ copy. slice_get from.new.items copy ≡ Some (original form id)) }
{
    let Ok(copy) = u32::try_from(from.len()) else {
        return Err(AllocError);
    };
    from.push(Original { id, form })?;
    Ok(copy)
}
