//! Literals from constants.

ghost use Rattle.std.specs.Prelude.{ℕ, ◌≡◌, [], ◌∷◌, ◌++◌, suc, length, drop, map, slice_get, slice_set, Some, OnOk, IfOk};
ghost use Rattle.scheme_base.specs.declared.lit.Lit.TheVariants.{Pair, Vector};
ghost use Rattle.draft_form.specs.Drawn.{word_name};
ghost use Rattle.draft_form.specs.Quoted.{symbol_list, Adds, AddsDatum, AddsList, AddsRow, AddsHeld, AddsRest, IsLeaf};

use crate::draft::Constant;
use datum_form::{Kind, Node};
use scheme_base::{Bytes, Ids, Lit};
use std::alloc::{AllocError, Global};

/// Adds the literals of a constant: each before its parts, a pair's car before its cdr. The core's symbols have
/// the names of these words.
pub(crate) fn lay_constant(
    alloc: Global,
    nodes: &[Node],
    names: &[&[u8]],
    symbols: &[u32],
    constant: Constant,
    lits: &mut Vec<Lit>,
) -> Result<(), AllocError>
    ensures { OnOk result (AddsHeld (symbol_list (map (word_name names.now) symbols.now)) nodes.now constant lits.old.items lits.new.items) }
{
    match constant {
        Constant::Datum(id) => lay(alloc, nodes, id, nodes.len(), lits),
        Constant::Rest { node, from } => lay_rest(alloc, nodes, node, from, lits),
        Constant::Integer(value) => push_leaf(Lit::Integer(value), lits),
        Constant::Boolean(value) => push_leaf(Lit::Boolean(value), lits),
        Constant::Nil => push_leaf(Lit::Nil, lits),
        Constant::Unspecified => push_leaf(Lit::Unspecified, lits),
        Constant::Undefined => push_leaf(Lit::Undefined, lits),
        Constant::Symbols => lay_symbols(alloc, names, symbols, lits),
    }
}

/// A literal without parts.
fn push_leaf(lit: Lit, lits: &mut Vec<Lit>) -> Result<(), AllocError>
    ensures { OnOk result (lits.new.items ≡ lits.old.items ++ lit ∷ []) }
{
    lits.push(lit)?;
    Ok(())
}

fn node_at(nodes: &[Node], id: u32) -> Result<&Node, AllocError>
    ensures { IfOk result (λ node. slice_get nodes.now id ≡ Some node.now) }
{
    match nodes.get(id as usize) {
        Some(node) => Ok(node),
        None => Err(AllocError),
    }
}

/// The list of what a list or a vector has from an index on.
fn lay_rest(
    alloc: Global,
    nodes: &[Node],
    id: u32,
    from: u32,
    lits: &mut Vec<Lit>,
) -> Result<(), AllocError>
    ensures { OnOk result (AddsRest nodes.now id from lits.old.items lits.new.items) }
{
    let node = node_at(nodes, id)?;
    match &node.kind {
        Kind::List { items, tail } => {
            let rest = rest_of(items.as_slice(), from)?;
            lay_list(alloc, nodes, rest, *tail, nodes.len(), lits)
        }
        Kind::Vector { items } => {
            let rest = rest_of(items.as_slice(), from)?;
            lay_list(alloc, nodes, rest, None, nodes.len(), lits)
        }
        _ => Err(AllocError),
    }
}

/// The items from an index on.
fn rest_of(items: &[u32], from: u32) -> Result<&[u32], AllocError>
    ensures { IfOk result (λ rest. rest.now ≡ drop from items.now) }
{
    match items.get(from as usize..) {
        Some(rest) => Ok(rest),
        None => Err(AllocError),
    }
}

/// A datum. `depth` bounds its nesting.
#[cycle(lay)]
fn lay(
    alloc: Global,
    nodes: &[Node],
    id: u32,
    depth: usize,
    lits: &mut Vec<Lit>,
) -> Result<(), AllocError>
    ensures { OnOk result (AddsDatum nodes.now id lits.old.items lits.new.items) }
{
    if depth == 0 {
        return Err(AllocError);
    }
    let node = node_at(nodes, id)?;
    match &node.kind {
        Kind::List { items, tail } => {
            lay_list(alloc, nodes, items.as_slice(), *tail, depth - 1, lits)
        }
        Kind::Vector { items } => lay_vector(alloc, nodes, items.as_slice(), depth - 1, lits),
        kind => {
            let lit = leaf(alloc, kind)?;
            push_leaf(lit, lits)
        }
    }
}

/// The literal of a datum without parts.
fn leaf(alloc: Global, kind: &Kind) -> Result<Lit, AllocError>
    ensures { IfOk result (IsLeaf kind.now) }
{
    match kind {
        Kind::Integer(value) => Ok(Lit::Integer(*value)),
        Kind::Boolean(value) => Ok(Lit::Boolean(*value)),
        Kind::Char(byte) => Ok(Lit::Char(*byte)),
        Kind::Text(bytes) => {
            let bytes = Bytes::from_slice(alloc, bytes.as_slice())?;
            Ok(Lit::Text(bytes))
        }
        Kind::Name(name) => {
            let name = Bytes::from_slice(alloc, name.as_slice())?;
            Ok(Lit::Symbol(name))
        }
        Kind::List { .. } | Kind::Vector { .. } => Err(AllocError),
    }
}

/// A list of items before a tail.
#[cycle(lay)]
fn lay_list(
    alloc: Global,
    nodes: &[Node],
    items: &[u32],
    tail: Option<u32>,
    depth: usize,
    lits: &mut Vec<Lit>,
) -> Result<(), AllocError>
    ensures { OnOk result (AddsList nodes.now items.now tail lits.old.items lits.new.items) }
{
    for item in items {
        let pair = lits.len();
        lits.push(Lit::Nil)?;
        lay(alloc, nodes, *item, depth, lits)?;
        set_pair(lits, pair)?;
    }
    match tail {
        Some(tail) => lay(alloc, nodes, tail, depth, lits),
        None => push_leaf(Lit::Nil, lits),
    }
}

/// Makes a literal the pair of the one after it and of the one that comes next.
fn set_pair(lits: &mut Vec<Lit>, pair: usize) -> Result<(), AllocError>
    ensures { OnOk result (lits.new.items ≡ slice_set lits.old.items pair (Pair (suc pair) (length lits.old.items))) }
{
    if pair >= lits.len() {
        return Err(AllocError);
    }
    let car = number(pair + 1)?;
    let cdr = number(lits.len())?;
    lits[pair] = Lit::Pair(car, cdr);
    Ok(())
}

#[cycle(lay)]
fn lay_vector(
    alloc: Global,
    nodes: &[Node],
    items: &[u32],
    depth: usize,
    lits: &mut Vec<Lit>,
) -> Result<(), AllocError>
    ensures { OnOk result (AddsRow nodes.now items.now lits.old.items lits.new.items) }
{
    let vector = lits.len();
    lits.push(Lit::Nil)?;
    let mut ids = Ids::new(alloc);
    for item in items {
        let id = number(lits.len())?;
        ids.push(id)?;
        lay(alloc, nodes, *item, depth, lits)?;
    }
    set_vector(lits, vector, ids)
}

/// Makes a literal a vector.
fn set_vector(lits: &mut Vec<Lit>, vector: usize, ids: Ids) -> Result<(), AllocError>
    ensures { OnOk result (lits.new.items ≡ slice_set lits.old.items vector (Vector ids)) }
{
    if vector >= lits.len() {
        return Err(AllocError);
    }
    lits[vector] = Lit::Vector(ids);
    Ok(())
}

/// The list of symbols that have the names of these words.
fn lay_symbols(
    alloc: Global,
    names: &[&[u8]],
    symbols: &[u32],
    lits: &mut Vec<Lit>,
) -> Result<(), AllocError>
    ensures { OnOk result (Adds (symbol_list (map (word_name names.now) symbols.now)) lits.old.items lits.new.items) }
{
    for symbol in symbols {
        let pair = lits.len();
        lits.push(Lit::Nil)?;
        let name = Bytes::from_slice(alloc, name_of(names, *symbol)?)?;
        push_leaf(Lit::Symbol(name), lits)?;
        set_pair(lits, pair)?;
    }
    push_leaf(Lit::Nil, lits)
}

/// The name of a word.
pub(crate) fn name_of<'a>(names: &[&'a [u8]], word: u32) -> Result<&'a [u8], AllocError>
    ensures { IfOk result (λ name. name.now ≡ word_name names.now word) }
{
    match names.get(word as usize) {
        Some(name) => Ok(*name),
        None => Err(AllocError),
    }
}

/// The number of what stands behind so many others.
pub(crate) fn number(count: usize) -> Result<u32, AllocError>
    ensures { IfOk result (λ n. n ≡ count) }
{
    let Ok(number) = u32::try_from(count) else {
        return Err(AllocError);
    };
    Ok(number)
}
