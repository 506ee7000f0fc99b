//! The rules of what literals hold.

ghost use Rattle.std.specs.Prelude.{◌≡◌, ◌++◌, ◌∷◌, [], Some, length, map, reverse, IfOk, OnOk};
ghost use Rattle.flow_constraints.specs.Table.{held_rules, items_in, parts_in, parts_of, parts_under};

use crate::Flow;
use crate::flow::at;
use crate::put::{ALWAYS, put_atom};
use flow_form::Rules;
use scheme_base::Lit;
use std::alloc::{AllocError, Global};

/// A part of a literal, and the row of the place where it stands.
#[derive(Clone, Copy)]
pub(crate) struct Part {
    pub(crate) lit: u32,
    pub(crate) to: u32,
}

/// All parts of a literal, each before its own: a list of those still to come, the next one last.
pub(crate) fn parts_under(
    alloc: Global,
    flow: &Flow,
    lits: &[Lit],
    lit: u32,
) -> Result<Vec<Part>, AllocError>
    ensures { IfOk result (λ parts. parts.items ≡ parts_under flow.now lits.now (length lits.now) (parts_of flow.now lits.now lit)) }
{
    let mut coming = Vec::new(alloc);
    push_parts(&mut coming, flow, lits, lit)?;
    let mut parts = Vec::new(alloc);
    for _taken in 0..lits.len() {
        let Some(part) = coming.pop() else {
            return Ok(parts);
        };
        parts.push(part)?;
        push_parts(&mut coming, flow, lits, part.lit)?;
    }
    Ok(parts)
}

/// Puts a literal's own parts at the end, the first one last.
fn push_parts(coming: &mut Vec<Part>, flow: &Flow, lits: &[Lit], lit: u32) -> Result<(), AllocError>
    ensures { OnOk result (coming.new.items ≡ coming.old.items ++ reverse (parts_of flow.now lits.now lit)) }
{
    match lits.get(lit as usize) {
        None => Ok(()),
        Some(whole) => push_parts_in(coming, flow, at(&flow.lits, lit), whole),
    }
}

/// Puts the parts of a literal that has this atom at the end, the first one last.
fn push_parts_in(
    coming: &mut Vec<Part>,
    flow: &Flow,
    atom: u32,
    whole: &Lit,
) -> Result<(), AllocError>
    ensures { OnOk result (coming.new.items ≡ coming.old.items ++ reverse (parts_in flow.now atom (Some whole.now))) }
{
    match whole {
        Lit::Pair(car, cdr) => {
            let second = flow.part(atom, 1)?;
            let first = flow.part(atom, 0)?;
            push_pair(
                coming,
                Part {
                    lit: *car,
                    to: first,
                },
                Part {
                    lit: *cdr,
                    to: second,
                },
            )
        }
        Lit::Vector(items) => push_items(coming, flow.part(atom, 0)?, items.as_slice()),
        _ => Ok(()),
    }
}

/// Puts two parts at the end, the first one last.
fn push_pair(coming: &mut Vec<Part>, first: Part, second: Part) -> Result<(), AllocError>
    ensures { OnOk result (coming.new.items ≡ coming.old.items ++ second ∷ first ∷ []) }
{
    coming.push(second)?;
    coming.push(first)?;
    Ok(())
}

/// Puts the elements of a vector at the end, the first one last.
fn push_items(coming: &mut Vec<Part>, to: u32, items: &[u32]) -> Result<(), AllocError>
    ensures { OnOk result (coming.new.items ≡ coming.old.items ++ reverse (items_in to items.now)) }
{
    let mut items = items;
    while let Some((item, before)) = items.split_last() {
        coming.push(Part { lit: *item, to })?;
        items = before;
    }
    Ok(())
}

/// The rules of what a literal holds.
pub(crate) fn put_held(
    alloc: Global,
    flow: &Flow,
    lits: &[Lit],
    rules: &mut Rules,
    lit: u32,
) -> Result<(), AllocError>
    ensures { OnOk result (rules.new ≡ rules.old ++ held_rules flow.now lits.now lit) }
{
    let parts = parts_under(alloc, flow, lits, lit)?;
    for part in parts.as_slice() {
        put_atom(rules, ALWAYS, at(&flow.lits, part.lit), part.to)?;
    }
    Ok(())
}
