//! What is known of the values of variables without a run.

ghost use Rattle.std.specs.Prelude.{◌≡◌, length, map, slice_get, IfOk};
ghost use Rattle.named_form.specs.Valid.{numbers_from};
ghost use Rattle.plan_facts.specs.Slotted.{closed_by};
ghost use Rattle.slot_facts.specs.Values.{stated_by, stated_of, value_by};

use crate::marks::number_of;
use flow_constraints::{Flow, Kind};
use flow_form::Rows;
use plan_facts::members;
use scheme_base::{List, Stated};
use std::alloc::{AllocError, Global};

/// The procedure, one of so many, whose closures an atom stands for.
pub(crate) fn closing(procs: usize, flow: &Flow, atom: u32) -> Option<u32>
    ensures { result ≡ closed_by procs (slice_get flow.now.kinds atom) }
{
    match flow.kinds.get(atom as usize) {
        Some(Kind::Closure { proc }) if (*proc as usize) < procs => Some(*proc),
        _ => None,
    }
}

/// For each variable the one value that it can have; none where it can have several, or one that has no other
/// name. A closure is the one of its procedure as long as the procedure has no slots.
pub(crate) fn values(
    alloc: Global,
    procs: usize,
    flow: &Flow,
    rows: &Rows,
) -> Result<List<Option<Stated>>, AllocError>
    ensures { IfOk result (λ values. values ≡ map (stated_of procs flow.now rows.now) (numbers_from 0 (length flow.now.vars))) }
{
    let mut values = List::new(alloc);
    for var in 0..flow.vars.len() {
        values.push(value(alloc, procs, flow, rows, number_of(var)?)?)?;
    }
    Ok(values)
}

/// The one value that a variable can have, if it can have no other.
fn value(
    alloc: Global,
    procs: usize,
    flow: &Flow,
    rows: &Rows,
    var: u32,
) -> Result<Option<Stated>, AllocError>
    ensures { IfOk result (λ value. value ≡ stated_of procs flow.now rows.now var) }
{
    let atoms = members(alloc, rows, flow.var(var))?;
    Ok(stated(procs, flow, atoms.as_slice()))
}

/// The one value of a variable that has these atoms.
fn stated(procs: usize, flow: &Flow, atoms: &[u32]) -> Option<Stated>
    ensures { result ≡ stated_by procs flow.now.kinds atoms.now }
{
    match atoms {
        [] => Some(Stated::Unspecified),
        [atom] => value_of(closing(procs, flow, *atom), *atom),
        _ => None,
    }
}

/// The one value that an atom stands for, that of these closures or another.
fn value_of(closure: Option<u32>, atom: u32) -> Option<Stated>
    ensures { result ≡ value_by closure atom }
{
    match (closure, atom) {
        (Some(proc), _) => Some(Stated::Closure(proc)),
        (None, 3) => Some(Stated::False),
        (None, 4) => Some(Stated::True),
        (None, 5) => Some(Stated::Nil),
        (None, 6) => Some(Stated::Unspecified),
        (None, 7) => Some(Stated::Eof),
        _ => None,
    }
}
