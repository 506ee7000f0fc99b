//! The calls that leave a record of their frame.

ghost use Rattle.std.specs.Prelude.{◌≡◌, ◌++◌, ◌∷◌, [], map, slice_set, true, IfOk, OnOk, if◌then◌else◌};
ghost use Rattle.std.specs.List.{list_any};
ghost use Rattle.named_form.specs.Written.{procedure};
ghost use Rattle.callcc_conv.specs.Recording.{is_marked, marked, records, recorded};

use flow_constraints::Flow;
use flow_form::Rows;
use named_form::Proc;
use plan_facts::{Place, entered, may_resume};
use scheme_base::{Ids, List};
use std::alloc::{AllocError, Global};

/// The variables of the calls in record mode, where the procedures that are marked are captured.
pub(crate) fn recording_of(
    alloc: Global,
    procs: &[Proc],
    flow: &Flow,
    rows: &Rows,
    marks: &[bool],
    places: &[Place],
) -> Result<Ids, AllocError>
    ensures { IfOk result (λ vars. vars ≡ recorded (map procedure procs.now) flow.now rows.now marks.now places.now) }
{
    let mut vars = List::new(alloc);
    for at in 0..places.len() {
        put_var(alloc, &mut vars, procs, flow, rows, marks, &places[at])?;
    }
    Ok(vars)
}

/// Puts the variable of a call in record mode at the end of a list.
fn put_var(
    alloc: Global,
    vars: &mut Ids,
    procs: &[Proc],
    flow: &Flow,
    rows: &Rows,
    marks: &[bool],
    place: &Place,
) -> Result<(), AllocError>
    ensures { OnOk result (vars.new ≡ vars.old ++ (if records (map procedure procs.now) flow.now rows.now marks.now place.now then place.now.var ∷ [] else [])) }
{
    if !records(alloc, procs, flow, rows, marks, place)? {
        return Ok(());
    }
    vars.push(place.var)
}

/// Whether a call is in record mode.
fn records(
    alloc: Global,
    procs: &[Proc],
    flow: &Flow,
    rows: &Rows,
    marks: &[bool],
    place: &Place,
) -> Result<bool, AllocError>
    ensures { IfOk result (λ b. b ≡ records (map procedure procs.now) flow.now rows.now marks.now place.now) }
{
    if place.tail {
        return Ok(false);
    }
    if may_resume(flow, rows, &place.action) {
        return Ok(true);
    }
    let callees = entered(alloc, procs, flow, rows, &place.action)?;
    Ok(any_marked(marks, callees.as_slice()))
}

/// Whether one of these numbers is marked.
fn any_marked(marks: &[bool], numbers: &[u32]) -> bool
    ensures { result ≡ list_any (is_marked marks.now) numbers.now }
{
    for number in numbers {
        if is_marked(marks, *number) {
            return true;
        }
    }
    false
}

fn is_marked(marks: &[bool], number: u32) -> bool
    ensures { result ≡ is_marked marks.now number }
{
    let at = number as usize;
    at < marks.len() && marks[at]
}

/// A mark for each number below `many`, which tells those that a list has.
pub(crate) fn marked(alloc: Global, many: usize, numbers: &[u32]) -> Result<Vec<bool>, AllocError>
    ensures { IfOk result (λ marks. marks.items ≡ marked many numbers.now) }
{
    let mut marks = vec![in alloc; false; many]?;
    for number in numbers {
        mark(&mut marks, *number);
    }
    Ok(marks)
}

/// Marks a number, if there is a mark for it.
fn mark(marks: &mut Vec<bool>, number: u32)
    ensures { marks.new.items ≡ slice_set marks.old.items number true }
{
    let at = number as usize;
    if at < marks.len() {
        marks[at] = true;
    }
}
