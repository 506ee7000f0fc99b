//! The procedures that a continuation may capture.

ghost use Rattle.std.specs.Prelude.{◌≡◌, ◌+◌, length, map, nat_lt, IfOk, IsTrue};
ghost use Rattle.std.specs.List.{filter};
ghost use Rattle.least_set.specs.Least.{IsLeast, has};
ghost use Rattle.named_form.specs.PlainPlan.{var_count};
ghost use Rattle.named_form.specs.Valid.{WellFormed};
ghost use Rattle.named_form.specs.ValidPlan.{is_set};
ghost use Rattle.named_form.specs.Written.{form, procedure};
ghost use Rattle.plan_facts.specs.Capturing.{HasJoined, IsCapturing, recording};
ghost use Rattle.plan_facts.specs.Places.{facts, AllStand};

use crate::graph::{links_of, starts_of};
use crate::recording::{marked, recording_of};
use flow_constraints::{Flow, flow_of};
use flow_form::Rows;
use least_set::least_closed;
use named_form::{Named, Proc, ProcSet};
use plan_facts::{Place, places};
use scheme_base::{Ids, List};
use std::alloc::{AllocError, Global};

/// The procedures that a continuation may capture, and the variables of the calls in record mode, by these rows.
pub fn captures(alloc: Global, named: &Named, rows: &Rows) -> Result<ProcSet, AllocError>
    ensures exact { IfOk result (λ set. IsCapturing (form named.now) rows.now set.procs) }
    ensures recording { IfOk result (λ set. set.recording ≡ recording (form named.now) rows.now set.procs) }
    ensures fits { IfOk result (λ set. IsTrue (is_set (length (form named.now).procs) set.procs)) }
    ensures recording_fits { WellFormed (form named.now) → IfOk result (λ set. IsTrue (is_set (var_count (form named.now).procs) set.recording)) }
{
    let procs = named.procs.as_slice();
    let flow = flow_of(alloc, named)?;
    let listed = places(alloc, named)?;
    let steps = listed.steps.as_slice();
    let set = capturing(alloc, procs, &flow, rows, steps)?;
    let marks = marked(alloc, procs.len(), set.as_slice())?;
    let recording = recording_of(alloc, procs, &flow, rows, marks.as_slice(), steps)?;
    Ok(ProcSet {
        procs: set,
        recording,
    })
}

/// The procedures that a continuation may capture.
fn capturing(
    alloc: Global,
    procs: &[Proc],
    flow: &Flow,
    rows: &Rows,
    places: &[Place],
) -> Result<Ids, AllocError>
    requires { AllStand (length procs.now) places.now }
    ensures least { IfOk result (λ set. IsLeast (HasJoined (facts (map procedure procs.now) flow.now rows.now places.now)) (has set)) }
    ensures fits { IfOk result (λ set. IsTrue (is_set (length procs.now) set)) }
{
    let starts = starts_of(alloc, flow, rows, procs.len(), places)?;
    let links = links_of(alloc, procs, flow, rows, places)?;
    let many = total(procs.len(), places.len())?;
    let found = least_closed(alloc, many, starts.as_slice(), links.as_slice())?;
    let set = below(alloc, found.as_slice(), procs.len())?;
    Ok(List::from_vec(set))
}

/// How many procedures and steps there are.
fn total(procs: usize, steps: usize) -> Result<usize, AllocError>
    ensures { IfOk result (λ many. many ≡ procs + steps) }
{
    procs.checked_add(steps).ok_or(AllocError)
}

/// Those of these numbers that are below `many`.
fn below(alloc: Global, numbers: &[u32], many: usize) -> Result<Vec<u32>, AllocError>
    ensures { IfOk result (λ below. below.items ≡ filter (λ number. nat_lt number many) numbers.now) }
{
    numbers
        .iter()
        .copied()
        .filter(|number| (*number as usize) < many)
        .collect(alloc)
}
