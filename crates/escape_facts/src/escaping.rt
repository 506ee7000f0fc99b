//! The sites that escape.

ghost use Rattle.std.specs.Prelude.{◌≡◌, IfOk, IsTrue};
ghost use Rattle.least_set.specs.Least.{all_below, rises};
ghost use Rattle.named_form.specs.Code.{totals};
ghost use Rattle.named_form.specs.PlainPlan.{all_free};
ghost use Rattle.named_form.specs.Valid.{WellFormed};
ghost use Rattle.named_form.specs.Written.{form};
ghost use Rattle.plan_facts.specs.Escaping.{IsEscaping};

use crate::contents::Held;
use crate::owners::{bound_of, owners_of, turned};
use crate::starts::starts_of;
use flow_constraints::flow_of;
use flow_form::Rows;
use least_set::{least_led, targets_of};
use named_form::{Named, Plan, ProcSet, Sites};
use plan_facts::places;
use scheme_base::Uses;
use std::alloc::{AllocError, Global};

/// The sites of a well-formed program whose objects may outlive the activation that makes them, by these rows, where
/// these procedures are captured. They are in order, and each is a site of the program.
pub fn escapes(
    alloc: Global,
    named: &Named,
    rows: &Rows,
    capturing: &ProcSet,
) -> Result<Sites, AllocError>
    ensures exact { WellFormed (form named.now) → IfOk result (λ sites. IsEscaping (form named.now) rows.now capturing.now.procs sites) }
    ensures rises { IfOk result (λ sites. IsTrue (rises sites)) }
    ensures fits { WellFormed (form named.now) → IfOk result (λ sites. IsTrue (all_below (totals (form named.now).procs).sites sites)) }
{
    let flow = flow_of(alloc, named)?;
    let listed = places(alloc, named)?;
    let steps = listed.steps.as_slice();
    let free = free_variables(alloc, named)?;
    let found = owners_of(alloc, &flow, steps)?;
    let links = found.as_slice();
    let many = bound_of(links);
    let others = turned(alloc, links)?;
    let owners = targets_of(alloc, many, links)?;
    let own = targets_of(alloc, many, others.as_slice())?;
    let by_site = owners.as_slice();
    let starts = starts_of(
        alloc,
        named.tops,
        &flow,
        rows,
        steps,
        by_site,
        own.as_slice(),
        capturing.procs.as_slice(),
    )?;
    let held = Held {
        flow: &flow,
        rows,
        owners: by_site,
        free: free.as_slice(),
    };
    let sites = least_led(alloc, many, starts.as_slice(), &held)?;
    Ok(sites)
}

/// The free variables of each procedure of a well-formed program.
fn free_variables(alloc: Global, named: &Named) -> Result<Uses, AllocError>
    ensures { IfOk result (λ free. WellFormed (form named.now) → free ≡ all_free (form named.now).procs) }
{
    let plan = Plan::plain(alloc, named)?;
    let slots = plan.slots;
    Ok(slots.kept)
}
