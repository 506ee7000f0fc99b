//! The plain plan: all is kept, global, checked and reached.

ghost use Rattle.std.specs.Prelude.{◌≡◌, ◌-◌, length, map, vec_len, IfOk, OnOk};
ghost use Rattle.named_form.specs.PlainPlan.{capturing, plain};
ghost use Rattle.named_form.specs.Tallies.{met_all, planned, vars_before};
ghost use Rattle.named_form.specs.Valid.{WellFormed, numbers_from};
ghost use Rattle.named_form.specs.ValidPlan.{FitsProgram};
ghost use Rattle.named_form.specs.Written.{form, procedure};

use crate::free::free_variables;
use crate::tally::Tally;
use crate::{Named, Plan, Proc, ProcSet, Repr, Reprs, Slots, StepUse};
use scheme_base::{Ids, List, Mark, Uses};
use std::alloc::{AllocError, Global};

/// What the plain plan says of a step.
const USED: StepUse = StepUse {
    reached: true,
    checked: true,
};

impl Plan {
    /// The plan that asks for no facts: all is kept, global, checked and reached, and where some step
    /// captures a continuation every procedure captures.
    pub fn plain(alloc: Global, named: &Named) -> Result<Plan, AllocError>
        ensures exact { WellFormed (form named.now) → IfOk result (λ plan. plan ≡ plain (form named.now)) }
        ensures fits { WellFormed (form named.now) → IfOk result (λ plan. FitsProgram plan (form named.now).procs) }
    {
        let procs = named.procs.as_slice();
        let mut tally = Tally::new(alloc, procs.len().saturating_sub(1));
        let firsts = meet_all(alloc, procs, &mut tally)?;
        let kept = free_variables(alloc, procs, firsts.as_slice())?;
        plan_of(alloc, tally, kept, procs.len())
    }
}

/// The plain plan of what has been met.
fn plan_of(alloc: Global, tally: Tally, kept: Uses, procs: usize) -> Result<Plan, AllocError>
    ensures { IfOk result (λ plan. plan ≡ planned tally kept procs) }
{
    let Tally {
        steps,
        sites,
        blocks,
        vars,
        recording,
        captures,
    } = tally;
    Ok(Plan {
        capturing: capturing(alloc, captures, procs, recording)?,
        slots: Slots {
            kept,
            fictitious: List::new(alloc),
            global: List::new(alloc),
            compared: numbers(alloc, 1, procs)?,
        },
        marks: List::from_vec(vec![in alloc; Mark::Global; sites]?),
        reprs: Reprs {
            vars: List::from_vec(vec![in alloc; Repr::Tagged; vars]?),
            blocks: List::from_vec(vec![in alloc; true; blocks]?),
            steps: List::from_vec(vec![in alloc; USED; steps]?),
        },
    })
}

/// Meets all procedures, and answers the number of the first variable of each.
fn meet_all(alloc: Global, procs: &[Proc], tally: &mut Tally) -> Result<Vec<usize>, AllocError>
    ensures tally { OnOk result (tally.new ≡ met_all (map procedure procs.now) tally.old) }
    ensures firsts { IfOk result (λ firsts. firsts.items ≡ vars_before (map procedure procs.now) tally.old) }
    ensures long { IfOk result (λ firsts. vec_len firsts ≡ length procs.now) }
{
    let mut firsts = Vec::new(alloc);
    for proc in procs {
        firsts.push(tally.vars)?;
        tally.meet_proc(proc)?;
    }
    Ok(firsts)
}

/// All procedures with the calls in record mode, where some step captures a continuation; else none.
fn capturing(
    alloc: Global,
    captures: bool,
    procs: usize,
    recording: Ids,
) -> Result<ProcSet, AllocError>
    ensures { IfOk result (λ set. set ≡ capturing captures procs recording) }
{
    if captures {
        let procs = numbers(alloc, 0, procs)?;
        Ok(ProcSet { procs, recording })
    } else {
        Ok(ProcSet {
            procs: List::new(alloc),
            recording: List::new(alloc),
        })
    }
}

/// The numbers from `first` on, below `past`.
fn numbers(alloc: Global, first: usize, past: usize) -> Result<Ids, AllocError>
    ensures { IfOk result (λ numbers. numbers ≡ numbers_from first (past - first)) }
{
    let mut numbers = List::new(alloc);
    for number in first..past {
        numbers.push(narrow(number)?)?;
    }
    Ok(numbers)
}

/// A procedure's number, where it has 32 bits, as it has in a well-formed program.
fn narrow(number: usize) -> Result<u32, AllocError>
    ensures { IfOk result (λ same. same ≡ number) }
{
    u32::try_from(number).map_err(|_| AllocError)
}
