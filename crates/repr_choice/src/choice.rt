//! The representations of a program's variables, and the use of its blocks and steps.

ghost use Rattle.std.specs.Prelude.{◌≡◌, length, map, slice_set, true, IfOk};
ghost use Rattle.named_form.specs.Valid.{numbers_from};
ghost use Rattle.named_form.specs.Written.{form, procedure};
ghost use Rattle.plan_facts.specs.Calls.{is_reached as reaches};
ghost use Rattle.plan_facts.specs.Represented.{IsReprs, are_integers, atoms, repr_in, repr_of, use_in};
ghost use Rattle.repr_choice.specs.Marks.{MarksFictions};

use crate::checks::is_checked;
use crate::wanted::INTEGER;
use flow_constraints::{Flow, flow_of};
use flow_form::Rows;
use named_form::{Fiction, Flags, Named, Proc, Repr, ReprList, Reprs, Slots, StepUse, StepUses};
use plan_facts::{Place, is_reached, members, places};
use scheme_base::List;
use std::alloc::{AllocError, Global};

/// The representations of a program with these slots, where its values are as the rows say: of each variable, of
/// each block and of each step, in their order. Takes time linear in the steps and the words of their rows.
pub fn reprs(alloc: Global, named: &Named, rows: &Rows, slots: &Slots) -> Result<Reprs, AllocError>
    ensures { IfOk result (λ reprs. IsReprs (form named.now) rows.now slots.now reprs) }
{
    let flow = flow_of(alloc, named)?;
    let found = places(alloc, named)?;
    let vars = vars_of(alloc, &flow, rows, slots.fictitious.as_slice())?;
    let blocks = blocks_of(alloc, &flow, rows, found.totals.blocks)?;
    let steps = steps_of(
        alloc,
        named.procs.as_slice(),
        &flow,
        rows,
        found.steps.as_slice(),
    )?;
    Ok(Reprs {
        vars,
        blocks,
        steps,
    })
}

/// How the value of each variable is held.
fn vars_of(
    alloc: Global,
    flow: &Flow,
    rows: &Rows,
    fictions: &[Fiction],
) -> Result<ReprList, AllocError>
    ensures { IfOk result (λ vars. vars ≡ map (repr_of flow.now rows.now fictions.now) (numbers_from 0 (length flow.now.vars))) }
{
    let many = flow.vars.len();
    let marks = fictitious(alloc, many, fictions)?;
    let mut vars = List::new(alloc);
    for var in 0..many {
        let number = u32::try_from(var).map_err(|_| AllocError)?;
        vars.push(repr_of(marks[var], are_integers(alloc, flow, rows, number)?))?;
    }
    Ok(vars)
}

/// For each variable below `many`, whether it needs no slot.
fn fictitious(alloc: Global, many: usize, fictions: &[Fiction]) -> Result<Vec<bool>, AllocError>
    ensures { IfOk result (λ marks. MarksFictions many fictions.now marks.items) }
{
    let mut marks = vec![in alloc; false; many]?;
    for fiction in fictions {
        mark(&mut marks, fiction.var);
    }
    Ok(marks)
}

/// Marks a variable, if it is there.
fn mark(marks: &mut Vec<bool>, var: u32)
    ensures { marks.new.items ≡ slice_set marks.old.items var true }
{
    let at = var as usize;
    if at < marks.len() {
        marks[at] = true;
    }
}

/// Whether a variable can be an integer alone.
fn are_integers(alloc: Global, flow: &Flow, rows: &Rows, var: u32) -> Result<bool, AllocError>
    ensures { IfOk result (λ integers. integers ≡ are_integers (atoms flow.now rows.now var)) }
{
    let members = members(alloc, rows, flow.var(var))?;
    match members.as_slice() {
        [atom] => Ok(*atom == INTEGER),
        _ => Ok(false),
    }
}

/// How a value is held that needs no slot or can be an integer alone.
fn repr_of(is_fictitious: bool, integers: bool) -> Repr
    ensures { result ≡ repr_in is_fictitious integers }
{
    if is_fictitious {
        Repr::Nothing
    } else if integers {
        Repr::Raw
    } else {
        Repr::Tagged
    }
}

/// Whether each of so many blocks is reached.
fn blocks_of(alloc: Global, flow: &Flow, rows: &Rows, many: u32) -> Result<Flags, AllocError>
    ensures { IfOk result (λ flags. flags ≡ map (reaches flow.now rows.now) (numbers_from 0 many)) }
{
    let mut flags = List::new(alloc);
    for block in 0..many {
        flags.push(is_reached(flow, rows, block))?;
    }
    Ok(flags)
}

/// The use of each step.
fn steps_of(
    alloc: Global,
    procs: &[Proc],
    flow: &Flow,
    rows: &Rows,
    places: &[Place],
) -> Result<StepUses, AllocError>
    ensures { IfOk result (λ uses. uses ≡ map (use_in (map procedure procs.now) flow.now rows.now) places.now) }
{
    let mut uses = List::new(alloc);
    for place in places {
        uses.push(StepUse {
            reached: is_reached(flow, rows, place.block),
            checked: is_checked(alloc, procs, flow, rows, &place.action)?,
        })?;
    }
    Ok(uses)
}
