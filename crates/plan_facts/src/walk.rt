//! The walk over a program that lists its steps.

ghost use Rattle.std.specs.Prelude.{◌≡◌, ◌++◌, map, true, IfOk, OnOk};
ghost use Rattle.scheme_base.specs.declared.pos.Pos.{Pos};
ghost use Rattle.flow_constraints.specs.Walk.{counts, inside};
ghost use Rattle.named_form.specs.Code.{Ends, ends_with, past, past_arms, past_code, single, totals};
ghost use Rattle.named_form.specs.Written.{act_of, all_onto, code, form, onto, procedure};
ghost use Rattle.plan_facts.specs.declared.place.Action.TheVariants.{Make, NewBox, Other};
ghost use Rattle.plan_facts.specs.Places.{action_of, places_of};
ghost use Rattle.plan_facts.specs.Walk.{placed, walk_arms, walk_code};

use crate::{Action, Place, PlaceList, Places};
use flow_constraints::{Counts, first_sites};
use named_form::{Act, Block, Named, Proc, Step};
use scheme_base::List;
use std::alloc::{AllocError, Global};

/// Where a walk is: in a block of a procedure, which is in tail position or not.
#[derive(Clone, Copy)]
pub(crate) struct Spot {
    pub(crate) proc: u32,
    pub(crate) block: u32,
    pub(crate) tail: bool,
}

/// The steps of a program, in order.
pub fn places(alloc: Global, named: &Named) -> Result<Places, AllocError>
    ensures steps { IfOk result (λ places. places.steps ≡ places_of (form named.now)) }
    ensures totals { IfOk result (λ places. counts places.totals ≡ totals (form named.now).procs) }
{
    let procs = named.procs.as_slice();
    let mut steps = List::new(alloc);
    let mut before = Counts {
        steps: 0,
        sites: first_sites(procs)?,
        blocks: 0,
    };
    for number in 0..procs.len() {
        put_proc(alloc, &mut steps, &mut before, number, &procs[number])?;
    }
    Ok(Places {
        steps,
        totals: before,
    })
}

/// The steps of a procedure; `before` is what stands before it, and then what stands before the next.
fn put_proc(
    alloc: Global,
    steps: &mut PlaceList,
    before: &mut Counts,
    number: usize,
    proc: &Proc,
) -> Result<(), AllocError>
    ensures steps { OnOk result (steps.new ≡ steps.old ++ walk_code (record { proc = number; block = (counts before.old).blocks; tail = true }) (inside (counts before.old)) (code proc.now.body)) }
    ensures past { OnOk result (counts before.new ≡ past_code (inside (counts before.old)) (code proc.now.body)) }
{
    let spot = Spot {
        proc: u32::try_from(number).map_err(|_| AllocError)?,
        block: before.blocks,
        tail: true,
    };
    *before = before.inside()?;
    put_block(alloc, steps, before, spot, &proc.body)
}

/// The steps of a block, with those of its arms; `before` is what stands before it, and then what stands before its
/// end.
#[cycle(walk)]
fn put_block(
    alloc: Global,
    steps: &mut PlaceList,
    before: &mut Counts,
    spot: Spot,
    block: &Block,
) -> Result<(), AllocError>
    ensures steps { OnOk result (steps.new ≡ steps.old ++ walk_code spot (counts before.old) (code block.now)) }
    ensures past { OnOk result (counts before.new ≡ past_code (counts before.old) (code block.now)) }
{
    let items = block.steps.as_slice();
    for (at, step) in items.iter().enumerate() {
        let vars = step.vars.as_slice();
        let tail = spot.tail && ends_with(&items[at + 1..], block.value, vars);
        steps.push(place_of(alloc, spot, *before, tail, vars, &step.act)?)?;
        put_arms(alloc, steps, before, spot.proc, tail, &step.act)?;
    }
    Ok(())
}

/// The steps of a step's arms, which are in tail position or not; `before` is what stands before the step, and then
/// what stands before the next.
#[cycle(walk)]
fn put_arms(
    alloc: Global,
    steps: &mut PlaceList,
    before: &mut Counts,
    proc: u32,
    tail: bool,
    act: &Act,
) -> Result<(), AllocError>
    ensures steps { OnOk result (steps.new ≡ steps.old ++ walk_arms proc tail (counts before.old).blocks (past (counts before.old) (act_of act.now)) (act_of act.now)) }
    ensures past { OnOk result (counts before.new ≡ past_arms (past (counts before.old) (act_of act.now)) (act_of act.now)) }
{
    let block = before.blocks;
    *before = before.past(act)?;
    match act {
        Act::If { yes, no, .. } => {
            let other = block.checked_add(1).ok_or(AllocError)?;
            put_block(alloc, steps, before, Spot { proc, block, tail }, yes)?;
            put_block(
                alloc,
                steps,
                before,
                Spot {
                    proc,
                    block: other,
                    tail,
                },
                no,
            )
        }
        _ => Ok(()),
    }
}

/// A step that stands here, before which so many steps, sites and blocks stand.
fn place_of(
    alloc: Global,
    spot: Spot,
    before: Counts,
    tail: bool,
    vars: &[u32],
    act: &Act,
) -> Result<Place, AllocError>
    ensures { IfOk result (λ place. place ≡ placed spot (counts before) tail vars.now (act_of act.now)) }
{
    let action = action_of(alloc, act)?;
    Ok(Place {
        proc: spot.proc,
        block: spot.block,
        step: before.steps,
        site: before.sites,
        tail,
        var: single(vars),
        action,
    })
}

/// The one variable that a step other than a `Fix` binds.
fn single(vars: &[u32]) -> u32
    ensures { result ≡ single vars.now }
{
    match vars.first() {
        None => 0,
        Some(var) => *var,
    }
}

/// What a step does, its arms aside.
fn action_of(alloc: Global, act: &Act) -> Result<Action, AllocError>
    ensures { IfOk result (λ action. action ≡ action_of (act_of act.now)) }
{
    match act {
        Act::Prim { op, operands } => Ok(Action::Prim {
            op: *op,
            operands: List::from_slice(alloc, operands.as_slice())?,
        }),
        Act::Call { operator, operands } => Ok(Action::Call {
            operator: *operator,
            operands: List::from_slice(alloc, operands.as_slice())?,
        }),
        Act::Apply { operator, list } => Ok(Action::Apply {
            operator: *operator,
            list: *list,
        }),
        Act::CallCC { operator } => Ok(Action::CallCC {
            operator: *operator,
        }),
        Act::Closure { proc } => make(alloc, &[*proc]),
        Act::Fix { procs } => make(alloc, procs.as_slice()),
        Act::SetBox { boxed, from } => Ok(Action::SetBox {
            boxed: *boxed,
            from: *from,
        }),
        Act::MakeBox { from } => new_box(alloc, &[*from]),
        Act::MakeHole => new_box(alloc, &[]),
        Act::Copy { from } | Act::TopSet { from, .. } | Act::TopDefine { from, .. } => read(
            alloc,
            &[*from],
        ),
        Act::If { test, .. } => read(alloc, &[*test]),
        Act::Unbox { boxed, .. } => read(alloc, &[*boxed]),
        Act::Const { .. } | Act::TopGet { .. } => read(alloc, &[]),
    }
}

/// Closures of these procedures.
fn make(alloc: Global, procs: &[u32]) -> Result<Action, AllocError>
    ensures { IfOk result (λ action. action ≡ Make procs.now) }
{
    Ok(Action::Make {
        procs: List::from_slice(alloc, procs)?,
    })
}

/// A new box, with what this variable is bound to, if there is one.
fn new_box(alloc: Global, reads: &[u32]) -> Result<Action, AllocError>
    ensures { IfOk result (λ action. action ≡ NewBox reads.now) }
{
    Ok(Action::NewBox {
        reads: List::from_slice(alloc, reads)?,
    })
}

/// Some other step, which reads these variables.
fn read(alloc: Global, reads: &[u32]) -> Result<Action, AllocError>
    ensures { IfOk result (λ action. action ≡ Other reads.now) }
{
    Ok(Action::Other {
        reads: List::from_slice(alloc, reads)?,
    })
}

/// Whether a block ends before these steps, and its value is that of the first of these variables.
fn ends_with(steps: &[Step], value: Option<u32>, vars: &[u32]) -> bool
    ensures { result ≡ ends_with (all_onto (map onto steps.now) (Ends value)) vars.now }
{
    steps.is_empty() && gives(value, vars)
}

/// Whether a block's value is that of the first of these variables.
fn gives(value: Option<u32>, vars: &[u32]) -> bool
    ensures { result ≡ ends_with {L = Pos} (Ends value) vars.now }
{
    match (value, vars) {
        (Some(value), [var, ..]) => *var == value,
        _ => false,
    }
}
