//! What a plan says of each variable and each procedure, found at once.

ghost use Rattle.std.specs.Prelude.{◌≡◌, ◌++◌, [], ◌∷◌, map, None, Some, IfOk, OnOk};
ghost use Rattle.std.specs.List.{filter};
ghost use Rattle.std.specs.Option.{option_map};
ghost use Rattle.named_form.specs.Code.{binds, arms_bind, bound_in};
ghost use Rattle.named_form.specs.Written.{code, procedure};
ghost use Rattle.named_form.specs.Storage.{keeps as kept_by, mark_of as mark_at};
ghost use Rattle.named_form.specs.ValidPlan.{use_of as use_at, block_reached, repr_of};
ghost use Rattle.closure_conv.specs.FlatOf.{home, homes, is_raw as is_bare, cell_or, slot_or, kept_or_none};
ghost use Rattle.closure_conv.specs.StepTypes.{act_of};
ghost use Rattle.closure_conv.specs.Tables.{Rests, Runs, scene, number_of, has_slot, value_at, home_in};

use crate::numbering::Numbering;
use flat_form::{At, Place, Places};
use named_form::{Act, Block, Named, Plan, Proc, Repr, StepUse};
use scheme_base::{Ids, List, Mark, Stated};
use std::alloc::{AllocError, Global};

/// The plan's lists, numbered, and those of the procedure that runs.
#[derive(Drop)]
pub(crate) struct Tables {
    /// The procedure that runs.
    pub(crate) proc: u32,
    /// Its variables that have slots, in the order in which it binds them.
    pub(crate) slotted: Ids,
    pub(crate) slots: Numbering,
    pub(crate) kept: Numbering,
    /// How many top-level variables there are.
    pub(crate) tops: u32,
    pub(crate) capturing: Numbering,
    pub(crate) recording: Numbering,
    pub(crate) fictitious: Numbering,
    pub(crate) global: Numbering,
    pub(crate) compared: Numbering,
}

impl Tables {
    /// The tables of a plan, before any procedure.
    pub(crate) fn of(alloc: Global, named: &Named, plan: &Plan) -> Result<Tables, AllocError>
        ensures rests { IfOk result (Rests plan.now) }
        ensures first { IfOk result (λ tables. tables.proc ≡ 0) }
        ensures tops { IfOk result (λ tables. tables.tops ≡ named.now.tops) }
    {
        let procs = named.procs.len();
        let vars = plan.reprs.vars.len();
        let fictitious = fictitious_vars(alloc, plan)?;
        Ok(Tables {
            proc: 0,
            slotted: Ids::new(alloc),
            slots: Numbering::new(alloc, vars)?,
            kept: Numbering::new(alloc, vars)?,
            tops: named.tops,
            capturing: Numbering::of(alloc, procs, plan.capturing.procs.as_slice())?,
            recording: Numbering::of(alloc, vars, plan.capturing.recording.as_slice())?,
            fictitious: Numbering::of(alloc, vars, fictitious.as_slice())?,
            global: Numbering::of(alloc, vars, plan.slots.global.as_slice())?,
            compared: Numbering::of(alloc, procs, plan.slots.compared.as_slice())?,
        })
    }

    /// Whether a variable has a slot in the frame of the procedure that binds it.
    fn has_slot(&self, var: u32) -> bool
        ensures { result ≡ has_slot self.now var }
    {
        !(self.fictitious.contains(var) || self.global.contains(var))
    }
}

/// The variables that need no place.
fn fictitious_vars(alloc: Global, plan: &Plan) -> Result<Ids, AllocError>
    ensures { IfOk result (λ vars. vars ≡ map (λ f. f.var) plan.now.slots.fictitious) }
{
    let fictions = plan.slots.fictitious.as_slice();
    Ok(Ids::from_vec(fictions.iter().map(|fiction| fiction.var).collect(alloc)?))
}

/// The variables that a procedure's closures keep.
pub(crate) fn keeps(plan: &Plan, proc: u32) -> &[u32]
    ensures { result.now ≡ kept_by plan.now proc }
{
    match plan.slots.kept.get(proc as usize) {
        None => &[],
        Some(kept) => kept.as_slice(),
    }
}

/// Where a site's objects are made.
pub(crate) fn mark_of(plan: &Plan, site: usize) -> Mark
    ensures { result ≡ mark_at plan.now site }
{
    match plan.marks.get(site) {
        None => Mark::Global,
        Some(mark) => *mark,
    }
}

/// Whether a block is reached.
pub(crate) fn is_block_reached(plan: &Plan, block: usize) -> bool
    ensures { result ≡ block_reached plan.now block }
{
    match plan.reprs.blocks.get(block) {
        None => false,
        Some(reached) => *reached,
    }
}

/// The use of a step.
pub(crate) fn use_of(plan: &Plan, step: usize) -> StepUse
    ensures { result ≡ use_at plan.now step }
{
    match plan.reprs.steps.get(step) {
        None => StepUse {
            reached: false,
            checked: false,
        },
        Some(step_use) => *step_use,
    }
}

/// Whether a variable is held as a bare integer.
fn is_raw(plan: &Plan, var: u32) -> bool
    ensures { result ≡ is_bare (repr_of plan.now var) }
{
    match plan.reprs.vars.get(var as usize) {
        Some(Repr::Raw) => true,
        _ => false,
    }
}

/// The value that is known of a variable.
fn stated(plan: &Plan, tables: &Tables, var: u32) -> Option<Stated>
    ensures { result ≡ value_at plan.now.slots.fictitious (number_of tables.now.fictitious var) }
{
    match tables.fictitious.number(var) {
        None => None,
        Some(number) => known_value(plan, number),
    }
}

/// The value of the variable of this number among those whose values are known.
fn known_value(plan: &Plan, number: u32) -> Option<Stated>
    ensures { result ≡ value_at plan.now.slots.fictitious (Some number) }
{
    match plan.slots.fictitious.get(number as usize) {
        None => None,
        Some(fiction) => Some(fiction.value),
    }
}

/// Where the running procedure finds a variable.
fn at_of(plan: &Plan, tables: &Tables, var: u32) -> Result<At, AllocError>
    ensures { IfOk result (λ at. at ≡ home_in plan.now tables.now var) }
{
    match stated(plan, tables, var) {
        Some(value) => Ok(At::Stated(value)),
        None => cell_or_own(tables, var),
    }
}

/// The cell of a variable, behind those of the top-level variables, or where else it is.
fn cell_or_own(tables: &Tables, var: u32) -> Result<At, AllocError>
    ensures { IfOk result (λ at. at ≡ cell_or tables.now.tops (number_of tables.now.global var) (slot_or (number_of tables.now.slots var) (kept_or_none (number_of tables.now.kept var)))) }
{
    match tables.global.number(var) {
        Some(number) => Ok(At::Cell(tables.tops.checked_add(number).ok_or(AllocError)?)),
        None => own_place(tables, var),
    }
}

/// The place of a variable in the running procedure's frame, or among what its closure keeps. What has no
/// home is never read.
fn own_place(tables: &Tables, var: u32) -> Result<At, AllocError>
    ensures { IfOk result (λ at. at ≡ slot_or (number_of tables.now.slots var) (kept_or_none (number_of tables.now.kept var))) }
{
    match tables.slots.number(var) {
        Some(number) => Ok(At::Slot(number.checked_add(1).ok_or(AllocError)?)),
        None => match tables.kept.number(var) {
            Some(number) => Ok(At::Kept(number)),
            None => Ok(At::Stated(Stated::Unspecified)),
        },
    }
}

/// The place of a variable in the running procedure.
#[tactic(auto, using(crate::proofs::Homes::home_is))]
pub(crate) fn place_of(plan: &Plan, tables: &Tables, var: u32) -> Result<Place, AllocError>
    requires { Runs plan.now tables.now }
    ensures { IfOk result (λ place. place ≡ home (scene plan.now tables.now) var) }
{
    Ok(Place {
        at: at_of(plan, tables, var)?,
        raw: is_raw(plan, var),
    })
}

/// The places of variables.
pub(crate) fn places_of(
    alloc: Global,
    plan: &Plan,
    tables: &Tables,
    vars: &[u32],
) -> Result<Places, AllocError>
    requires { Runs plan.now tables.now }
    ensures { IfOk result (λ places. places ≡ homes (scene plan.now tables.now) vars.now) }
{
    let mut places = List::new(alloc);
    for var in vars {
        places.push(place_of(plan, tables, *var)?)?;
    }
    Ok(places)
}

/// The place of a variable that may not be there.
pub(crate) fn place_of_any(
    plan: &Plan,
    tables: &Tables,
    var: Option<u32>,
) -> Result<Option<Place>, AllocError>
    requires { Runs plan.now tables.now }
    ensures { IfOk result (λ place. place ≡ option_map (home (scene plan.now tables.now)) var) }
{
    match var {
        None => Ok(None),
        Some(var) => Ok(Some(place_of(plan, tables, var)?)),
    }
}

/// The variables of a procedure that have slots, in the order in which it binds them.
pub(crate) fn slotted(alloc: Global, tables: &Tables, proc: &Proc) -> Result<Ids, AllocError>
    ensures { IfOk result (λ vars. vars ≡ filter (has_slot tables.now) (bound_in (procedure proc.now))) }
{
    let mut vars = Ids::new(alloc);
    put_slotted(tables, proc.params.as_slice(), &mut vars)?;
    if let Some(rest) = proc.rest {
        put_slotted(tables, &[rest], &mut vars)?;
    }
    put_block(tables, &proc.body, &mut vars)?;
    Ok(vars)
}

/// Puts those variables of a list that have slots at the end.
fn put_slotted(tables: &Tables, from: &[u32], vars: &mut Ids) -> Result<(), AllocError>
    ensures { OnOk result (vars.new ≡ vars.old ++ filter (has_slot tables.now) from.now) }
{
    for var in from {
        if tables.has_slot(*var) {
            vars.push(*var)?;
        }
    }
    Ok(())
}

/// Puts those variables that a block binds and that have slots at the end.
#[cycle(slotted)]
fn put_block(tables: &Tables, block: &Block, vars: &mut Ids) -> Result<(), AllocError>
    ensures { OnOk result (vars.new ≡ vars.old ++ filter (has_slot tables.now) (binds (code block.now))) }
{
    for step in block.steps.as_slice() {
        put_slotted(tables, step.vars.as_slice(), vars)?;
        put_arms(tables, &step.act, vars)?;
    }
    Ok(())
}

/// Puts those variables that a step's arms bind and that have slots at the end.
#[cycle(slotted)]
fn put_arms(tables: &Tables, act: &Act, vars: &mut Ids) -> Result<(), AllocError>
    ensures { OnOk result (vars.new ≡ vars.old ++ filter (has_slot tables.now) (arms_bind (act_of act.now))) }
{
    match act {
        Act::If { yes, no, .. } => {
            put_block(tables, yes, vars)?;
            put_block(tables, no, vars)
        }
        _ => Ok(()),
    }
}
