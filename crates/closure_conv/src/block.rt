//! What blocks become.

ghost use Rattle.std.specs.Prelude.{◌≡◌, ◌&&◌, nat_eq, Some, IfOk, OnOk};
ghost use Rattle.std.specs.Option.{option_map};
ghost use Rattle.flat_form.specs.FlatCode.{Code as FlatCode, Then as FlatThen};
ghost use Rattle.flat_form.specs.FlatWritten.{act as flat_act_of, code as flat_code_of, step as flat_step_of, arm as arm_of};
ghost use Rattle.scheme_base.specs.declared.pos.Pos.{Pos as Position};
ghost use Rattle.named_form.specs.Code.{Ends, past, past_code, past_arms, ends_with, labelled, labelled_act, single as first_var};
ghost use Rattle.named_form.specs.Written.{code};
ghost use Rattle.named_form.specs.ValidPlan.{block_reached};
ghost use Rattle.closure_conv.specs.FlatOf.{homes, known, flat_code, flat_act as act_in, arm as arm_in};
ghost use Rattle.closure_conv.specs.StepTypes.{act_of, label};
ghost use Rattle.closure_conv.specs.Tables.{Runs, scene, counts};

use crate::act::{apply, call, call_cc, choice, closure, fix, prim, set_box, top_define, top_set};
use crate::counts::{Counts, past_block, plus};
use crate::tables::{Tables, is_block_reached, mark_of, place_of, place_of_any, places_of, use_of};
use flat_form::{FlatAct, FlatBlock, FlatStep};
use named_form::{Act, Block, Plan};
use scheme_base::Pos;
use sqlite_items::Items;
use std::alloc::{AllocError, Global};

/// The one variable that a step other than a `Fix` binds.
fn single(vars: &[u32]) -> u32
    ensures { result ≡ first_var vars.now }
{
    match vars.first() {
        None => 0,
        Some(var) => *var,
    }
}

/// Whether the first of these variables is this one.
fn is_first(vars: &[u32], value: u32) -> bool
    ensures { result ≡ ends_with {L = Position} (Ends (Some value)) vars.now }
{
    match vars.first() {
        None => false,
        Some(var) => *var == value,
    }
}

/// Whether the first of these variables is a block's value.
fn is_value(value: Option<u32>, vars: &[u32]) -> bool
    ensures { result ≡ ends_with {L = Position} (Ends value) vars.now }
{
    match value {
        None => false,
        Some(value) => is_first(vars, value),
    }
}

/// Whether a step that binds these variables is in tail position, in a block with this value where so many
/// steps come after it.
fn is_last(tail: bool, left: usize, value: Option<u32>, vars: &[u32]) -> bool
    ensures { result ≡ (tail && (nat_eq left 0 && ends_with {L = Position} (Ends value) vars.now)) }
{
    tail && (left == 0 && is_value(value, vars))
}

/// A block, `at` its first step; afterwards `at` is past it. `tail` tells that it is in tail position.
#[cycle(flatten)]
pub(crate) fn block(
    alloc: Global,
    plan: &Plan,
    tables: &Tables,
    tail: bool,
    at: &mut Counts,
    from: &Block,
) -> Result<FlatBlock, AllocError>
    requires { Runs plan.now tables.now }
    ensures code { IfOk result (λ block. flat_code_of block ≡ flat_code (scene plan.now tables.now) (labelled (counts at.old) tail (code from.now))) }
    ensures past { OnOk result (counts at.new ≡ past_code (counts at.old) (code from.now)) }
{
    let mut steps = Items::new(alloc);
    let mut left = from.steps.len();
    for step in from.steps.as_slice() {
        left = left.saturating_sub(1);
        let vars = step.vars.as_slice();
        let ends = is_last(tail, left, from.value, vars);
        steps.push(flat_step(alloc, plan, tables, ends, at, vars, step.pos, &step.act)?)?;
    }
    Ok(FlatBlock {
        steps,
        value: place_of_any(plan, tables, from.value)?,
    })
}

/// A step that binds these variables. `tail` tells that it is in tail position.
#[cycle(flatten)]
fn flat_step(
    alloc: Global,
    plan: &Plan,
    tables: &Tables,
    tail: bool,
    at: &mut Counts,
    vars: &[u32],
    pos: Pos,
    act: &Act,
) -> Result<FlatStep, AllocError>
    requires { Runs plan.now tables.now }
    ensures step { IfOk result (λ step. (rest : FlatCode) → flat_step_of step rest ≡ FlatThen (known plan.now (label (counts at.old) pos tail)) (homes (scene plan.now tables.now) vars.now) (act_in (scene plan.now tables.now) (label (counts at.old) pos tail) (first_var vars.now) (labelled_act (past (counts at.old) (act_of act.now)) tail (act_of act.now))) rest) }
    ensures past { OnOk result (counts at.new ≡ past_arms (past (counts at.old) (act_of act.now)) (act_of act.now)) }
{
    let step_use = use_of(plan, at.steps);
    Ok(FlatStep {
        to: places_of(alloc, plan, tables, vars)?,
        act: flat_act(alloc, plan, tables, tail, at, single(vars), act)?,
        pos,
        reached: step_use.reached,
        checked: step_use.checked,
    })
}

/// What a step does that binds `var`.
#[cycle(flatten)]
fn flat_act(
    alloc: Global,
    plan: &Plan,
    tables: &Tables,
    tail: bool,
    at: &mut Counts,
    var: u32,
    act: &Act,
) -> Result<FlatAct, AllocError>
    requires { Runs plan.now tables.now }
    ensures act { IfOk result (λ a. (pos : Position) → flat_act_of a ≡ act_in (scene plan.now tables.now) (label (counts at.old) pos tail) var (labelled_act (past (counts at.old) (act_of act.now)) tail (act_of act.now))) }
    ensures past { OnOk result (counts at.new ≡ past_arms (past (counts at.old) (act_of act.now)) (act_of act.now)) }
{
    let before = *at;
    *at = before.past(act)?;
    match act {
        Act::Const { lit } => Ok(FlatAct::Const { lit: *lit }),
        Act::Copy { from } => Ok(FlatAct::Copy {
            from: place_of(plan, tables, *from)?,
        }),
        Act::Prim { op, operands } => {
            prim(alloc, plan, tables, before.sites, *op, operands.as_slice())
        }
        Act::Call { operator, operands } => {
            let operands = operands.as_slice();
            call(alloc, plan, tables, tail, var, *operator, operands)
        }
        Act::Apply { operator, list } => apply(plan, tables, tail, var, *operator, *list),
        Act::CallCC { operator } => call_cc(plan, tables, tail, var, *operator),
        Act::If { test, yes, no } => {
            let second = plus(before.blocks, 1)?;
            let yes = arm(alloc, plan, tables, tail, before.blocks, at, yes)?;
            let no = arm(alloc, plan, tables, tail, second, at, no)?;
            choice(plan, tables, tail, *test, yes, no)
        }
        Act::Closure { proc } => closure(alloc, plan, tables, *proc),
        Act::Fix { procs } => fix(alloc, plan, tables, procs.as_slice()),
        Act::MakeBox { from } => Ok(FlatAct::MakeBox {
            from: place_of(plan, tables, *from)?,
            mark: mark_of(plan, before.sites),
        }),
        Act::MakeHole => Ok(FlatAct::MakeHole {
            mark: mark_of(plan, before.sites),
        }),
        Act::Unbox { boxed, checked } => Ok(FlatAct::Unbox {
            boxed: place_of(plan, tables, *boxed)?,
            checked: *checked,
        }),
        Act::SetBox { boxed, from } => set_box(plan, tables, *boxed, *from),
        Act::TopGet { top, checked } => Ok(FlatAct::TopGet {
            top: *top,
            checked: *checked,
        }),
        Act::TopSet { top, from, checked } => top_set(plan, tables, *top, *from, *checked),
        Act::TopDefine { top, from } => top_define(plan, tables, *top, *from),
    }
}

/// An arm of a conditional, the block of number `number`, if it is reached.
#[cycle(flatten)]
fn arm(
    alloc: Global,
    plan: &Plan,
    tables: &Tables,
    tail: bool,
    number: usize,
    at: &mut Counts,
    from: &Block,
) -> Result<Option<FlatBlock>, AllocError>
    requires { Runs plan.now tables.now }
    ensures code { IfOk result (λ block. arm_of (option_map flat_code_of block) ≡ arm_in (block_reached plan.now number) (flat_code (scene plan.now tables.now) (labelled (counts at.old) tail (code from.now)))) }
    ensures past { OnOk result (counts at.new ≡ past_code (counts at.old) (code from.now)) }
{
    if is_block_reached(plan, number) {
        Ok(Some(block(alloc, plan, tables, tail, at, from)?))
    } else {
        *at = past_block(*at, from)?;
        Ok(None)
    }
}
