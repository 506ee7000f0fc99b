//! The rules of steps, blocks and procedures, in their order.

ghost use Rattle.std.specs.Prelude.{◌≡◌, ◌+◌, ◌++◌, ◌∷◌, [], length, map, IfOk, OnOk};
ghost use Rattle.named_form.specs.Code.{past_arms, past, past_code, option_list, first_sites, single as first_var};
ghost use Rattle.named_form.specs.Written.{act_of, code, form, procedure};
ghost use Rattle.flow_constraints.specs.Rows.{number_at};
ghost use Rattle.flow_constraints.specs.Table.{apply_step_rules, box_rules, call_step_rules, callcc_step_rules, choice_rules, const_rules, operation_of, fix_rules, own_rules, set_rules, site_of, spot_of, value_rules};
ghost use Rattle.flow_constraints.specs.Walk.{counts, inside, put_arms as arms_put, put_code, put_lambda as lambda_put, put_procs};

use crate::Flow;
use crate::calls::{Site, put_apply, put_call, put_spine};
use crate::counts::Counts;
use crate::flow::{at, narrow, plus};
use crate::layout::{FIXED, single};
use crate::literals::put_held;
use crate::operations::{Operation, put_prim};
use crate::put::{ALWAYS, FALSE, Guard, REACHED, UNSPECIFIED, put_atom, put_row};
use flow_form::{Rules, Test};
use named_form::{Act, Block, Proc};
use scheme_base::Lit;
use std::alloc::{AllocError, Global};

/// The atom of closures of procedure 0, if it had any.
const CLOSURES: u32 = FIXED - 1;

/// A step in a block: the guard of its rules, the atom of what it makes, if it makes something, the number of
/// its first arm, if it has arms, and its variable with its row.
#[derive(Clone, Copy)]
pub(crate) struct Spot {
    pub(crate) guard: Guard,
    pub(crate) made: u32,
    pub(crate) arm: u32,
    pub(crate) var: u32,
    pub(crate) row: u32,
}

/// The rows of variables.
fn rows_of(alloc: Global, flow: &Flow, vars: &[u32]) -> Result<Vec<u32>, AllocError>
    ensures { IfOk result (λ rows. rows.items ≡ map (number_at flow.now.vars) vars.now) }
{
    vars.iter().map(|var| flow.var(*var)).collect(alloc)
}

/// The rule of a value that goes to a row, if there is a value.
fn put_value(
    flow: &Flow,
    rules: &mut Rules,
    guard: Guard,
    value: Option<u32>,
    to: u32,
) -> Result<(), AllocError>
    ensures { OnOk result (rules.new ≡ rules.old ++ value_rules flow.now guard value to) }
{
    match value {
        None => Ok(()),
        Some(var) => put_row(rules, guard, flow.var(var), to),
    }
}

/// The rules of an `If`: which arms are reached, and their values.
fn put_choice(
    flow: &Flow,
    rules: &mut Rules,
    spot: Spot,
    test: u32,
    yes: Option<u32>,
    no: Option<u32>,
) -> Result<(), AllocError>
    ensures { OnOk result (rules.new ≡ rules.old ++ choice_rules flow.now spot test yes no) }
{
    let guard = spot.guard;
    let first = flow.reach(spot.arm);
    let second = flow.reach(plus(spot.arm, 1)?);
    let row = flow.var(test);
    let other = Test::Other { row, atom: FALSE };
    put_atom(rules, guard.and(other), REACHED, first)?;
    put_atom(rules, guard.has(row, FALSE), REACHED, second)?;
    put_value(flow, rules, guard.has(first, REACHED), yes, spot.row)?;
    put_value(flow, rules, guard.has(second, REACHED), no, spot.row)
}

/// The rules of a `Fix`: to each variable the atom of its procedure.
fn put_fix(
    flow: &Flow,
    rules: &mut Rules,
    guard: Guard,
    vars: &[u32],
    procs: &[u32],
) -> Result<(), AllocError>
    ensures { OnOk result (rules.new ≡ rules.old ++ fix_rules flow.now guard vars.now procs.now) }
{
    let mut vars = vars;
    let mut procs = procs;
    while let Some((var, more)) = vars.split_first() {
        let Some((proc, others)) = procs.split_first() else {
            return Ok(());
        };
        put_atom(rules, guard, plus(CLOSURES, *proc)?, flow.var(*var))?;
        vars = more;
        procs = others;
    }
    Ok(())
}

/// A call of what a variable is bound to.
fn call_site(flow: &Flow, spot: Spot, operator: u32) -> Site
    ensures { result ≡ site_of flow.now spot operator }
{
    Site {
        guard: spot.guard,
        operator: flow.var(operator),
        value: spot.row,
    }
}

/// The rules of a `Call`.
fn put_call_step(
    alloc: Global,
    flow: &Flow,
    rules: &mut Rules,
    spot: Spot,
    operator: u32,
    operands: &[u32],
) -> Result<(), AllocError>
    ensures { OnOk result (rules.new ≡ rules.old ++ call_step_rules flow.now spot operator operands.now) }
{
    let rows = rows_of(alloc, flow, operands)?;
    put_call(
        flow,
        rules,
        call_site(flow, spot, operator),
        rows.as_slice(),
    )
}

/// The rules of an `Apply`.
fn put_apply_step(
    flow: &Flow,
    rules: &mut Rules,
    spot: Spot,
    operator: u32,
    list: u32,
) -> Result<(), AllocError>
    ensures { OnOk result (rules.new ≡ rules.old ++ apply_step_rules flow.now spot operator list) }
{
    let spine = flow.behind(spot.var, 1)?;
    let items = flow.behind(spot.var, 2)?;
    put_row(rules, spot.guard, flow.var(list), spine)?;
    put_spine(flow, rules, spot.guard, spine, items)?;
    put_apply(flow, rules, call_site(flow, spot, operator), items)
}

/// The rules of a `CallCC`.
fn put_callcc_step(
    flow: &Flow,
    rules: &mut Rules,
    spot: Spot,
    operator: u32,
) -> Result<(), AllocError>
    ensures { OnOk result (rules.new ≡ rules.old ++ callcc_step_rules flow.now spot operator) }
{
    let given = flow.behind(spot.var, 1)?;
    put_atom(rules, spot.guard, spot.made, given)?;
    put_call(flow, rules, call_site(flow, spot, operator), &[given])
}

/// The rules of a `MakeBox`.
fn put_box(flow: &Flow, rules: &mut Rules, spot: Spot, from: u32) -> Result<(), AllocError>
    ensures { OnOk result (rules.new ≡ rules.old ++ box_rules flow.now spot from) }
{
    put_atom(rules, spot.guard, spot.made, spot.row)?;
    put_row(rules, spot.guard, flow.var(from), flow.behind(spot.var, 1)?)
}

/// The rules of a `Const`.
fn put_const(
    alloc: Global,
    flow: &Flow,
    lits: &[Lit],
    rules: &mut Rules,
    spot: Spot,
    lit: u32,
) -> Result<(), AllocError>
    ensures { OnOk result (rules.new ≡ rules.old ++ const_rules flow.now lits.now spot lit) }
{
    put_atom(rules, spot.guard, at(&flow.lits, lit), spot.row)?;
    put_held(alloc, flow, lits, rules, lit)
}

/// The rules of an assignment to what a row is of.
fn put_set(flow: &Flow, rules: &mut Rules, spot: Spot, from: u32, to: u32) -> Result<(), AllocError>
    ensures { OnOk result (rules.new ≡ rules.old ++ set_rules flow.now spot from to) }
{
    put_row(rules, spot.guard, flow.var(from), to)?;
    put_atom(rules, spot.guard, UNSPECIFIED, spot.row)
}

/// The rules of a step, those of its arms' steps aside.
fn put_own(
    alloc: Global,
    flow: &Flow,
    lits: &[Lit],
    rules: &mut Rules,
    spot: Spot,
    vars: &[u32],
    act: &Act,
) -> Result<(), AllocError>
    ensures { OnOk result (rules.new ≡ rules.old ++ own_rules flow.now lits.now spot vars.now (act_of act.now)) }
{
    let guard = spot.guard;
    match act {
        Act::Const { lit } => put_const(alloc, flow, lits, rules, spot, *lit),
        Act::Copy { from } => put_row(rules, guard, flow.var(*from), spot.row),
        Act::Prim { op, operands } => {
            put_prim(flow, rules, operation_at(spot), *op, operands.as_slice())
        }
        Act::Call { operator, operands } => {
            put_call_step(alloc, flow, rules, spot, *operator, operands.as_slice())
        }
        Act::Apply { operator, list } => put_apply_step(flow, rules, spot, *operator, *list),
        Act::CallCC { operator } => put_callcc_step(flow, rules, spot, *operator),
        Act::If { test, yes, no } => { put_choice(flow, rules, spot, *test, yes.value, no.value) }
        Act::Closure { proc } => put_atom(rules, guard, plus(CLOSURES, *proc)?, spot.row),
        Act::Fix { procs } => put_fix(flow, rules, guard, vars, procs.as_slice()),
        Act::MakeBox { from } => put_box(flow, rules, spot, *from),
        Act::MakeHole => put_atom(rules, guard, spot.made, spot.row),
        Act::Unbox { boxed, .. } => put_row(rules, guard, flow.behind(*boxed, 1)?, spot.row),
        Act::SetBox { boxed, from } => {
            put_set(flow, rules, spot, *from, flow.behind(*boxed, 1)?)
        }
        Act::TopGet { top, .. } => put_row(rules, guard, *top, spot.row),
        Act::TopSet { top, from, .. } => put_set(flow, rules, spot, *from, *top),
        Act::TopDefine { top, from } => put_set(flow, rules, spot, *from, *top),
    }
}

/// An operation at a step.
fn operation_at(spot: Spot) -> Operation
    ensures { result ≡ operation_of spot }
{
    Operation {
        guard: spot.guard,
        made: spot.made,
        value: spot.row,
    }
}

/// Where a step stands that binds these variables, in a block whose rules have this guard.
fn spot_at(flow: &Flow, guard: Guard, before: Counts, vars: &[u32]) -> Result<Spot, AllocError>
    ensures { IfOk result (λ spot. spot ≡ spot_of flow.now guard before.sites before.blocks vars.now) }
{
    let var = single(vars);
    Ok(Spot {
        guard,
        made: plus(FIXED, before.sites)?,
        arm: before.blocks,
        var,
        row: flow.var(var),
    })
}

/// The rules of the steps of a block; `before` is what stands before it, and then what stands before its end.
#[cycle(put)]
fn put_block(
    alloc: Global,
    flow: &Flow,
    lits: &[Lit],
    rules: &mut Rules,
    before: &mut Counts,
    number: u32,
    block: &Block,
) -> Result<(), AllocError>
    ensures rules { OnOk result (rules.new ≡ rules.old ++ put_code flow.now lits.now (counts before.old) number (code block.now)) }
    ensures past { OnOk result (counts before.new ≡ past_code (counts before.old) (code block.now)) }
{
    let guard = Guard::reached(flow.reach(number));
    for step in block.steps.as_slice() {
        let vars = step.vars.as_slice();
        let spot = spot_at(flow, guard, *before, vars)?;
        put_own(alloc, flow, lits, rules, spot, vars, &step.act)?;
        put_arms(alloc, flow, lits, rules, before, &step.act)?;
    }
    Ok(())
}

/// The rules of the steps of a step's arms; `before` is what stands before the step, and then what stands
/// before the next.
#[cycle(put)]
fn put_arms(
    alloc: Global,
    flow: &Flow,
    lits: &[Lit],
    rules: &mut Rules,
    before: &mut Counts,
    act: &Act,
) -> Result<(), AllocError>
    ensures rules { OnOk result (rules.new ≡ rules.old ++ arms_put flow.now lits.now (past (counts before.old) (act_of act.now)) (counts before.old).blocks (act_of act.now)) }
    ensures past { OnOk result (counts before.new ≡ past_arms (past (counts before.old) (act_of act.now)) (act_of act.now)) }
{
    let arm = before.blocks;
    *before = before.past(act)?;
    match act {
        Act::If { yes, no, .. } => {
            put_block(alloc, flow, lits, rules, before, arm, yes)?;
            put_block(alloc, flow, lits, rules, before, plus(arm, 1)?, no)
        }
        _ => Ok(()),
    }
}

/// The rules of a procedure's body; `before` is what stands before the procedure, and then what stands before
/// the next.
fn put_body(
    alloc: Global,
    flow: &Flow,
    lits: &[Lit],
    rules: &mut Rules,
    before: &mut Counts,
    proc: &Proc,
) -> Result<(), AllocError>
    ensures rules { OnOk result (rules.new ≡ rules.old ++ put_code flow.now lits.now (inside (counts before.old)) (counts before.old).blocks (code proc.now.body)) }
    ensures past { OnOk result (counts before.new ≡ past_code (inside (counts before.old)) (code proc.now.body)) }
{
    let number = before.blocks;
    *before = before.inside()?;
    put_block(alloc, flow, lits, rules, before, number, &proc.body)
}

/// The rules of a procedure from 1 on: those of its body, then that of its result.
fn put_lambda(
    alloc: Global,
    flow: &Flow,
    lits: &[Lit],
    rules: &mut Rules,
    before: &mut Counts,
    proc: &Proc,
) -> Result<(), AllocError>
    ensures rules { OnOk result (rules.new ≡ rules.old ++ lambda_put flow.now lits.now (counts before.old) (procedure proc.now)) }
    ensures past { OnOk result (counts before.new ≡ past_code (inside (counts before.old)) (code proc.now.body)) }
{
    let reach = flow.reach(before.blocks);
    put_body(alloc, flow, lits, rules, before, proc)?;
    let result = plus(reach, 1)?;
    put_value(flow, rules, Guard::reached(reach), proc.body.value, result)
}

/// How many sites stand before the first step: the closures of the procedures from 1 on, and the rest lists.
pub fn first_sites(procs: &[Proc]) -> Result<u32, AllocError>
    ensures { IfOk result (λ sites. sites ≡ first_sites (map procedure procs.now)) }
{
    let mut lists = 0u32;
    for proc in procs {
        lists = plus(lists, has_rest(proc))?;
    }
    plus(narrow(procs.len().saturating_sub(1))?, lists)
}

/// How many rest lists a procedure has.
fn has_rest(proc: &Proc) -> u32
    ensures { result ≡ length (option_list proc.now.rest) }
{
    match proc.rest {
        Some(_) => 1,
        None => 0,
    }
}

/// The rules of a program: that its own block is reached, then those of the procedures in order.
pub(crate) fn put_all(
    alloc: Global,
    flow: &Flow,
    lits: &[Lit],
    rules: &mut Rules,
    procs: &[Proc],
) -> Result<(), AllocError>
    ensures { OnOk result (rules.new ≡ rules.old ++ put_procs flow.now lits.now (first_sites (map procedure procs.now)) (map procedure procs.now)) }
{
    let Some((main, lambdas)) = procs.split_first() else {
        return Ok(());
    };
    let mut before = Counts {
        steps: 0,
        sites: first_sites(procs)?,
        blocks: 0,
    };
    put_atom(rules, ALWAYS, REACHED, flow.reach(0))?;
    put_body(alloc, flow, lits, rules, &mut before, main)?;
    for proc in lambdas {
        put_lambda(alloc, flow, lits, rules, &mut before, proc)?;
    }
    Ok(())
}
