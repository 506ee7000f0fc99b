//! How many steps, sites, blocks and variables a program has, and which of its calls are no tail calls.

ghost use Rattle.std.specs.Prelude.{◌≡◌, ◌+◌, ◌++◌, [], false, if◌then◌else◌, length, map, IfOk, OnOk};
ghost use Rattle.scheme_base.specs.declared.pos.Pos.{Pos};
ghost use Rattle.named_form.specs.Code.{Ends, arms_of, ends_with, is_call, is_callcc, makes, option_list, sites_of};
ghost use Rattle.named_form.specs.PlainPlan.{waits};
ghost use Rattle.named_form.specs.Tallies.{met_arms, met_code, met_proc, met_step, started};
ghost use Rattle.named_form.specs.Written.{act_of, all_onto, code, onto, procedure};

use crate::{Act, Block, Proc, Step};
use scheme_base::{Ids, List, Op};
use std::alloc::{AllocError, Global};

/// What a walk over a program has met so far: how many steps, sites, blocks and variables, the variables of
/// the calls that are no tail calls, and whether a step captures a continuation.
#[derive(Drop)]
pub(crate) struct Tally {
    pub(crate) steps: usize,
    pub(crate) sites: usize,
    pub(crate) blocks: usize,
    pub(crate) vars: usize,
    pub(crate) recording: Ids,
    pub(crate) captures: bool,
}

/// A sum, where it fits. What is counted is in memory, so it does.
fn add(count: usize, more: usize) -> Result<usize, AllocError>
    ensures { IfOk result (λ sum. sum ≡ count + more) }
{
    count.checked_add(more).ok_or(AllocError)
}

impl Tally {
    /// Nothing is met, and `sites` closures of procedures have sites.
    pub(crate) fn new(alloc: Global, sites: usize) -> Tally
        ensures { result ≡ started sites }
    {
        Tally {
            steps: 0,
            sites,
            blocks: 0,
            vars: 0,
            recording: List::new(alloc),
            captures: false,
        }
    }

    /// Meets a procedure.
    pub(crate) fn meet_proc(&mut self, proc: &Proc) -> Result<(), AllocError>
        ensures { OnOk result (self.new ≡ met_proc (procedure proc.now) self.old) }
    {
        let rest = has_rest(proc);
        let bound = add(proc.params.len(), rest)?;
        self.sites = add(self.sites, rest)?;
        self.blocks = add(self.blocks, 1)?;
        self.vars = add(self.vars, bound)?;
        meet_block(self, &proc.body, true)
    }

    /// Meets a step, its arms aside.
    fn meet_step(&mut self, act: &Act, vars: &[u32], tail: bool) -> Result<(), AllocError>
        ensures { OnOk result (self.new ≡ met_step tail vars.now (act_of act.now) self.old) }
    {
        self.steps = add(self.steps, 1)?;
        self.sites = add(self.sites, sites_of(act))?;
        self.blocks = add(self.blocks, arms_of(act))?;
        self.vars = add(self.vars, vars.len())?;
        self.captures = self.captures || is_callcc(act);
        self.meet_call(act, vars, tail)
    }

    /// Notes the variable of a call that is no tail call.
    fn meet_call(&mut self, act: &Act, vars: &[u32], tail: bool) -> Result<(), AllocError>
        ensures { OnOk result (self.new ≡ record self.old { recording = self.old.recording ++ waits tail vars.now (act_of act.now) }) }
    {
        match vars.first() {
            Some(var) if is_call(act) && !tail => self.recording.push(*var),
            _ => Ok(()),
        }
    }
}

/// How many rest lists a procedure has.
fn has_rest(proc: &Proc) -> usize
    ensures { result ≡ length (option_list proc.now.rest) }
{
    match proc.rest {
        Some(_) => 1,
        None => 0,
    }
}

/// How many sites a step is.
fn sites_of(act: &Act) -> usize
    ensures { result ≡ sites_of (act_of act.now) }
{
    match act {
        Act::Prim { op, .. } => makes(*op),
        Act::MakeBox { .. } | Act::MakeHole | Act::CallCC { .. } => 1,
        _ => 0,
    }
}

/// How many objects an operation makes.
fn makes(op: Op) -> usize
    ensures { result ≡ (if makes op then 1 else 0) }
{
    match op {
        Op::Cons | Op::MakeVector | Op::MakeString | Op::MakeSymbol => 1,
        _ => 0,
    }
}

/// How many arms a step has.
fn arms_of(act: &Act) -> usize
    ensures { result ≡ arms_of (act_of act.now) }
{
    match act {
        Act::If { .. } => 2,
        _ => 0,
    }
}

fn is_callcc(act: &Act) -> bool
    ensures { result ≡ is_callcc (act_of act.now) }
{
    matches!(act, Act::CallCC { .. })
}

fn is_call(act: &Act) -> bool
    ensures { result ≡ is_call (act_of act.now) }
{
    matches!(
        act,
        Act::Call { .. } | Act::Apply { .. } | Act::CallCC { .. }
    )
}

/// Whether a block ends before these steps, and its value is that of the first of these variables.
fn ends_with(steps: &[Step], value: Option<u32>, vars: &[u32]) -> bool
    ensures { result ≡ ends_with (all_onto (map onto steps.now) (Ends value)) vars.now }
{
    steps.is_empty() && gives(value, vars)
}

/// Whether a block's value is that of the first of these variables.
fn gives(value: Option<u32>, vars: &[u32]) -> bool
    ensures { result ≡ ends_with {L = Pos} (Ends value) vars.now }
{
    match (value, vars) {
        (Some(value), [var, ..]) => *var == value,
        _ => false,
    }
}

/// Meets the steps of a block, which is in tail position or not.
#[cycle(tally)]
fn meet_block(tally: &mut Tally, block: &Block, tail: bool) -> Result<(), AllocError>
    ensures { OnOk result (tally.new ≡ met_code tail (code block.now) tally.old) }
{
    let steps = block.steps.as_slice();
    for (at, step) in steps.iter().enumerate() {
        let vars = step.vars.as_slice();
        let last = tail && ends_with(&steps[at + 1..], block.value, vars);
        tally.meet_step(&step.act, vars, last)?;
        meet_arms(tally, &step.act, last)?;
    }
    Ok(())
}

/// Meets the arms of a step, which is in tail position or not.
#[cycle(tally)]
fn meet_arms(tally: &mut Tally, act: &Act, tail: bool) -> Result<(), AllocError>
    ensures { OnOk result (tally.new ≡ met_arms tail (act_of act.now) tally.old) }
{
    match act {
        Act::If { yes, no, .. } => {
            meet_block(tally, yes, tail)?;
            meet_block(tally, no, tail)
        }
        _ => Ok(()),
    }
}
