//! How many rules a program has, counted before one is made. A count is 2^64 - 1 where there are more.

ghost use Rattle.std.specs.Prelude.{◌≡◌, ◌+◌, ◌<◌, length, map, vec_len, IfOk, OnOk};
ghost use Rattle.named_form.specs.Written.{act_of, code, procedure};
ghost use Rattle.flow_constraints.specs.declared.flow.Flow.{Flow as Facts};
ghost use Rattle.flow_constraints.specs.Census.{cut};
ghost use Rattle.flow_constraints.specs.Counting.{Remembers, applied_count, apply_count, applying_count, arms_count, call_count, code_count, enter_count, entering_count, holding_count, lambdas_count, list_count, own_count, procs_count, value_count};

use crate::calls::takes;
use crate::literals::parts_under;
use crate::operations::results;
use crate::{Entry, Flow};
use named_form::{Act, Block, Proc};
use scheme_base::{Lit, Op};
use std::alloc::{AllocError, Global};

/// How many rules have been counted; and for each count of operands that a call has had so far, how many rules
/// enter the procedures that take it.
#[derive(Drop)]
pub(crate) struct Tally {
    pub(crate) rules: u64,
    pub(crate) entering: Vec<Option<u64>>,
}

/// How many rules the list of so many operands past the parameters has.
fn list_rules(past: usize) -> u64
    ensures { result ≡ list_count past }
{
    match past {
        0 => 1,
        1 => 2,
        _ => 3,
    }
}

/// How many rules a block's value has.
fn value_rules(value: Option<u32>) -> u64
    ensures { result ≡ value_count value }
{
    match value {
        None => 0,
        Some(_) => 1,
    }
}

/// How many rules a call of so many operands has for a procedure.
fn enter_rules(entry: &Entry, operands: usize) -> u64
    ensures { result ≡ cut (enter_count operands entry.now) }
{
    if !takes(entry, operands) {
        return 0;
    }
    let plain = (operands as u64).saturating_add(2);
    match entry.rest {
        None => plain,
        Some(_) => plain.saturating_add(list_rules(operands.saturating_sub(entry.params.len()))),
    }
}

/// How many rules a call of so many operands has for all procedures.
fn entering_all(flow: &Flow, operands: usize) -> u64
    ensures { result ≡ cut (entering_count operands flow.now.entries) }
{
    let mut rules = 0u64;
    for entry in flow.entries.as_slice() {
        rules = rules.saturating_add(enter_rules(entry, operands));
    }
    rules
}

/// How many rules an `Apply` has for a procedure.
fn applied(entry: &Entry) -> u64
    ensures { result ≡ cut (applied_count entry.now) }
{
    let plain = (entry.params.len() as u64).saturating_add(2);
    match entry.rest {
        None => plain,
        Some(_) => plain.saturating_add(5),
    }
}

/// How many rules an `Apply` has for all procedures.
fn applying(flow: &Flow) -> u64
    ensures { result ≡ cut (applying_count flow.now.entries) }
{
    let mut rules = 0u64;
    for entry in flow.entries.as_slice() {
        rules = rules.saturating_add(applied(entry));
    }
    rules
}

/// How many rules an operation has that makes, reads or writes what has contents.
fn holding(flow: &Flow, op: Op) -> u64
    ensures { result ≡ cut (holding_count flow.now op) }
{
    match op {
        Op::Cons => 3,
        Op::MakeVector | Op::MakeSymbol => 2,
        Op::MakeString => 1,
        Op::Car | Op::Cdr => flow.pairs.len() as u64,
        Op::VectorRef => flow.vectors.len() as u64,
        Op::SymbolName => (flow.symbols.len() as u64).saturating_add(1),
        Op::SetCar | Op::SetCdr => flow.fresh_pairs.len() as u64,
        Op::VectorSet => flow.fresh_vectors.len() as u64,
        _ => 0,
    }
}

impl Tally {
    /// Nothing is counted.
    fn new(alloc: Global) -> Tally
        ensures rules { result.rules ≡ 0 }
        ensures nothing { (flow : Facts) → Remembers flow result }
    {
        Tally {
            rules: 0,
            entering: Vec::new(alloc),
        }
    }

    /// How many rules have been counted, which 64 bits hold.
    fn count(&self) -> u64
        ensures { result ≡ cut self.now.rules }
    {
        self.rules
    }

    /// Counts rules.
    fn add(&mut self, rules: u64)
        ensures { self.new ≡ record self.old { rules = cut (self.old.rules + rules) } }
    {
        self.rules = self.rules.saturating_add(rules);
    }

    /// Makes room for what is remembered of so many operands.
    fn make_room(&mut self, operands: usize) -> Result<(), AllocError>
        ensures rules { self.new.rules ≡ self.old.rules }
        ensures remembers { (flow : Facts) → Remembers flow self.old → Remembers flow self.new }
        ensures room { OnOk result (operands < vec_len self.new.entering) }
    {
        while self.entering.len() <= operands {
            self.entering.push(None)?;
        }
        Ok(())
    }

    /// How many rules a call of so many operands has for all procedures: each count of operands is counted once.
    fn entering(&mut self, flow: &Flow, operands: usize) -> Result<u64, AllocError>
        requires { Remembers flow.now self.old }
        ensures counted { IfOk result (λ rules. rules ≡ cut (entering_count operands flow.now.entries)) }
        ensures remembers { OnOk result (Remembers flow.now self.new) }
        ensures rules { self.new.rules ≡ self.old.rules }
    {
        self.make_room(operands)?;
        if let Some(rules) = self.entering[operands] {
            return Ok(rules);
        }
        let rules = entering_all(flow, operands);
        self.entering[operands] = Some(rules);
        Ok(rules)
    }

    /// Counts a call of so many operands.
    fn meet_call(&mut self, flow: &Flow, operands: usize) -> Result<(), AllocError>
        requires { Remembers flow.now self.old }
        ensures rules { OnOk result (self.new.rules ≡ cut (self.old.rules + call_count flow.now operands)) }
        ensures remembers { OnOk result (Remembers flow.now self.new) }
    {
        let rules = self.entering(flow, operands)?;
        self.add(rules);
        if operands == 1 {
            self.add(flow.continuations.len() as u64);
        }
        Ok(())
    }

    /// Counts an `Apply`.
    fn meet_apply(&mut self, flow: &Flow)
        ensures { self.new ≡ record self.old { rules = cut (self.old.rules + apply_count flow.now) } }
    {
        self.add(1);
        self.add(flow.pairs.len() as u64);
        self.add(flow.pairs.len() as u64);
        self.add(applying(flow));
        self.add(flow.continuations.len() as u64);
    }

    /// Counts the rule of a block's value.
    fn meet_value(&mut self, value: Option<u32>)
        ensures { self.new ≡ record self.old { rules = cut (self.old.rules + value_count value) } }
    {
        self.add(value_rules(value));
    }

    /// Counts the rules of a step, those of its arms' steps aside.
    fn meet(
        &mut self,
        alloc: Global,
        flow: &Flow,
        lits: &[Lit],
        vars: usize,
        act: &Act,
    ) -> Result<(), AllocError>
        requires { Remembers flow.now self.old }
        ensures rules { OnOk result (self.new.rules ≡ cut (self.old.rules + own_count flow.now lits.now vars (act_of act.now))) }
        ensures remembers { OnOk result (Remembers flow.now self.new) }
    {
        match act {
            Act::Const { lit } => {
                let parts = parts_under(alloc, flow, lits, *lit)?;
                self.add(1);
                self.add(parts.len() as u64);
                Ok(())
            }
            Act::Prim { op, .. } => {
                self.add(results(*op).len() as u64);
                self.add(holding(flow, *op));
                Ok(())
            }
            Act::Call { operands, .. } => self.meet_call(flow, operands.len()),
            Act::Apply { .. } => {
                self.meet_apply(flow);
                Ok(())
            }
            Act::CallCC { .. } => {
                self.add(1);
                self.meet_call(flow, 1)
            }
            Act::If { yes, no, .. } => {
                self.add(2);
                self.meet_value(yes.value);
                self.meet_value(no.value);
                Ok(())
            }
            Act::Fix { procs } => {
                self.add(vars.min(procs.len()) as u64);
                Ok(())
            }
            Act::MakeBox { .. } | Act::SetBox { .. } | Act::TopSet { .. } | Act::TopDefine { .. } =>
                {
                    self.add(2);
                    Ok(())
                }
            _ => {
                self.add(1);
                Ok(())
            }
        }
    }
}

/// Counts the rules of the steps of a block.
#[cycle(tally)]
fn meet_block(
    tally: &mut Tally,
    alloc: Global,
    flow: &Flow,
    lits: &[Lit],
    block: &Block,
) -> Result<(), AllocError>
    requires { Remembers flow.now tally.old }
    ensures rules { OnOk result (cut tally.new.rules ≡ cut (tally.old.rules + code_count flow.now lits.now (code block.now))) }
    ensures remembers { OnOk result (Remembers flow.now tally.new) }
{
    for step in block.steps.as_slice() {
        tally.meet(alloc, flow, lits, step.vars.len(), &step.act)?;
        meet_arms(tally, alloc, flow, lits, &step.act)?;
    }
    Ok(())
}

/// Counts the rules of the steps of a step's arms.
#[cycle(tally)]
fn meet_arms(
    tally: &mut Tally,
    alloc: Global,
    flow: &Flow,
    lits: &[Lit],
    act: &Act,
) -> Result<(), AllocError>
    requires { Remembers flow.now tally.old }
    ensures rules { OnOk result (cut tally.new.rules ≡ cut (tally.old.rules + arms_count flow.now lits.now (act_of act.now))) }
    ensures remembers { OnOk result (Remembers flow.now tally.new) }
{
    match act {
        Act::If { yes, no, .. } => {
            meet_block(tally, alloc, flow, lits, yes)?;
            meet_block(tally, alloc, flow, lits, no)
        }
        _ => Ok(()),
    }
}

/// How many rules a program has.
pub(crate) fn count_rules(
    alloc: Global,
    flow: &Flow,
    lits: &[Lit],
    procs: &[Proc],
) -> Result<u64, AllocError>
    ensures { IfOk result (λ count. count ≡ cut (procs_count flow.now lits.now (map procedure procs.now))) }
{
    let Some((main, lambdas)) = procs.split_first() else {
        return Ok(0);
    };
    let mut tally = Tally::new(alloc);
    tally.add(1);
    meet_block(&mut tally, alloc, flow, lits, &main.body)?;
    meet_lambdas(&mut tally, alloc, flow, lits, lambdas)?;
    Ok(tally.count())
}

/// Counts the rules of the procedures from 1 on.
fn meet_lambdas(
    tally: &mut Tally,
    alloc: Global,
    flow: &Flow,
    lits: &[Lit],
    lambdas: &[Proc],
) -> Result<(), AllocError>
    requires { Remembers flow.now tally.old }
    ensures rules { OnOk result (cut tally.new.rules ≡ cut (tally.old.rules + lambdas_count flow.now lits.now (map procedure lambdas.now))) }
    ensures remembers { OnOk result (Remembers flow.now tally.new) }
{
    for proc in lambdas {
        meet_block(tally, alloc, flow, lits, &proc.body)?;
        tally.meet_value(proc.body.value);
    }
    Ok(())
}
