//! How many steps, sites and blocks stand before a position of the program.

ghost use Rattle.std.specs.Prelude.{◌≡◌, ◌+◌, IfOk};
ghost use Rattle.named_form.specs.Code.{makes as makes_object, sites_of as sites_in, arms_of as arms_in, past, past_code, past_arms};
ghost use Rattle.named_form.specs.Written.{code};
ghost use Rattle.closure_conv.specs.StepTypes.{act_of};
ghost use Rattle.closure_conv.specs.Tables.{counts, next_block};

use named_form::{Act, Block};
use scheme_base::Op;
use std::alloc::AllocError;

/// How many steps, sites and blocks stand before a step. A step's own numbers are these.
#[derive(Clone, Copy, Debug)]
pub(crate) struct Counts {
    pub(crate) steps: usize,
    pub(crate) sites: usize,
    pub(crate) blocks: usize,
}

/// Whether an operation makes an object.
pub(crate) fn makes(op: Op) -> bool
    ensures { result ≡ makes_object op }
{
    matches!(
        op,
        Op::Cons | Op::MakeVector | Op::MakeString | Op::MakeSymbol
    )
}

/// How many sites a step is.
fn sites_of(act: &Act) -> usize
    ensures { result ≡ sites_in (act_of act.now) }
{
    match act {
        Act::Prim { op, .. } if makes(*op) => 1,
        Act::MakeBox { .. } | Act::MakeHole | Act::CallCC { .. } => 1,
        _ => 0,
    }
}

/// How many arms a step has.
fn arms_of(act: &Act) -> usize
    ensures { result ≡ arms_in (act_of act.now) }
{
    match act {
        Act::If { .. } => 2,
        _ => 0,
    }
}

/// The sum, which no program in memory is too large for.
pub(crate) fn plus(count: usize, more: usize) -> Result<usize, AllocError>
    ensures { IfOk result (λ sum. sum ≡ count + more) }
{
    count.checked_add(more).ok_or(AllocError)
}

impl Counts {
    /// Past a step itself, before its arms.
    pub(crate) fn past(self, act: &Act) -> Result<Counts, AllocError>
        ensures { IfOk result (λ c. counts c ≡ past (counts self) (act_of act.now)) }
    {
        Ok(Counts {
            steps: plus(self.steps, 1)?,
            sites: plus(self.sites, sites_of(act))?,
            blocks: plus(self.blocks, arms_of(act))?,
        })
    }

    /// Past the number of the block that begins.
    pub(crate) fn inside(self) -> Result<Counts, AllocError>
        ensures { IfOk result (λ c. counts c ≡ next_block (counts self)) }
    {
        Ok(Counts {
            steps: self.steps,
            sites: self.sites,
            blocks: plus(self.blocks, 1)?,
        })
    }
}

/// Past a block and all that stands in it.
#[cycle(past)]
pub(crate) fn past_block(at: Counts, block: &Block) -> Result<Counts, AllocError>
    ensures { IfOk result (λ c. counts c ≡ past_code (counts at) (code block.now)) }
{
    let mut at = at;
    for step in block.steps.as_slice() {
        at = past_step(at, &step.act)?;
    }
    Ok(at)
}

/// Past a step and all that stands in its arms.
#[cycle(past)]
fn past_step(at: Counts, act: &Act) -> Result<Counts, AllocError>
    ensures { IfOk result (λ c. counts c ≡ past_arms (past (counts at) (act_of act.now)) (act_of act.now)) }
{
    let past = at.past(act)?;
    match act {
        Act::If { yes, no, .. } => {
            let between = past_block(past, yes)?;
            past_block(between, no)
        }
        _ => Ok(past),
    }
}
