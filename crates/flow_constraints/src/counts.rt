//! How many steps, sites and blocks stand before a position of the program.

ghost use Rattle.std.specs.Prelude.{◌≡◌, IfOk, if◌then◌else◌};
ghost use Rattle.named_form.specs.Code.{arms_of as arms_in, makes as makes_object, past, sites_of as sites_in};
ghost use Rattle.named_form.specs.Written.{act_of};
ghost use Rattle.flow_constraints.specs.Walk.{counts, inside};

use crate::flow::plus;
use named_form::Act;
use scheme_base::Op;
use std::alloc::AllocError;

/// How many steps, sites and blocks stand before a step. A step's own numbers are these.
#[derive(Clone, Copy, Debug)]
pub struct Counts {
    pub steps: u32,
    pub sites: u32,
    pub blocks: u32,
}

/// How many objects an operation makes.
fn makes(op: Op) -> u32
    ensures { result ≡ (if makes_object op then 1 else 0) }
{
    match op {
        Op::Cons | Op::MakeVector | Op::MakeString | Op::MakeSymbol => 1,
        _ => 0,
    }
}

/// How many sites a step is.
pub(crate) fn sites_of(act: &Act) -> u32
    ensures { result ≡ sites_in (act_of act.now) }
{
    match act {
        Act::Prim { op, .. } => makes(*op),
        Act::MakeBox { .. } | Act::MakeHole | Act::CallCC { .. } => 1,
        _ => 0,
    }
}

/// How many arms a step has.
fn arms_of(act: &Act) -> u32
    ensures { result ≡ arms_in (act_of act.now) }
{
    match act {
        Act::If { .. } => 2,
        _ => 0,
    }
}

impl Counts {
    /// Past a step itself, before its arms.
    pub fn past(self, act: &Act) -> Result<Counts, AllocError>
        ensures { IfOk result (λ c. counts c ≡ past (counts self) (act_of act.now)) }
    {
        Ok(Counts {
            steps: plus(self.steps, 1)?,
            sites: plus(self.sites, sites_of(act))?,
            blocks: plus(self.blocks, arms_of(act))?,
        })
    }

    /// Past the number of the block that begins.
    pub fn inside(self) -> Result<Counts, AllocError>
        ensures { IfOk result (λ c. counts c ≡ inside (counts self)) }
    {
        Ok(Counts {
            steps: self.steps,
            sites: self.sites,
            blocks: plus(self.blocks, 1)?,
        })
    }
}
