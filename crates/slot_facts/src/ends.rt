//! The ends of a program's blocks.

ghost use Rattle.std.specs.Prelude.{◌≡◌, ◌++◌, map, IfOk, OnOk};
ghost use Rattle.flow_constraints.specs.Walk.{counts, inside};
ghost use Rattle.named_form.specs.Code.{first_sites, past, past_arms, past_code};
ghost use Rattle.named_form.specs.Written.{act_of, code, procedure};
ghost use Rattle.slot_facts.specs.Ends.{arm_ends, code_ends, ends_from};

use crate::marks::number_of;
use flow_constraints::{Counts, first_sites as sites_before};
use named_form::{Act, Block, Proc};
use scheme_base::List;
use std::alloc::{AllocError, Global};

/// The end of a block of a procedure, with the variable whose value is the block's.
#[derive(Clone, Copy, Debug, PartialEq, Eq)]
pub(crate) struct End {
    pub(crate) proc: u32,
    pub(crate) block: u32,
    pub(crate) value: Option<u32>,
}

/// The ends of the blocks of a program, those of an `If`'s arms before its own block's.
pub(crate) fn ends(alloc: Global, procs: &[Proc]) -> Result<List<End>, AllocError>
    ensures { IfOk result (λ ends. ends ≡ ends_from 0 (record { steps = 0; sites = first_sites (map procedure procs.now); blocks = 0 }) (map procedure procs.now)) }
{
    let mut ends = List::new(alloc);
    let mut before = Counts {
        steps: 0,
        sites: sites_before(procs)?,
        blocks: 0,
    };
    for number in 0..procs.len() {
        let proc = number_of(number)?;
        put_proc(&mut ends, &mut before, proc, &procs[number])?;
    }
    Ok(ends)
}

/// The ends of a procedure's blocks; `before` is what stands before it, and then what stands before the next.
fn put_proc(
    ends: &mut List<End>,
    before: &mut Counts,
    number: u32,
    proc: &Proc,
) -> Result<(), AllocError>
    ensures ends { OnOk result (ends.new ≡ ends.old ++ code_ends number (counts before.old).blocks (inside (counts before.old)) (code proc.now.body)) }
    ensures past { OnOk result (counts before.new ≡ past_code (inside (counts before.old)) (code proc.now.body)) }
{
    let block = before.blocks;
    *before = before.inside()?;
    put_block(ends, before, number, block, &proc.body)
}

/// The ends of a block's arms, and its own; `before` is what stands before it, and then what stands before its end.
#[cycle(ends)]
fn put_block(
    ends: &mut List<End>,
    before: &mut Counts,
    proc: u32,
    number: u32,
    block: &Block,
) -> Result<(), AllocError>
    ensures ends { OnOk result (ends.new ≡ ends.old ++ code_ends proc number (counts before.old) (code block.now)) }
    ensures past { OnOk result (counts before.new ≡ past_code (counts before.old) (code block.now)) }
{
    for step in block.steps.as_slice() {
        put_arms(ends, before, proc, &step.act)?;
    }
    ends.push(End {
        proc,
        block: number,
        value: block.value,
    })?;
    Ok(())
}

/// The ends of a step's arms; `before` is what stands before the step, and then what stands before the next.
#[cycle(ends)]
fn put_arms(
    ends: &mut List<End>,
    before: &mut Counts,
    proc: u32,
    act: &Act,
) -> Result<(), AllocError>
    ensures ends { OnOk result (ends.new ≡ ends.old ++ arm_ends proc (counts before.old).blocks (past (counts before.old) (act_of act.now)) (act_of act.now)) }
    ensures past { OnOk result (counts before.new ≡ past_arms (past (counts before.old) (act_of act.now)) (act_of act.now)) }
{
    let arm = before.blocks;
    *before = before.past(act)?;
    match act {
        Act::If { yes, no, .. } => {
            let other = arm.checked_add(1).ok_or(AllocError)?;
            put_block(ends, before, proc, arm, yes)?;
            put_block(ends, before, proc, other, no)
        }
        _ => Ok(()),
    }
}
