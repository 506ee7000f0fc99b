//! How many argument words a program has.

ghost use Rattle.std.specs.Prelude.{◌≡◌, map, max, IfOk};
ghost use Rattle.flat_form.specs.FlatWritten.{act as act_of, code as code_of, form, part as part_of};
ghost use Rattle.const_data.specs.Words.{arguments, arm_code, most_in, most_in_arm, most_in_parts, most_of};

use crate::offsets::count;
use flat_form::{Flat, FlatAct, FlatBlock, FlatPart};
use std::alloc::AllocError;

/// As many as the greatest operand count of a reached call in a reached procedure, and one at least.
pub(crate) fn argument_words(flat: &Flat) -> Result<u32, AllocError>
    ensures { IfOk result (λ words. words ≡ arguments (form flat.now)) }
{
    let mut most = 1;
    let mut left = flat.procs.as_slice();
    while let Some((proc, others)) = left.split_first() {
        most = larger(most, most_in_parts(proc.parts.as_slice())?);
        left = others;
    }
    Ok(most)
}

/// The greatest operand count of a reached call in the parts of a procedure.
fn most_in_parts(parts: &[FlatPart]) -> Result<u32, AllocError>
    ensures { IfOk result (λ most. most ≡ most_in_parts (map part_of parts.now)) }
{
    let mut most = 0;
    let mut left = parts;
    while let Some((part, others)) = left.split_first() {
        most = larger(most, most_operands(&part.body)?);
        left = others;
    }
    Ok(most)
}

/// The greatest operand count of a reached call in a block.
#[cycle(arguments)]
fn most_operands(block: &FlatBlock) -> Result<u32, AllocError>
    ensures { IfOk result (λ most. most ≡ most_in (code_of block.now)) }
{
    let mut most = 0;
    for step in block.steps.as_slice() {
        if step.reached {
            most = larger(most, operands_in(&step.act)?);
        }
    }
    Ok(most)
}

/// The greatest operand count of the calls that a step makes.
#[cycle(arguments)]
fn operands_in(act: &FlatAct) -> Result<u32, AllocError>
    ensures { IfOk result (λ most. most ≡ most_of (act_of act.now)) }
{
    match act {
        FlatAct::Call { operands, .. } => count(operands.len()),
        FlatAct::If { yes, no, .. } => {
            let this = in_arm(yes)?;
            let that = in_arm(no)?;
            Ok(larger(this, that))
        }
        _ => Ok(0),
    }
}

/// The greatest operand count of the calls in an arm.
#[cycle(arguments)]
fn in_arm(arm: &Option<FlatBlock>) -> Result<u32, AllocError>
    ensures { IfOk result (λ most. most ≡ most_in_arm (arm_code arm.now)) }
{
    match arm {
        Some(block) => most_operands(block),
        None => Ok(0),
    }
}

fn larger(a: u32, b: u32) -> u32
    ensures { result ≡ max a b }
{
    if a < b { b } else { a }
}
