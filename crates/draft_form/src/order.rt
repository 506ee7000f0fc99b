//! The parts of an expression in the order of its text.

ghost use Rattle.std.specs.Prelude.{◌≡◌, ◌++◌, reverse, OnOk};
ghost use Rattle.draft_form.specs.Parts.{ids_in};

use crate::draft::Draft;
use core_form::What;
use std::alloc::AllocError;

/// Puts an expression's parts, the last first, behind others.
pub fn push_parts(draft: &Draft, to: &mut Vec<u32>) -> Result<(), AllocError>
    ensures { OnOk result (to.new.items ≡ to.old.items ++ reverse (ids_in draft.now.what)) }
{
    match &draft.what {
        What::Const(_) | What::Ref(_) => Ok(()),
        What::Lambda { body, .. } => push_reversed(&[*body], to),
        What::If { test, yes, no } => push_reversed(&[*test, *yes, *no], to),
        What::Set { value, .. } | What::Define { value, .. } => push_reversed(&[*value], to),
        What::Call { operator, operands } => {
            push_reversed(operands.as_slice(), to)?;
            push_reversed(&[*operator], to)
        }
        What::Prim { operands, .. } => push_reversed(operands.as_slice(), to),
        What::Seq { items } => push_reversed(items.as_slice(), to),
        What::Fix { lambdas, body, .. } => {
            push_reversed(&[*body], to)?;
            push_reversed(lambdas.as_slice(), to)
        }
    }
}

/// Puts numbers, the last first, behind others.
pub fn push_reversed(ids: &[u32], to: &mut Vec<u32>) -> Result<(), AllocError>
    ensures { OnOk result (to.new.items ≡ to.old.items ++ reverse ids.now) }
{
    let mut rest = ids;
    while let Some((last, others)) = rest.split_last() {
        to.push(*last)?;
        rest = others;
    }
    Ok(())
}
