//! The variables that the program's own block and its arms bind.

ghost use Rattle.std.specs.Prelude.{◌≡◌, ◌++◌, map, slice_get, IfOk, OnOk};
ghost use Rattle.named_form.specs.Code.{arms_bind, binds, bound_in, written_at};
ghost use Rattle.named_form.specs.Written.{act_of, code, procedure};
ghost use Rattle.slot_facts.specs.Choice.{own_vars};

use named_form::{Act, Block, Proc};
use scheme_base::{Ids, List};
use std::alloc::{AllocError, Global};

/// The variables that have a cell for good, if they have a place: the program's own, where nothing captures.
pub(crate) fn own_variables(
    alloc: Global,
    procs: &[Proc],
    capturing: &[u32],
) -> Result<Ids, AllocError>
    ensures { IfOk result (λ vars. vars ≡ own_vars (map procedure procs.now) capturing.now) }
{
    match capturing {
        [] => bound_variables(alloc, procs),
        _ => Ok(List::new(alloc)),
    }
}

/// The variables that procedure 0 binds.
fn bound_variables(alloc: Global, procs: &[Proc]) -> Result<Ids, AllocError>
    ensures { IfOk result (λ vars. vars ≡ bound_in (written_at (slice_get (map procedure procs.now) 0))) }
{
    let mut vars = List::new(alloc);
    if let Some(main) = procs.first() {
        vars.extend_from_slice(main.params.as_slice())?;
        if let Some(rest) = main.rest {
            vars.push(rest)?;
        }
        put_block(&mut vars, &main.body)?;
    }
    Ok(vars)
}

/// The variables that a block and its arms bind.
#[cycle(bound)]
fn put_block(vars: &mut Ids, block: &Block) -> Result<(), AllocError>
    ensures { OnOk result (vars.new ≡ vars.old ++ binds (code block.now)) }
{
    for step in block.steps.as_slice() {
        vars.extend_from_slice(step.vars.as_slice())?;
        put_arms(vars, &step.act)?;
    }
    Ok(())
}

/// The variables that a step's arms bind.
#[cycle(bound)]
fn put_arms(vars: &mut Ids, act: &Act) -> Result<(), AllocError>
    ensures { OnOk result (vars.new ≡ vars.old ++ arms_bind (act_of act.now)) }
{
    match act {
        Act::If { yes, no, .. } => {
            put_block(vars, yes)?;
            put_block(vars, no)
        }
        _ => Ok(()),
    }
}
