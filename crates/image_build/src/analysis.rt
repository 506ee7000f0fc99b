//! From the text of a program to what its expressions can be.

ghost use Rattle.std.specs.Prelude.{◌≤◌, IfOk, IfErr};
ghost use Rattle.image_build.specs.Emitted.{IsAnalysed, Unanalysed};

use crate::BuildErr;
use crate::front::{constraints_of, named_of};
use flow_form::Constraints;
use flow_workers::solve;
use named_form::Named;
use stalin_outside::Gate;
use std::alloc::{AllocGlobal, Global};
use std::thread::Threads;
use type_table::Closed;

/// The analysis of a program: its named form, the constraints on its rows, and their least solution, which says
/// for each row which atoms reach it. `flow_constraints` numbers rows and atoms.
#[derive(Drop)]
pub struct Analysis {
    pub named: Named,
    pub constraints: Constraints,
    /// The rows of the least solution, and the rounds that led to it.
    pub closed: Closed,
}

/// The analysis of the program that a text is, by so many workers, from 1 to 32. The rows are the same for every
/// number of them and every schedule.
pub fn analyse<R: AllocGlobal + Threads + Sync, G: Gate>(
    rt: &R,
    alloc: Global,
    source: &[u8],
    workers: u32,
    gate: &G,
) -> Result<Analysis, BuildErr>
    requires some { 1 ≤ workers }
    requires few { workers ≤ 32 }
    ensures analysed { IfOk result (IsAnalysed source.now) }
    ensures refused { IfErr result (λ error. Unanalysed source.now error) }
{
    let named = match named_of(alloc, source) {
        Ok(named) => named,
        Err(error) => return Err(error),
    };
    let constraints = match constraints_of(alloc, &named) {
        Ok(constraints) => constraints,
        Err(error) => return Err(error),
    };
    match solve(rt, &constraints, workers, gate) {
        Ok(closed) => Ok(Analysis {
            named,
            constraints,
            closed,
        }),
        Err(_) => Err(BuildErr::NoMemory),
    }
}
