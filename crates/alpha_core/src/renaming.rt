ghost use Rattle.std.specs.Prelude.{◌≡◌, ◌<◌, ◌^◌, [], length, IfOk, MatchResult};
ghost use Rattle.core_form.specs.declared.program.Var.{Var};
ghost use Rattle.core_form.specs.Trees.{Trees, Holds};
ghost use Rattle.core_form.specs.Valid.{all_bound};
ghost use Rattle.alpha_core.specs.Answers.{Answers, Refuses};
ghost use Rattle.alpha_core.specs.Renaming.{all_renamed};

use crate::copy::copy_lits;
use crate::deep::depth_of;
use crate::renamer::Renamer;
use core_form::{Core, Renamed};
use scheme_base::{Limit, LimitErr, LimitKind};
use std::alloc::{AllocError, Global};

/// The greatest depth that a core may have.
const MOST: u32 = 4000;

/// The renamed core: each local variable has a number of its own, in preorder where it is bound, and
/// nothing else is changed. An expression that stands at several places is renamed at each.
///
/// `Depth` is answered where the core is deeper than 4,000, with its depth.
pub fn rename(alloc: Global, core: &Core) -> Result<Renamed, LimitErr>
    ensures { MatchResult result (λ renamed. Answers core.now renamed) (λ error. Refuses core.now error) }
{
    let Ok(depth) = depth_of(alloc, core) else {
        return Err(LimitErr::NoMemory);
    };
    if depth > MOST as u64 {
        return Err(LimitErr::Limit(Limit {
            which: LimitKind::Depth,
            count: depth,
        }));
    }
    match renamed_core(alloc, core) {
        Ok(renamed) => Ok(renamed),
        Err(_) => Err(LimitErr::NoMemory),
    }
}

fn renamed_core(alloc: Global, core: &Core) -> Result<Renamed, AllocError>
    ensures forms { IfOk result (λ renamed. (forms : Trees Var) → Holds core.now forms → Holds renamed (all_renamed [] 0 forms)) }
    ensures lits { IfOk result (λ renamed. renamed.lits ≡ core.now.lits) }
    ensures few { IfOk result (λ renamed. (forms : Trees Var) → Holds core.now forms → length (all_bound forms) < 2 ^ 32) }
{
    let mut renamer = Renamer::new(alloc);
    let forms = renamer.rename_list(core, &core.forms, MOST)?;
    let _count = renamer.count();
    let lits = copy_lits(alloc, &core.lits)?;
    Ok(Renamed {
        exprs: renamer.exprs,
        forms,
        lits,
    })
}
