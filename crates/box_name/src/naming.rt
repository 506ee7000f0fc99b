ghost use Rattle.std.specs.Prelude.{◌≡◌, map, IfOk};
ghost use Rattle.core_form.specs.declared.program.VarRef.{VarRef as Ref};
ghost use Rattle.core_form.specs.Trees.{Trees, Holds};
ghost use Rattle.core_form.specs.Valid.{IsRenamed};
ghost use Rattle.named_form.specs.Valid.{Counted, WellFormed};
ghost use Rattle.named_form.specs.Written.{form, procedure};
ghost use Rattle.box_name.specs.Fitting.{KnowsProgram};
ghost use Rattle.box_name.specs.Procedures.{AreNamed, MakesForm};
ghost use Rattle.box_name.specs.Told.{all_told};
ghost use Rattle.box_name.specs.Whole.{named};

use crate::facts::Facts;
use crate::namer::Namer;
use alpha_core::copy_lits;
use core_form::Renamed;
use named_form::{Named, Procs};
use std::alloc::{AllocError, Global};

/// The greatest depth of a renamed core.
const MOST: u32 = 4000;

/// The named form of a renamed core. A core that is deeper than 4,000, one that binds a local variable at two
/// places and one that defines a local variable are refused as want of memory. So is one whose named form would have
/// 2^32 procedures or local variables: what is answered is well formed.
pub fn name(alloc: Global, core: &Renamed) -> Result<Named, AllocError>
    ensures is_named { IfOk result (λ made. (forms : Trees Ref) → Holds core.now forms → form made ≡ named (all_told core.now.lits forms) core.now.lits) }
    ensures well_formed { IfOk result (λ made. (forms : Trees Ref) → Holds core.now forms → IsRenamed core.now forms → WellFormed (form made)) }
{
    let facts = Facts::new(alloc, core, MOST)?;
    name_known(alloc, core, &facts)
}

/// The named form of a core of which this is known.
fn name_known<'a>(alloc: Global, core: &'a Renamed, facts: &Facts<'a>) -> Result<Named, AllocError>
    ensures { IfOk result (λ made. (forms : Trees Ref) → Holds core.now forms → KnowsProgram core.now facts.now (all_told core.now.lits forms) → MakesForm core.now forms made) }
{
    let tops = facts.tops()?;
    let procs = name_all(alloc, core, facts)?;
    let lits = copy_lits(alloc, &core.lits)?;
    Ok(Named { procs, tops, lits })
}

/// Its procedures. The program is procedure 0.
fn name_all<'a>(alloc: Global, core: &'a Renamed, facts: &Facts<'a>) -> Result<Procs, AllocError>
    ensures are_named { IfOk result (λ procs. (forms : Trees Ref) → Holds core.now forms → KnowsProgram core.now facts.now (all_told core.now.lits forms) → AreNamed procs (all_told core.now.lits forms)) }
    ensures counted { IfOk result (λ procs. (forms : Trees Ref) → Holds core.now forms → KnowsProgram core.now facts.now (all_told core.now.lits forms) → Counted (map procedure procs)) }
{
    let mut namer = Namer::new(alloc);
    let program = namer.name_program(core, facts, MOST)?;
    let mut procs = Procs::new(alloc);
    procs.push(program)?;
    namer.name_procedures(core, facts, MOST, &mut procs)?;
    Ok(procs)
}
