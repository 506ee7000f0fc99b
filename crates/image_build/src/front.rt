//! From the text of a program to its named form and its constraints.

ghost use Rattle.std.specs.Prelude.{ℕ, List, IfOk, IfErr};
ghost use Rattle.datum_form.specs.Data.{Items};
ghost use Rattle.datum_form.specs.Stands.{Holds};
ghost use Rattle.datum_reader.specs.Answer.{Reads};
ghost use Rattle.scheme_expand.specs.Programs.{Expands};
ghost use Rattle.image_build.specs.Emitted.{IsLater, IsNamed, IsRuled, PassesEarly, Unanalysed};

use crate::BuildErr;
use crate::error::{form_error, limit_error, read_error};
use alpha_core::rename;
use box_name::name;
use core_form::Core;
use datum_form::Datums;
use datum_reader::read_program;
use flow_constraints::generate;
use flow_form::Constraints;
use named_form::Named;
use scheme_expand::{expand, known_types};
use std::alloc::Global;

/// The named form of the program that a text is.
pub(crate) fn named_of(alloc: Global, source: &[u8]) -> Result<Named, BuildErr>
    ensures is_named { IfOk result (IsNamed source.now) }
    ensures refused { IfErr result (λ error. Unanalysed source.now error) }
{
    let data = match read_program(alloc, source) {
        Ok(data) => data,
        Err(error) => return Err(read_error(error)),
    };
    named_data(alloc, &data)
}

/// The named form of the program that the data of a text are.
fn named_data(alloc: Global, datums: &Datums) -> Result<Named, BuildErr>
    ensures is_named { (source : List ℕ) (ds : Items) → Reads source ds → Holds datums.now ds → IfOk result (IsNamed source) }
    ensures refused { (source : List ℕ) (ds : Items) → Reads source ds → Holds datums.now ds → IfErr result (λ error. Unanalysed source error) }
{
    let core = match expand(alloc, datums) {
        Ok(core) => core,
        Err(error) => return Err(form_error(error)),
    };
    named_core(alloc, &core)
}

/// The named form of the core that the data of a text are expanded to.
fn named_core(alloc: Global, core: &Core) -> Result<Named, BuildErr>
    ensures is_named { (source : List ℕ) (ds : Items) → Reads source ds → Expands ds core.now → IfOk result (IsNamed source) }
    ensures refused { (source : List ℕ) (ds : Items) → Reads source ds → Expands ds core.now → IfErr result (IsLater (PassesEarly source)) }
{
    known_types(core);
    let renamed = match rename(alloc, core) {
        Ok(renamed) => renamed,
        Err(error) => return Err(limit_error(error)),
    };
    match name(alloc, &renamed) {
        Ok(named) => Ok(named),
        Err(_) => Err(BuildErr::NoMemory),
    }
}

/// The constraints of the program that a text is.
pub(crate) fn constraints_of(alloc: Global, named: &Named) -> Result<Constraints, BuildErr>
    ensures ruled { IfOk result (IsRuled named.now) }
    ensures refused { (source : List ℕ) → IsNamed source named.now → IfErr result (IsLater (PassesEarly source)) }
{
    match generate(alloc, named) {
        Ok(constraints) => Ok(constraints),
        Err(error) => Err(limit_error(error)),
    }
}
