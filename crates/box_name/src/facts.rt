ghost use Rattle.std.specs.Prelude.{◌≡◌, suc, length, IfOk};
ghost use Rattle.core_form.specs.declared.program.VarRef.{VarRef as Ref};
ghost use Rattle.core_form.specs.Trees.{Tree, Trees, Holds, Stands};
ghost use Rattle.box_name.specs.Counts.{procs_in};
ghost use Rattle.box_name.specs.Fitting.{Fits, KnowsProgram};
ghost use Rattle.box_name.specs.Naming.{Setting};
ghost use Rattle.box_name.specs.Told.{told, all_told};

use crate::sure::Sure;
use crate::survey::Survey;
use alpha_core::Name;
use core_form::{Renamed, Var};
use std::alloc::{AllocError, Global};

/// What is known of a renamed core when its steps are made.
#[derive(Drop)]
pub(crate) struct Facts<'a> {
    pub(crate) survey: Survey<'a>,
    pub(crate) sure: Sure<'a>,
}

impl<'a> Facts<'a> {
    /// Looks at a core, whose depth is at most `deep`.
    pub(crate) fn new(alloc: Global, core: &'a Renamed, deep: u32) -> Result<Facts<'a>, AllocError>
        ensures { IfOk result (λ facts. (forms : Trees Ref) → Holds core.now forms → KnowsProgram core.now facts (all_told core.now.lits forms)) }
    {
        let sure = Sure::new(alloc, core)?;
        let survey = Survey::new(alloc, core, deep)?;
        Ok(Facts { survey, sure })
    }

    /// How many top-level variables there are.
    pub(crate) fn tops(&self) -> Result<u32, AllocError>
        ensures { IfOk result (λ tops. tops ≡ length self.now.survey.tops.keys) }
    {
        match u32::try_from(self.survey.tops.len()) {
            Ok(tops) => Ok(tops),
            Err(_) => Err(AllocError),
        }
    }
}

/// The form that an expression stands in, by its number, with what is known of its core.
#[derive(Clone, Copy)]
pub(crate) struct Stand<'a, 'f> {
    pub(crate) core: &'a Renamed,
    pub(crate) facts: &'f Facts<'a>,
    pub(crate) form: u32,
}

impl<'a, 'f> Stand<'a, 'f> {
    /// Whether a local variable is held in a box.
    pub(crate) fn is_boxed(&self, number: u32) -> bool
        ensures { (s : Setting) → Fits self.now s → result ≡ s.boxed number }
    {
        self.facts.survey.assigned.contains(&number) || self.is_hole(number)
    }

    /// Whether a local variable has no value at first.
    pub(crate) fn is_hole(&self, number: u32) -> bool
        ensures { (s : Setting) → Fits self.now s → result ≡ s.hole number }
    {
        self.facts.survey.holes.contains(&number)
    }

    /// The number of a top-level variable.
    pub(crate) fn top(&self, var: &'a Var) -> Result<u32, AllocError>
        ensures { IfOk result (λ top. (s : Setting) → Fits self.now s → top ≡ s.top var.now) }
    {
        let Some(top) = self.facts.survey.tops.get_index_of(&Name::of(var)) else {
            return Err(AllocError);
        };
        match u32::try_from(top) {
            Ok(top) => Ok(top),
            Err(_) => Err(AllocError),
        }
    }

    /// Whether a top-level variable may be undefined where the form meets it.
    pub(crate) fn is_checked(&self, var: &'a Var) -> bool
        ensures { (s : Setting) → Fits self.now s → result ≡ s.checked var.now }
    {
        !self.facts.sure.is_sure(Name::of(var), self.form)
    }

    /// How many procedures the body of a lambda expression has.
    pub(crate) fn inside(&self, lambda: u32) -> Result<u32, AllocError>
        ensures { IfOk result (λ inside. (s : Setting) → Fits self.now s → (e : Tree Ref) → Stands self.now.core.now.exprs lambda e → procs_in (told self.now.core.now.lits e) ≡ suc inside) }
    {
        match self.facts.survey.inside.get(&lambda) {
            Some(inside) => Ok(*inside),
            None => Err(AllocError),
        }
    }
}
