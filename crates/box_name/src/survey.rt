ghost use Rattle.std.specs.Prelude.{ℕ, ◌∷◌, [], if◌then◌else◌, List as Vars, Option, None, IfOk, OnOk};
ghost use Rattle.core_form.specs.declared.program.VarRef.{VarRef as Ref};
ghost use Rattle.core_form.specs.declared.program.Program.{Program as Core};
ghost use Rattle.core_form.specs.Trees.{Tree, Trees, Call, Holds, Lambda, Stands, StandAll};
ghost use Rattle.scheme_base.specs.declared.pos.Pos.{Pos as Position};
ghost use Rattle.box_name.specs.Finding.{Finds, FindsIn, FindsInAll, IsSurvey, SeesForms, local_of, top_of};
ghost use Rattle.box_name.specs.Told.{Direct as DirectCall, told, all_told, told_operands, number, numbers, top_name};
ghost use Rattle.box_name.specs.Whole.{unvalued};

use crate::direct::{Direct, direct_lambda, is_hole};
use alpha_core::Name;
use core_form::{Renamed, VarRef, What};
use indexmap::{IndexMap, IndexSet};
use scheme_base::{Ids, List};
use std::alloc::{AllocError, Global};

/// A lambda expression that becomes a procedure, and the number of the form that it stands in.
#[derive(Clone, Copy, Debug)]
pub(crate) struct Origin {
    pub(crate) expr: u32,
    pub(crate) form: u32,
}

/// What is known of a renamed core before its steps are made.
#[derive(Drop)]
pub(crate) struct Survey<'a> {
    /// The procedures from 1 on.
    pub(crate) procs: Vec<Origin>,
    /// For each lambda expression, by its number, how many procedures its body has.
    pub(crate) inside: IndexMap<u32, u32>,
    /// The local variables that something assigns.
    pub(crate) assigned: IndexSet<u32>,
    /// The local variables that are bound to the undefined value.
    pub(crate) holes: IndexSet<u32>,
    /// The top-level variables in the order of their first appearance.
    pub(crate) tops: IndexSet<Name<'a>>,
}

impl<'a> Survey<'a> {
    /// Looks at the forms of a core, whose depth is at most `deep`.
    pub(crate) fn new(alloc: Global, core: &'a Renamed, deep: u32) -> Result<Survey<'a>, AllocError>
        ensures { IfOk result (λ survey. (forms : Trees Ref) → Holds core.now forms → IsSurvey core.now survey (all_told core.now.lits forms)) }
    {
        let mut survey = Survey {
            procs: Vec::new(alloc),
            inside: IndexMap::new(alloc),
            assigned: IndexSet::new(alloc),
            holes: IndexSet::new(alloc),
            tops: IndexSet::new(alloc),
        };
        survey.survey_forms(core, deep)?;
        Ok(survey)
    }

    fn survey_forms(&mut self, core: &'a Renamed, deep: u32) -> Result<(), AllocError>
        ensures { OnOk result ((forms : Trees Ref) → Holds core.now forms → SeesForms core.now 0 self.old self.new (all_told core.now.lits forms)) }
    {
        let mut form: u32 = 0;
        let mut left = core.forms.as_slice();
        while let Some((expr, others)) = left.split_first() {
            self.survey_expr(core, *expr, form, deep)?;
            let Some(next) = form.checked_add(1) else {
                return Err(AllocError);
            };
            form = next;
            left = others;
        }
        Ok(())
    }

    #[cycle(survey)]
    fn survey_expr(
        &mut self,
        core: &'a Renamed,
        expr: u32,
        form: u32,
        deep: u32,
    ) -> Result<(), AllocError>
        ensures { OnOk result ((e : Tree Ref) → Stands core.now.exprs expr e → FindsIn core.now form self.old self.new (told core.now.lits e)) }
    {
        if deep == 0 {
            return Err(AllocError);
        }
        let deep = deep - 1;
        let Some(node) = core.exprs.get(expr as usize) else {
            return Err(AllocError);
        };
        match &node.what {
            What::Const(_) => Ok(()),
            What::Ref(var) => self.note_top(var),
            What::Lambda { body, .. } => {
                self.procs.push(Origin { expr, form })?;
                self.survey_body(core, expr, *body, form, deep)
            }
            What::If { test, yes, no } => {
                self.survey_expr(core, *test, form, deep)?;
                self.survey_expr(core, *yes, form, deep)?;
                self.survey_expr(core, *no, form, deep)
            }
            What::Set { var, value } => {
                self.note_assigned(var)?;
                self.survey_expr(core, *value, form, deep)
            }
            What::Call { operator, operands } => {
                self.survey_call(core, *operator, operands, form, deep)
            }
            What::Prim { operands, .. } => self.survey_list(core, operands, form, deep),
            What::Seq { items } => self.survey_list(core, items, form, deep),
            What::Fix { lambdas, body, .. } => {
                self.survey_list(core, lambdas, form, deep)?;
                self.survey_expr(core, *body, form, deep)
            }
            What::Define { var, value } => {
                self.note_defined(var)?;
                self.survey_expr(core, *value, form, deep)
            }
        }
    }

    /// Looks at the body of a lambda expression, and notes how many procedures it has.
    #[cycle(survey)]
    fn survey_body(
        &mut self,
        core: &'a Renamed,
        lambda: u32,
        body: u32,
        form: u32,
        deep: u32,
    ) -> Result<(), AllocError>
        ensures { OnOk result ((q : Position) (xs : Vars Ref) (r : Option Ref) (b : Tree Ref) → Stands core.now.exprs lambda (Lambda q xs r b) → Stands core.now.exprs body b → FindsIn core.now form self.old self.new (told core.now.lits b)) }
    {
        let before = self.procs.len();
        self.survey_expr(core, body, form, deep)?;
        let Some(inside) = self.procs.len().checked_sub(before) else {
            return Err(AllocError);
        };
        let Ok(inside) = u32::try_from(inside) else {
            return Err(AllocError);
        };
        self.inside.insert(lambda, inside)?;
        Ok(())
    }

    /// Looks at a call, whose operator may be bound in place.
    #[cycle(survey)]
    fn survey_call(
        &mut self,
        core: &'a Renamed,
        operator: u32,
        operands: &'a Ids,
        form: u32,
        deep: u32,
    ) -> Result<(), AllocError>
        ensures { OnOk result ((p : Position) (f : Tree Ref) (es : Trees Ref) → Stands core.now.exprs operator f → StandAll core.now.exprs operands.now es → FindsIn core.now form self.old self.new (told core.now.lits (Call p f es))) }
    {
        match direct_lambda(core, operator, operands.len()) {
            Some(lambda) => self.survey_direct(core, operator, lambda, operands, form, deep),
            None => {
                self.survey_expr(core, operator, form, deep)?;
                self.survey_list(core, operands, form, deep)
            }
        }
    }

    #[cycle(survey)]
    fn survey_direct(
        &mut self,
        core: &'a Renamed,
        operator: u32,
        lambda: Direct<'a>,
        operands: &'a Ids,
        form: u32,
        deep: u32,
    ) -> Result<(), AllocError>
        ensures { OnOk result ((p q : Position) (b : Tree Ref) (es : Trees Ref) → Stands core.now.exprs operator (Lambda q lambda.entry.params.now None b) → Stands core.now.exprs lambda.entry.body b → StandAll core.now.exprs operands.now es → FindsIn core.now form self.old self.new (DirectCall p (numbers lambda.entry.params.now) (told core.now.lits b) (told_operands core.now.lits es))) }
    {
        if deep == 0 {
            return Err(AllocError);
        }
        self.note_holes(core, lambda.params, operands)?;
        self.survey_body(core, operator, lambda.body, form, deep - 1)?;
        self.survey_list(core, operands, form, deep)
    }

    #[cycle(survey)]
    fn survey_list(
        &mut self,
        core: &'a Renamed,
        exprs: &'a Ids,
        form: u32,
        deep: u32,
    ) -> Result<(), AllocError>
        ensures { OnOk result ((es : Trees Ref) → StandAll core.now.exprs exprs.now es → FindsInAll core.now form self.old self.new (all_told core.now.lits es)) }
    {
        let mut left = exprs.as_slice();
        while let Some((expr, others)) = left.split_first() {
            self.survey_expr(core, *expr, form, deep)?;
            left = others;
        }
        Ok(())
    }

    /// Notes the parameters of a direct call that are bound to the undefined value.
    fn note_holes(
        &mut self,
        core: &'a Renamed,
        params: &'a List<VarRef>,
        operands: &'a Ids,
    ) -> Result<(), AllocError>
        ensures { OnOk result ((form : ℕ) (es : Trees Ref) → StandAll core.now.exprs operands.now es → Finds core.now form self.old self.new [] [] (unvalued (numbers params.now) (told_operands core.now.lits es)) []) }
    {
        let mut params = params.as_slice();
        let mut operands = operands.as_slice();
        while let Some((param, other_params)) = params.split_first() {
            let Some((operand, other_operands)) = operands.split_first() else {
                return Ok(());
            };
            self.note_operand(param, is_hole(core, *operand))?;
            params = other_params;
            operands = other_operands;
        }
        Ok(())
    }

    /// Notes a parameter, if its operand is the undefined value.
    fn note_operand(&mut self, param: &'a VarRef, hole: bool) -> Result<(), AllocError>
        ensures { OnOk result ((core : Core Ref) (form : ℕ) → Finds core form self.old self.new [] [] (if hole then number param.now ∷ [] else []) []) }
    {
        if hole { self.note_hole(param) } else { Ok(()) }
    }

    fn note_hole(&mut self, param: &'a VarRef) -> Result<(), AllocError>
        ensures { OnOk result ((core : Core Ref) (form : ℕ) → Finds core form self.old self.new [] [] (number param.now ∷ []) []) }
    {
        match param {
            VarRef::Local(number) => {
                self.holes.insert(*number)?;
                Ok(())
            }
            VarRef::Top(_) => Err(AllocError),
        }
    }

    fn note_top(&mut self, var: &'a VarRef) -> Result<(), AllocError>
        ensures { OnOk result ((core : Core Ref) (form : ℕ) → Finds core form self.old self.new [] [] [] (top_of var.now)) }
    {
        match var {
            VarRef::Local(_) => Ok(()),
            VarRef::Top(var) => {
                self.tops.insert(Name::of(var))?;
                Ok(())
            }
        }
    }

    /// Notes the variable of a definition, which is a top-level one.
    fn note_defined(&mut self, var: &'a VarRef) -> Result<(), AllocError>
        ensures { OnOk result ((core : Core Ref) (form : ℕ) → Finds core form self.old self.new [] [] [] (top_name var.now ∷ [])) }
    {
        match var {
            VarRef::Local(_) => Err(AllocError),
            VarRef::Top(var) => {
                self.tops.insert(Name::of(var))?;
                Ok(())
            }
        }
    }

    fn note_assigned(&mut self, var: &'a VarRef) -> Result<(), AllocError>
        ensures { OnOk result ((core : Core Ref) (form : ℕ) → Finds core form self.old self.new [] (local_of var.now) [] (top_of var.now)) }
    {
        match var {
            VarRef::Local(number) => {
                self.assigned.insert(*number)?;
                Ok(())
            }
            VarRef::Top(var) => {
                self.tops.insert(Name::of(var))?;
                Ok(())
            }
        }
    }
}
