ghost use Rattle.std.specs.Prelude.{◌≡◌, ℕ, List, [], ◌∷◌, length, Some, IfOk, OnOk};
ghost use Rattle.core_form.specs.declared.program.VarRef.{VarRef as Ref};
ghost use Rattle.core_form.specs.Trees.{Tree, Trees, Holds, Stands};
ghost use Rattle.named_form.specs.Valid.{numbers_from};
ghost use Rattle.box_name.specs.Counts.{all_params};
ghost use Rattle.box_name.specs.Fitting.{Fits, KnowsAll};
ghost use Rattle.box_name.specs.Finding.{ArePlaced};
ghost use Rattle.box_name.specs.Naming.{Setting, rest_var};
ghost use Rattle.box_name.specs.Procedures.{NamesForms, NamesProc, NamesProcs, NamesProgram, NumbersFit, SettlesAll, TakesRest, TakesVars};
ghost use Rattle.box_name.specs.Told.{Expr, Exprs, told, all_told, number, numbers, option_number};

use crate::facts::{Facts, Stand};
use crate::namer::Namer;
use crate::survey::Origin;
use core_form::{Renamed, VarRef, What};
use named_form::{Block, Proc, Procs, Step};
use scheme_base::{Ids, List, Pos};
use sqlite_items::Items;
use std::alloc::AllocError;

impl Namer {
    /// Makes procedure 0, whose steps are those of the program's forms.
    pub(crate) fn name_program<'a, 'f>(
        &mut self,
        core: &'a Renamed,
        facts: &'f Facts<'a>,
        deep: u32,
    ) -> Result<Proc, AllocError>
        ensures { IfOk result (λ proc. (forms : Trees Ref) → Holds core.now forms → KnowsAll core.now facts.now (all_told core.now.lits forms) → NamesProgram self.old self.new (all_told core.now.lits forms) proc) }
    {
        let mut steps = Vec::new(self.alloc);
        self.name_forms(core, facts, deep, &mut steps)?;
        Ok(Proc {
            params: Ids::new(self.alloc),
            rest: None,
            body: Block {
                steps: Items::from_vec(steps),
                value: None,
            },
            pos: Pos { line: 0, col: 0 },
        })
    }

    /// Makes the steps of the program's forms.
    fn name_forms<'a, 'f>(
        &mut self,
        core: &'a Renamed,
        facts: &'f Facts<'a>,
        deep: u32,
        steps: &mut Vec<Step>,
    ) -> Result<(), AllocError>
        ensures { OnOk result ((forms : Trees Ref) → Holds core.now forms → KnowsAll core.now facts.now (all_told core.now.lits forms) → NamesForms self.old self.new steps.old.items steps.new.items (all_told core.now.lits forms)) }
    {
        let mut form: u32 = 0;
        let mut left = core.forms.as_slice();
        while let Some((expr, others)) = left.split_first() {
            self.name_expr(Stand { core, facts, form }, *expr, deep, steps)?;
            let Some(next) = form.checked_add(1) else {
                return Err(AllocError);
            };
            form = next;
            left = others;
        }
        Ok(())
    }

    /// Makes the procedures from 1 on, in their order.
    pub(crate) fn name_procedures<'a, 'f>(
        &mut self,
        core: &'a Renamed,
        facts: &'f Facts<'a>,
        deep: u32,
        procs: &mut Procs,
    ) -> Result<(), AllocError>
        ensures are_named { OnOk result ((all : Exprs) (ls : List (ℕ × Expr)) → KnowsAll core.now facts.now all → ArePlaced core.now facts.now.survey.procs.items ls → NamesProcs self.old self.new procs.old procs.new all ls) }
        ensures fit { OnOk result ((all : Exprs) (ls : List (ℕ × Expr)) → KnowsAll core.now facts.now all → ArePlaced core.now facts.now.survey.procs.items ls → NumbersFit all self.old.next_var ls) }
    {
        let mut after: u32 = 1;
        let mut left = facts.survey.procs.as_slice();
        while let Some((origin, others)) = left.split_first() {
            let Some(next) = after.checked_add(1) else {
                return Err(AllocError);
            };
            after = next;
            self.next_proc = after;
            let form = origin.form;
            procs.push(self.name_procedure(Stand { core, facts, form }, origin.expr, deep)?)?;
            left = others;
        }
        // A number that is read has 32 bits.
        let _next = self.next_var;
        Ok(())
    }

    fn name_procedure<'a, 'f>(
        &mut self,
        stand: Stand<'a, 'f>,
        lambda: u32,
        deep: u32,
    ) -> Result<Proc, AllocError>
        ensures { IfOk result (λ proc. (e : Tree Ref) → Stands stand.entry.core.now.exprs lambda e → (s : Setting) → Fits stand.entry s → (n p : ℕ) → NamesProc s n p self.old self.new (told stand.entry.core.now.lits e) proc) }
    {
        let Some(node) = stand.core.exprs.get(lambda as usize) else {
            return Err(AllocError);
        };
        let What::Lambda { params, rest, body } = &node.what else {
            return Err(AllocError);
        };
        let pos = node.pos;
        let vars = self.param_vars(params)?;
        let last = self.rest_var(rest)?;
        let mut steps = Vec::new(self.alloc);
        self.settle_params(stand, params, vars.as_slice(), pos, &mut steps)?;
        self.settle_rest(stand, rest, last, pos, &mut steps)?;
        let value = self.name_expr(stand, *body, deep, &mut steps)?;
        Ok(Proc {
            params: vars,
            rest: last,
            body: Block {
                steps: Items::from_vec(steps),
                value: Some(value),
            },
            pos,
        })
    }

    fn param_vars(&mut self, params: &List<VarRef>) -> Result<Ids, AllocError>
        ensures { IfOk result (λ vars. TakesVars self.old self.new (length params.now) vars) }
    {
        let mut vars = Ids::new(self.alloc);
        let mut left = params.as_slice();
        while let Some((_, others)) = left.split_first() {
            vars.push(self.fresh()?)?;
            left = others;
        }
        Ok(vars)
    }

    fn rest_var(&mut self, rest: &Option<VarRef>) -> Result<Option<u32>, AllocError>
        ensures { IfOk result (λ last. TakesRest self.old self.new (option_number rest.now) last) }
    {
        match rest {
            Some(_) => Ok(Some(self.fresh()?)),
            None => Ok(None),
        }
    }

    fn settle_params<'a, 'f>(
        &mut self,
        stand: Stand<'a, 'f>,
        params: &'a List<VarRef>,
        vars: &[u32],
        pos: Pos,
        steps: &mut Vec<Step>,
    ) -> Result<(), AllocError>
        ensures { OnOk result ((s : Setting) → Fits stand.entry s → (n p v : ℕ) → vars.now ≡ numbers_from v (length params.now) → SettlesAll s n p self.old self.new steps.old.items steps.new.items pos (numbers params.now) v) }
    {
        let mut params = params.as_slice();
        let mut vars = vars;
        while let Some((param, other_params)) = params.split_first() {
            let Some((var, other_vars)) = vars.split_first() else {
                return Ok(());
            };
            self.settle(stand, param, *var, pos, steps)?;
            params = other_params;
            vars = other_vars;
        }
        Ok(())
    }

    fn settle_rest<'a, 'f>(
        &mut self,
        stand: Stand<'a, 'f>,
        rest: &'a Option<VarRef>,
        var: Option<u32>,
        pos: Pos,
        steps: &mut Vec<Step>,
    ) -> Result<(), AllocError>
        ensures { OnOk result ((s : Setting) → Fits stand.entry s → (n p v : ℕ) → var ≡ rest_var s (option_number rest.now) v → SettlesAll s n p self.old self.new steps.old.items steps.new.items pos (all_params [] (option_number rest.now)) v) }
    {
        match rest {
            Some(param) => self.settle_last(stand, param, var, pos, steps),
            None => Ok(()),
        }
    }

    fn settle_last<'a, 'f>(
        &mut self,
        stand: Stand<'a, 'f>,
        param: &VarRef,
        var: Option<u32>,
        pos: Pos,
        steps: &mut Vec<Step>,
    ) -> Result<(), AllocError>
        ensures { OnOk result ((s : Setting) → Fits stand.entry s → (n p v : ℕ) → var ≡ Some v → SettlesAll s n p self.old self.new steps.old.items steps.new.items pos (number param.now ∷ []) v) }
    {
        match var {
            Some(var) => self.settle(stand, param, var, pos, steps),
            None => Ok(()),
        }
    }
}
