ghost use Rattle.std.specs.Prelude.{◌≡◌, ℕ, ◌∷◌, [], nat_eq, Some, IfOk, OnOk};
ghost use Rattle.core_form.specs.declared.program.VarRef.{VarRef as Ref};
ghost use Rattle.core_form.specs.Trees.{Tree, Trees, Stands, StandAll};
ghost use Rattle.indexmap.specs.IndexMap.{get};
ghost use Rattle.named_form.specs.Written.{act_of};
ghost use Rattle.box_name.specs.Fitting.{Fits};
ghost use Rattle.box_name.specs.Naming.{Setting};
ghost use Rattle.box_name.specs.NamingSteps.{Binds, Notes, NotesVars, PutsFix, PutsOne, Settles, Takes, TakesProc, TakesProcs};
ghost use Rattle.box_name.specs.Told.{told, all_told, number, numbers};

use crate::facts::Stand;
use crate::namer::Namer;
use core_form::VarRef;
use named_form::{Act, Step};
use scheme_base::{Ids, List, Pos};
use std::alloc::AllocError;

impl Namer {
    /// The next variable.
    pub(crate) fn fresh(&mut self) -> Result<u32, AllocError>
        ensures { IfOk result (λ var. Takes self.old self.new var) }
    {
        let var = self.next_var;
        let Some(next) = var.checked_add(1) else {
            return Err(AllocError);
        };
        self.next_var = next;
        Ok(var)
    }

    /// Puts a step that binds a variable at the end, and answers the variable.
    pub(crate) fn put(
        &mut self,
        var: u32,
        act: Act,
        pos: Pos,
        steps: &mut Vec<Step>,
    ) -> Result<u32, AllocError>
        ensures { IfOk result (λ same. PutsOne self.old self.new steps.old.items steps.new.items pos var (act_of act) same) }
    {
        let vars = Ids::from_slice(self.alloc, [var].as_slice())?;
        steps.push(Step { vars, act, pos })?;
        Ok(var)
    }

    /// Puts a step that binds the next variable at the end, and answers the variable.
    pub(crate) fn bind(
        &mut self,
        act: Act,
        pos: Pos,
        steps: &mut Vec<Step>,
    ) -> Result<u32, AllocError>
        ensures { IfOk result (λ var. Binds self.old self.new steps.old.items steps.new.items pos (act_of act) var) }
    {
        let var = self.fresh()?;
        self.put(var, act, pos, steps)
    }

    /// The variable of a local variable, or its box.
    pub(crate) fn local(&self, number: u32) -> Result<u32, AllocError>
        ensures { IfOk result (λ var. get nat_eq self.now.vars number ≡ Some var) }
    {
        match self.vars.get(&number) {
            Some(var) => Ok(*var),
            None => Err(AllocError),
        }
    }

    /// Notes the variable of a local variable, or its box. A local variable is bound at one place.
    pub(crate) fn place(&mut self, number: u32, var: u32) -> Result<(), AllocError>
        ensures { OnOk result (Notes self.old self.new ((number, var) ∷ []) self.old.next_var self.old.next_proc) }
    {
        if self.vars.get(&number).is_some() {
            return Err(AllocError);
        }
        self.vars.insert(number, var)?;
        Ok(())
    }

    /// The number of the procedure that a lambda expression becomes. Those in its body have the next ones.
    pub(crate) fn procedure<'a, 'f>(
        &mut self,
        stand: Stand<'a, 'f>,
        lambda: u32,
    ) -> Result<u32, AllocError>
        ensures { IfOk result (λ proc. (e : Tree Ref) → Stands stand.entry.core.now.exprs lambda e → (s : Setting) → Fits stand.entry s → TakesProc self.old self.new (told stand.entry.core.now.lits e) proc) }
    {
        let proc = self.next_proc;
        let inside = stand.inside(lambda)?;
        let Some(after) = proc.checked_add(1) else {
            return Err(AllocError);
        };
        let Some(next) = after.checked_add(inside) else {
            return Err(AllocError);
        };
        self.next_proc = next;
        Ok(proc)
    }

    /// Makes the box of a variable of this value, if something assigns it, and notes where it is found.
    pub(crate) fn settle<'a, 'f>(
        &mut self,
        stand: Stand<'a, 'f>,
        param: &VarRef,
        var: u32,
        pos: Pos,
        steps: &mut Vec<Step>,
    ) -> Result<(), AllocError>
        ensures { OnOk result ((s : Setting) → Fits stand.entry s → (n p : ℕ) → Settles s n p self.old self.new steps.old.items steps.new.items pos (number param.now) var) }
    {
        let VarRef::Local(number) = param else {
            return Err(AllocError);
        };
        if stand.is_boxed(*number) {
            let boxed = self.bind(Act::MakeBox { from: var }, pos, steps)?;
            self.place(*number, boxed)
        } else {
            self.place(*number, var)
        }
    }

    /// Makes the closures of a `letrec`'s lambda expressions in one step, which binds its variables.
    pub(crate) fn name_fix<'a, 'f>(
        &mut self,
        stand: Stand<'a, 'f>,
        vars: &'a List<VarRef>,
        lambdas: &'a Ids,
        pos: Pos,
        steps: &mut Vec<Step>,
    ) -> Result<(), AllocError>
        ensures { OnOk result ((ls : Trees Ref) → StandAll stand.entry.core.now.exprs lambdas.now ls → (s : Setting) → Fits stand.entry s → (n p : ℕ) → PutsFix s n p self.old self.new steps.old.items steps.new.items pos (numbers vars.now) (all_told stand.entry.core.now.lits ls)) }
    {
        let vars = self.fix_vars(vars)?;
        let procs = self.fix_procs(stand, lambdas)?;
        let act = Act::Fix { procs };
        steps.push(Step { vars, act, pos })?;
        Ok(())
    }

    fn fix_vars(&mut self, vars: &List<VarRef>) -> Result<Ids, AllocError>
        ensures { IfOk result (λ bound. NotesVars self.old self.new (numbers vars.now) bound) }
    {
        let mut bound = Ids::new(self.alloc);
        let mut left = vars.as_slice();
        while let Some((var, others)) = left.split_first() {
            let VarRef::Local(number) = var else {
                return Err(AllocError);
            };
            let var = self.fresh()?;
            self.place(*number, var)?;
            bound.push(var)?;
            left = others;
        }
        Ok(bound)
    }

    fn fix_procs<'a, 'f>(
        &mut self,
        stand: Stand<'a, 'f>,
        lambdas: &'a Ids,
    ) -> Result<Ids, AllocError>
        ensures { IfOk result (λ procs. (ls : Trees Ref) → StandAll stand.entry.core.now.exprs lambdas.now ls → (s : Setting) → Fits stand.entry s → TakesProcs self.old self.new (all_told stand.entry.core.now.lits ls) procs) }
    {
        let mut procs = Ids::new(self.alloc);
        let mut left = lambdas.as_slice();
        while let Some((lambda, others)) = left.split_first() {
            procs.push(self.procedure(stand, *lambda)?)?;
            left = others;
        }
        Ok(procs)
    }
}
