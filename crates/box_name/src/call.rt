ghost use Rattle.std.specs.Prelude.{ℕ, None, IfOk, OnOk};
ghost use Rattle.core_form.specs.declared.program.VarRef.{VarRef as Ref};
ghost use Rattle.core_form.specs.Trees.{Tree, Trees, Call, Lambda, Stands, StandAll};
ghost use Rattle.scheme_base.specs.declared.pos.Pos.{Pos as Position};
ghost use Rattle.box_name.specs.Fitting.{Fits};
ghost use Rattle.box_name.specs.Naming.{Setting};
ghost use Rattle.box_name.specs.NamingSteps.{Does, DoesOperand, DoesOperands, BindsParam, BindsParams};
ghost use Rattle.box_name.specs.Told.{Direct as DirectCall, told, told_operands, number, numbers};

use crate::direct::{Direct, direct_lambda, is_hole};
use crate::facts::Stand;
use crate::namer::Namer;
use core_form::VarRef;
use named_form::{Act, Step};
use scheme_base::{Ids, List, Pos};
use std::alloc::AllocError;

impl Namer {
    #[cycle(name)]
    pub(crate) fn name_call<'a, 'f>(
        &mut self,
        stand: Stand<'a, 'f>,
        operator: u32,
        operands: &'a Ids,
        pos: Pos,
        deep: u32,
        steps: &mut Vec<Step>,
    ) -> Result<u32, AllocError>
        ensures { IfOk result (λ v. (f : Tree Ref) (es : Trees Ref) → Stands stand.entry.core.now.exprs operator f → StandAll stand.entry.core.now.exprs operands.now es → Does stand.entry self.old self.new steps.old.items steps.new.items (told stand.entry.core.now.lits (Call pos f es)) v) }
    {
        match direct_lambda(stand.core, operator, operands.len()) {
            Some(lambda) => self.name_direct(stand, operator, lambda, operands, pos, deep, steps),
            None => {
                let operator = self.name_expr(stand, operator, deep, steps)?;
                let operands = self.name_list(stand, operands, deep, steps)?;
                self.bind(Act::Call { operator, operands }, pos, steps)
            }
        }
    }

    /// Makes the steps of a call whose operator is bound in place: of the operands, of the parameters, and
    /// of the body. The body's procedures have the numbers before those of the operands.
    #[cycle(name)]
    fn name_direct<'a, 'f>(
        &mut self,
        stand: Stand<'a, 'f>,
        operator: u32,
        lambda: Direct<'a>,
        operands: &'a Ids,
        pos: Pos,
        deep: u32,
        steps: &mut Vec<Step>,
    ) -> Result<u32, AllocError>
        ensures { IfOk result (λ v. (q : Position) (b : Tree Ref) (es : Trees Ref) → Stands stand.entry.core.now.exprs operator (Lambda q lambda.entry.params.now None b) → Stands stand.entry.core.now.exprs lambda.entry.body b → StandAll stand.entry.core.now.exprs operands.now es → Does stand.entry self.old self.new steps.old.items steps.new.items (DirectCall pos (numbers lambda.entry.params.now) (told stand.entry.core.now.lits b) (told_operands stand.entry.core.now.lits es)) v) }
    {
        if deep == 0 {
            return Err(AllocError);
        }
        let first = self.next_proc;
        let inside = stand.inside(operator)?;
        let Some(next) = first.checked_add(inside) else {
            return Err(AllocError);
        };
        self.next_proc = next;
        let values = self.name_values(stand, operands, deep, steps)?;
        let after = self.next_proc;
        self.bind_params(stand, lambda.params, values.as_slice(), pos, steps)?;
        self.next_proc = first;
        let value = self.name_expr(stand, lambda.body, deep - 1, steps)?;
        self.next_proc = after;
        Ok(value)
    }

    /// Makes the steps of the operands of a direct call. The undefined value has none and no variable.
    #[cycle(name)]
    fn name_values<'a, 'f>(
        &mut self,
        stand: Stand<'a, 'f>,
        operands: &'a Ids,
        deep: u32,
        steps: &mut Vec<Step>,
    ) -> Result<Vec<Option<u32>>, AllocError>
        ensures { IfOk result (λ vs. DoesOperands stand.entry self.old self.new steps.old.items steps.new.items operands.now vs.items) }
    {
        let mut values = Vec::new(self.alloc);
        let mut left = operands.as_slice();
        while let Some((operand, others)) = left.split_first() {
            values.push(self.name_value(stand, *operand, deep, steps)?)?;
            left = others;
        }
        Ok(values)
    }

    #[cycle(name)]
    fn name_value<'a, 'f>(
        &mut self,
        stand: Stand<'a, 'f>,
        operand: u32,
        deep: u32,
        steps: &mut Vec<Step>,
    ) -> Result<Option<u32>, AllocError>
        ensures { IfOk result (λ v. DoesOperand stand.entry self.old self.new steps.old.items steps.new.items operand v) }
    {
        if is_hole(stand.core, operand) {
            Ok(None)
        } else {
            Ok(Some(self.name_expr(stand, operand, deep, steps)?))
        }
    }

    /// Binds the parameters of a direct call in their order.
    fn bind_params<'a, 'f>(
        &mut self,
        stand: Stand<'a, 'f>,
        params: &'a List<VarRef>,
        values: &[Option<u32>],
        pos: Pos,
        steps: &mut Vec<Step>,
    ) -> Result<(), AllocError>
        ensures { OnOk result ((s : Setting) → Fits stand.entry s → (n p : ℕ) → BindsParams s n p self.old self.new steps.old.items steps.new.items pos (numbers params.now) values.now) }
    {
        let mut params = params.as_slice();
        let mut values = values;
        while let Some((param, other_params)) = params.split_first() {
            let Some((value, other_values)) = values.split_first() else {
                return Ok(());
            };
            self.bind_param(stand, param, *value, pos, steps)?;
            params = other_params;
            values = other_values;
        }
        Ok(())
    }

    fn bind_param<'a, 'f>(
        &mut self,
        stand: Stand<'a, 'f>,
        param: &VarRef,
        value: Option<u32>,
        pos: Pos,
        steps: &mut Vec<Step>,
    ) -> Result<(), AllocError>
        ensures { OnOk result ((s : Setting) → Fits stand.entry s → (n p : ℕ) → BindsParam s n p self.old self.new steps.old.items steps.new.items pos (number param.now) value) }
    {
        match value {
            Some(from) => {
                let var = self.bind(Act::Copy { from }, pos, steps)?;
                self.settle(stand, param, var, pos, steps)
            }
            None => {
                let VarRef::Local(number) = param else {
                    return Err(AllocError);
                };
                let boxed = self.bind(Act::MakeHole, pos, steps)?;
                self.place(*number, boxed)
            }
        }
    }
}
