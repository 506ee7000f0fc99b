ghost use Rattle.std.specs.Prelude.{◌≡◌, ◌∷◌, ◌+◌, length, IfOk, OnOk};
ghost use Rattle.core_form.specs.declared.program.VarRef.TheVariants as ref;
ghost use Rattle.core_form.specs.Source.{scope_with};
ghost use Rattle.alpha_core.specs.Renaming.{locals, local_rest, past_rest, with_rest};
ghost use Rattle.alpha_core.specs.RenamingSteps.{Binds};

use crate::renamer::Renamer;
use core_form::{Var, VarRef, Vars};
use scheme_base::List;
use std::alloc::AllocError;

impl<'a> Renamer<'a> {
    /// Binds a variable to the next number.
    fn bind(&mut self, var: &'a Var) -> Result<VarRef, AllocError>
        ensures var { IfOk result (λ bound. bound ≡ ref.Local self.old.next) }
        ensures binds { OnOk result (Binds self.old self.new (λ ρ. (var.now, self.old.next) ∷ ρ) (self.old.next + 1)) }
    {
        let number = self.next;
        let Some(next) = number.checked_add(1) else {
            return Err(AllocError);
        };
        self.scope.bind(var, number)?;
        self.next = next;
        Ok(VarRef::Local(number))
    }

    /// Binds variables in their order.
    pub(crate) fn bind_all(&mut self, vars: &'a Vars) -> Result<List<VarRef>, AllocError>
        ensures vars { IfOk result (λ bound. bound ≡ locals self.old.next vars.now) }
        ensures binds { OnOk result (Binds self.old self.new (scope_with vars.now self.old.next) (self.old.next + length vars.now)) }
    {
        let mut bound = List::new(self.alloc);
        let mut left = vars.as_slice();
        while let Some((var, others)) = left.split_first() {
            bound.push(self.bind(var)?)?;
            left = others;
        }
        Ok(bound)
    }

    /// Binds a rest parameter, if there is one.
    pub(crate) fn bind_rest(&mut self, rest: &'a Option<Var>) -> Result<Option<VarRef>, AllocError>
        ensures var { IfOk result (λ bound. bound ≡ local_rest self.old.next rest.now) }
        ensures binds { OnOk result (Binds self.old self.new (with_rest rest.now self.old.next) (past_rest self.old.next rest.now)) }
    {
        match rest {
            Some(var) => Ok(Some(self.bind(var)?)),
            None => Ok(None),
        }
    }
}
