//! A core as far as it has come.

ghost use Rattle.std.specs.Prelude.{◌≡◌, [], ◌∷◌, length, OnOk, IfOk};
ghost use Rattle.core_form.specs.Text.{HasText};
ghost use Rattle.draft_form.specs.Written.{HasParts};
ghost use Rattle.draft_form.specs.Growing.{AddsForm, AddsNode, IsEmpty, IsReady, Takes};

use crate::literal::number;
use core_form::{Core, Expr, Exprs, Var, What};
use scheme_base::{Ids, List, Lit, Pos};
use std::alloc::{AllocError, Global};

/// The expressions and literals of a core that is being made, each expression after its parts.
#[derive(Drop)]
pub struct Growing {
    pub exprs: Exprs,
    pub forms: Ids,
    pub lits: Vec<Lit>,
    /// The expressions that are done and stand in none yet.
    pub done: Vec<u32>,
}

impl Growing {
    pub fn new(alloc: Global) -> Growing
        ensures ready { IsReady result }
        ensures empty { IsEmpty result }
    {
        Growing {
            exprs: List::new(alloc),
            forms: Ids::new(alloc),
            lits: Vec::new(alloc),
            done: Vec::new(alloc),
        }
    }

    /// Adds an expression whose parts are done.
    pub fn add(&mut self, what: What<Var>, pos: Pos) -> Result<(), AllocError>
        ensures ready { OnOk result (IsReady self.old → HasParts self.old.exprs self.old.lits.items what → IsReady self.new) }
        ensures added { OnOk result (AddsNode self.old self.new what pos) }
    {
        let id = number(self.exprs.len())?;
        self.exprs.push(Expr { what, pos })?;
        self.done.push(id)?;
        Ok(())
    }

    /// The expression that was done last.
    pub fn take(&mut self) -> Result<u32, AllocError>
        ensures { IfOk result (λ id. Takes self.old self.new (id ∷ [])) }
    {
        match self.done.pop() {
            Some(id) => Ok(id),
            None => Err(AllocError),
        }
    }

    /// The expressions that were done last, in order.
    pub fn take_all(&mut self, alloc: Global, count: usize) -> Result<Ids, AllocError>
        ensures { IfOk result (λ ids. Takes self.old self.new ids × (length ids ≡ count)) }
    {
        if count > self.done.len() {
            return Err(AllocError);
        }
        let start = self.done.len() - count;
        let ids = Ids::from_slice(alloc, &self.done[start..])?;
        self.done.truncate(start);
        Ok(ids)
    }

    /// Makes the expression that was done last a form.
    pub fn add_form(&mut self) -> Result<(), AllocError>
        ensures ready { OnOk result (IsReady self.old → IsReady self.new) }
        ensures added { OnOk result (AddsForm self.old self.new) }
    {
        let form = self.take()?;
        self.forms.push(form)?;
        Ok(())
    }

    pub fn into_core(self) -> Core
        ensures text { IsReady self → HasText result }
        ensures exprs { result.exprs ≡ self.exprs }
        ensures forms { result.forms ≡ self.forms }
        ensures lits { result.lits ≡ self.lits.items }
    {
        Core {
            exprs: self.exprs,
            forms: self.forms,
            lits: List::from_vec(self.lits),
        }
    }
}
