ghost use Rattle.std.specs.Prelude.{◌≡◌, ◌∷◌, ◌++◌, [], length, OnOk};
ghost use Rattle.std.specs.Map.{lookup};
ghost use Rattle.core_form.specs.declared.program.Var.{Var};
ghost use Rattle.core_form.specs.Source.{Scope as Seen};
ghost use Rattle.core_form.specs.Variables.{same_var};
ghost use Rattle.alpha_core.specs.ScopesHeld.{Shows};

use crate::name::Name;
use core_form::Var;
use indexmap::IndexMap;
use std::alloc::{AllocError, Global};

/// A variable that is bound to a number, and the number that its name had outside.
#[derive(Clone, Copy, Debug)]
struct Binding<'a> {
    var: &'a Var,
    number: u32,
    outer: Option<u32>,
}

/// The local variables that can be seen, each with its number.
#[derive(Drop)]
pub(crate) struct Scope<'a> {
    bindings: Vec<Binding<'a>>,
    innermost: IndexMap<Name<'a>, Option<u32>>,
}

impl<'a> Scope<'a> {
    pub(crate) fn new(alloc: Global) -> Scope<'a>
        ensures { Shows result [] }
    {
        Scope {
            bindings: Vec::new(alloc),
            innermost: IndexMap::new(alloc),
        }
    }

    /// How many variables are seen.
    pub(crate) fn len(&self) -> usize
        ensures { (ρ : Seen Var) → Shows self.now ρ → result ≡ length ρ }
    {
        self.bindings.len()
    }

    /// The number of a variable, where it is local.
    pub(crate) fn find(&self, var: &'a Var) -> Option<u32>
        ensures { (ρ : Seen Var) → Shows self.now ρ → result ≡ lookup (same_var var.now) ρ }
    {
        match self.innermost.get(&Name::of(var)) {
            Some(number) => *number,
            None => None,
        }
    }

    /// Binds a variable, which hides an outer one of its name.
    pub(crate) fn bind(&mut self, var: &'a Var, number: u32) -> Result<(), AllocError>
        ensures { OnOk result ((ρ : Seen Var) → Shows self.old ρ → Shows self.new ((var.now, number) ∷ ρ)) }
    {
        let outer = self.find(var);
        self.bindings.push(Binding { var, number, outer })?;
        self.innermost.insert(Name::of(var), Some(number))?;
        Ok(())
    }

    /// Leaves the scopes of the innermost variables until `len` are left.
    pub(crate) fn leave(&mut self, len: usize) -> Result<(), AllocError>
        ensures { OnOk result ((inner ρ : Seen Var) → Shows self.old (inner ++ ρ) → length ρ ≡ len → Shows self.new ρ) }
    {
        while self.bindings.len() > len {
            let Some(last) = self.bindings.pop() else {
                break;
            };
            self.innermost.insert(Name::of(last.var), last.outer)?;
        }
        Ok(())
    }
}
