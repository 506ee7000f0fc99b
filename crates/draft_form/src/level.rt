//! The numbers of the fresh variables that are bound.

ghost use Rattle.std.specs.Prelude.{ℕ, suc, ◌≡◌, List, [], ◌∷◌, ◌++◌, OnOk};
ghost use Rattle.std.specs.Borrow.{Bor};
ghost use Rattle.draft_form.specs.declared.level.Visit.TheVariants.{Restore};
ghost use Rattle.draft_form.specs.Numbers.{Given, give};
ghost use Rattle.draft_form.specs.Numbering.{number_in, Gives, NumbersAll};

use crate::draft::Variable;
use std::alloc::{AllocError, Global};

/// What is still to be done, the last first.
#[derive(Clone, Copy)]
pub(crate) enum Visit {
    /// All of an expression.
    Begin(u32),
    /// An expression whose parts are done.
    End(u32),
    /// The number of a level is what it was.
    Restore { level: u32, number: u64 },
}

/// The numbers of fresh variables, by level: of those that are bound, and of some that were.
#[derive(Drop)]
pub struct Levels {
    /// How many fresh variables have numbers.
    pub fresh: u64,
    pub numbers: Vec<u64>,
}

impl Levels {
    pub fn new(alloc: Global) -> Levels
        ensures fresh { result.fresh ≡ 0 }
        ensures numbers { Gives result.numbers.items (λ level. 0) }
    {
        Levels {
            fresh: 0,
            numbers: Vec::new(alloc),
        }
    }

    /// Gives numbers to the fresh ones of these variables; later they have the numbers that they had.
    pub(crate) fn number_all(
        &mut self,
        variables: &[Variable],
        visits: &mut Vec<Visit>,
    ) -> Result<(), AllocError>
        ensures { OnOk result ((words : List (Bor (List ℕ))) (g : Given) → Gives self.old.numbers.items g → NumbersAll words variables.now self.old self.new visits.old.items visits.new.items g) }
    {
        for variable in variables {
            self.number(*variable, visits)?;
        }
        Ok(())
    }

    fn number(&mut self, variable: Variable, visits: &mut Vec<Visit>) -> Result<(), AllocError>
        ensures { OnOk result ((words : List (Bor (List ℕ))) (g : Given) → Gives self.old.numbers.items g → NumbersAll words (variable ∷ []) self.old self.new visits.old.items visits.new.items g) }
    {
        match variable {
            Variable::Fresh { level } => self.number_fresh(level, visits),
            Variable::Local { .. } | Variable::Top { .. } | Variable::Library { .. } => Ok(()),
        }
    }

    fn number_fresh(&mut self, level: u32, visits: &mut Vec<Visit>) -> Result<(), AllocError>
        ensures fresh { OnOk result (self.new.fresh ≡ suc self.old.fresh) }
        ensures numbers { OnOk result ((g : Given) → Gives self.old.numbers.items g → Gives self.new.numbers.items (give g level (suc self.old.fresh))) }
        ensures visits { OnOk result (visits.new.items ≡ visits.old.items ++ Restore level (number_in self.old.numbers.items level) ∷ []) }
    {
        let Some(fresh) = self.fresh.checked_add(1) else {
            return Err(AllocError);
        };
        let number = self.at(level);
        visits.push(Visit::Restore { level, number })?;
        self.set(level, fresh)?;
        self.fresh = fresh;
        Ok(())
    }

    /// The number at a level, and 0 where there is none.
    pub(crate) fn at(&self, level: u32) -> u64
        ensures { result ≡ number_in self.now.numbers.items level }
    {
        match self.numbers.get(level as usize) {
            Some(number) => *number,
            None => 0,
        }
    }

    /// Gives a level a number.
    pub(crate) fn set(&mut self, level: u32, number: u64) -> Result<(), AllocError>
        ensures fresh { self.new.fresh ≡ self.old.fresh }
        ensures numbers { OnOk result ((g : Given) → Gives self.old.numbers.items g → Gives self.new.numbers.items (give g level number)) }
    {
        let at = level as usize;
        if at >= self.numbers.len() {
            self.numbers.resize(at + 1, 0)?;
        }
        self.numbers[at] = number;
        Ok(())
    }
}
