//! The variables that are bound round an expression.

ghost use Rattle.std.specs.Prelude.{ℕ, ◌≡◌, ◌+◌, List, [], ◌∷◌, drop, length, map, slice_get, slice_set, nat_lt, true, OnOk, IfOk};
ghost use Rattle.draft_form.specs.Drafts.{Local, Changed};
ghost use Rattle.draft_form.specs.Drawn.{Names, name_of, word_name};
ghost use Rattle.scheme_expand.specs.Making.{from_level, one_assigned};
ghost use Rattle.scheme_expand.specs.Noted.{level_in};
ghost use Rattle.scheme_expand.specs.Rewriting.{found, unnamed, variable, variables as variables_of};
ghost use Rattle.scheme_expand.specs.Viewed.{AreWords, IsCalled, IsScope, Spells};
ghost use Rattle.scheme_expand.specs.Views.{Bound as Named, bound_names, lowered, put_inside, raised};

use draft_form::Variable;
use std::alloc::{AllocError, Global};

/// A bound variable.
#[derive(Clone, Copy, Debug)]
struct Bound {
    /// Its name; a fresh variable has none.
    word: Option<u32>,
    /// The level of the variable that it hides.
    hidden: Option<u32>,
    assigned: bool,
}

impl Bound {
    /// The variable, where this is its level.
    fn variable(&self, level: u32) -> Variable
        ensures { (names : Names) (x : List ℕ) → AreWords names → IsCalled names self.now.word x → name_of names result ≡ variable level x }
    {
        match self.word {
            Some(word) => Variable::Local { level, word },
            None => Variable::Fresh { level },
        }
    }
}

/// The bound variables, the innermost last. A variable's level is its index.
#[derive(Drop)]
pub(crate) struct Scope {
    bound: Vec<Bound>,
    /// The level of the innermost variable of each name.
    innermost: Vec<Option<u32>>,
}

impl Scope {
    /// No variables, where there are so many names.
    pub(crate) fn new(alloc: Global, names: usize) -> Result<Scope, AllocError>
        ensures { IfOk result (λ scope. (text : Names) → names ≡ length text → IsScope text scope []) }
    {
        let mut innermost = Vec::new(alloc);
        innermost.resize(names, None)?;
        Ok(Scope {
            bound: Vec::new(alloc),
            innermost,
        })
    }

    /// How many variables are bound: the level of the next one.
    pub(crate) fn level(&self) -> Result<u32, AllocError>
        ensures { IfOk result (λ level. (names : Names) (bs : List Named) → IsScope names self.now bs → level ≡ length bs) }
    {
        let Ok(level) = u32::try_from(self.bound.len()) else {
            return Err(AllocError);
        };
        Ok(level)
    }

    /// The level of the innermost variable of a name.
    pub(crate) fn find(&self, word: u32) -> Option<u32>
        ensures fault { result ≡ level_in (slice_get self.now.innermost.items word) }
        ensures core { (names : Names) (bs : List Named) → IsScope names self.now bs → nat_lt word (length names) ≡ true → result ≡ found (bound_names bs) (word_name names word) }
    {
        *self.innermost.get(word as usize)?
    }

    pub(crate) fn bind(&mut self, word: u32) -> Result<(), AllocError>
        ensures { OnOk result ((names : Names) (bs : List Named) (x : List ℕ) → AreWords names → IsScope names self.old bs → Spells names word x → IsScope names self.new (put_inside (x ∷ []) bs)) }
    {
        let level = self.level()?;
        let hidden = self.find(word);
        self.bound.push(Bound {
            word: Some(word),
            hidden,
            assigned: false,
        })?;
        self.set_innermost(word, Some(level));
        Ok(())
    }

    /// Gives a name its innermost variable.
    fn set_innermost(&mut self, word: u32, level: Option<u32>)
        ensures bound { self.new.bound ≡ self.old.bound }
        ensures innermost { self.new.innermost.items ≡ slice_set self.old.innermost.items word level }
    {
        if let Some(innermost) = self.innermost.get_mut(word as usize) {
            *innermost = level;
        }
    }

    /// Binds a variable without a name.
    pub(crate) fn bind_fresh(&mut self) -> Result<(), AllocError>
        ensures { OnOk result ((names : Names) (bs : List Named) → AreWords names → IsScope names self.old bs → IsScope names self.new (put_inside ([] ∷ []) bs)) }
    {
        self.bound.push(Bound {
            word: None,
            hidden: None,
            assigned: false,
        })?;
        Ok(())
    }

    /// Binds as many variables without names.
    pub(crate) fn bind_all_fresh(&mut self, count: usize) -> Result<(), AllocError>
        ensures { OnOk result ((names : Names) (bs : List Named) → AreWords names → IsScope names self.old bs → IsScope names self.new (put_inside (unnamed count) bs)) }
    {
        for _variable in 0..count {
            self.bind_fresh()?;
        }
        Ok(())
    }

    /// Notes that the variable of a level is assigned.
    pub(crate) fn assign(&mut self, level: u32)
        ensures { (names : Names) (bs : List Named) (x : List ℕ) → IsScope names self.old bs → IsScope names self.new (raised (Changed (Local level x) ∷ []) bs) }
    {
        if let Some(bound) = self.bound.get_mut(level as usize) {
            bound.assigned = true;
        }
    }

    /// Whether a variable from this level on is assigned.
    pub(crate) fn assigns_from(&self, level: u32) -> bool
        ensures { (names : Names) (bs : List Named) → IsScope names self.now bs → result ≡ one_assigned level bs }
    {
        let Some(bound) = self.bound.get(level as usize..) else {
            return false;
        };
        for variable in bound {
            if variable.assigned {
                return true;
            }
        }
        false
    }

    /// The variables from this level on.
    pub(crate) fn variables_from(
        &self,
        alloc: Global,
        level: u32,
    ) -> Result<Vec<Variable>, AllocError>
        ensures { IfOk result (λ variables. (names : Names) (bs : List Named) → AreWords names → IsScope names self.now bs → map (name_of names) variables.items ≡ variables_of level (from_level level bs)) }
    {
        let mut variables = Vec::new(alloc);
        let Some(bound) = self.bound.get(level as usize..) else {
            return Ok(variables);
        };
        let mut next = level;
        let mut rest = bound;
        while let Some((first, others)) = rest.split_first() {
            variables.push(first.variable(next))?;
            next = above(next, 1)?;
            rest = others;
        }
        Ok(variables)
    }

    /// Leaves the variables from this level on.
    pub(crate) fn leave(&mut self, level: u32)
        ensures { (names : Names) (bs : List Named) → AreWords names → IsScope names self.old bs → IsScope names self.new (lowered level bs) }
    {
        let count = self.bound.len().saturating_sub(level as usize);
        for _variable in 0..count {
            self.leave_one();
        }
    }

    /// Leaves the innermost variable.
    fn leave_one(&mut self)
        ensures { (names : Names) (bs : List Named) → AreWords names → IsScope names self.old bs → IsScope names self.new (drop 1 bs) }
    {
        let Some(last) = self.bound.pop() else {
            return;
        };
        if let Some(word) = last.word {
            self.set_innermost(word, last.hidden);
        }
    }
}

/// The level that is so many above another.
pub(crate) fn above(level: u32, count: usize) -> Result<u32, AllocError>
    ensures { IfOk result (λ high. high ≡ level + count) }
{
    let Ok(count) = u32::try_from(count) else {
        return Err(AllocError);
    };
    let Some(high) = level.checked_add(count) else {
        return Err(AllocError);
    };
    Ok(high)
}
