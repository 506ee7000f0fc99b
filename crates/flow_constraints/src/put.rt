//! Puts one rule at the end of the list.

ghost use Rattle.std.specs.Prelude.{◌≡◌, ◌++◌, ◌∷◌, [], None, Some, OnOk};
ghost use Rattle.flow_form.specs.declared.rule.Test.TheVariants.{Has as has_atom};
ghost use Rattle.flow_constraints.specs.Table.{also, atom_in, reached, within};

use flow_form::{Give, Rule, Rules, Test};
use std::alloc::AllocError;

/// The atom that a row has where a block is reached.
pub(crate) const REACHED: u32 = 0;

pub(crate) const INTEGER: u32 = 1;

pub(crate) const CHARACTER: u32 = 2;

pub(crate) const FALSE: u32 = 3;

pub(crate) const TRUE: u32 = 4;

pub(crate) const NIL: u32 = 5;

pub(crate) const UNSPECIFIED: u32 = 6;

pub(crate) const END_OF_FILE: u32 = 7;
/// The symbols of literals.
pub(crate) const SYMBOL: u32 = 8;
/// Their names.
pub(crate) const NAME: u32 = 9;

/// What a rule asks of the rows.
#[derive(Clone, Copy)]
pub(crate) struct Guard {
    pub(crate) first: Option<Test>,
    pub(crate) second: Option<Test>,
}

/// A rule that holds without a test.
pub(crate) const ALWAYS: Guard = Guard {
    first: None,
    second: None,
};

impl Guard {
    /// That the block is reached whose reach row this is.
    pub(crate) fn reached(row: u32) -> Guard
        ensures { result ≡ reached row }
    {
        Guard {
            first: Some(Test::Has { row, atom: REACHED }),
            second: None,
        }
    }

    /// This, and a second test.
    pub(crate) fn and(self, test: Test) -> Guard
        ensures { result ≡ also test self }
    {
        Guard {
            first: self.first,
            second: Some(test),
        }
    }

    /// This, and that a row has an atom.
    pub(crate) fn has(self, row: u32, atom: u32) -> Guard
        ensures { result ≡ also (has_atom row atom) self }
    {
        self.and(Test::Has { row, atom })
    }
}

/// A rule that gives an atom to a row.
pub(crate) fn put_atom(
    rules: &mut Rules,
    guard: Guard,
    atom: u32,
    to: u32,
) -> Result<(), AllocError>
    ensures { OnOk result (rules.new ≡ rules.old ++ atom_in guard atom to ∷ []) }
{
    rules.push(Rule {
        first: guard.first,
        second: guard.second,
        give: Give::Atom(atom),
        to,
    })
}

/// A rule that gives a row's atoms to a row.
pub(crate) fn put_row(rules: &mut Rules, guard: Guard, row: u32, to: u32) -> Result<(), AllocError>
    ensures { OnOk result (rules.new ≡ rules.old ++ within guard row to ∷ []) }
{
    rules.push(Rule {
        first: guard.first,
        second: guard.second,
        give: Give::Row(row),
        to,
    })
}
