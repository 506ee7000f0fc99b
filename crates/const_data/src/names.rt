//! Where the symbols among the literals of a program stand. Symbols of one name are one object.

ghost use Rattle.std.specs.Prelude.{◌≡◌, ℕ, length, IfOk, OnOk};
ghost use Rattle.scheme_base.specs.Literals.{first_symbol};
ghost use Rattle.const_data.specs.Naming.{Knows, Notes, symbol_word, Literals};

use crate::offsets::{count, sum};
use indexmap::IndexMap;
use scheme_base::{Lit, Lits};
use std::alloc::{AllocError, Global};

/// The names of the symbols so far.
#[derive(Drop)]
pub(crate) struct Names<'a> {
    /// The first word of each name's symbol.
    words: IndexMap<&'a [u8], u32>,
    /// The word behind them all.
    pub(crate) next: u32,
}

impl<'a> Names<'a> {
    /// The names of all symbols, of which the first stands at the word `first`.
    pub(crate) fn of(alloc: Global, lits: &'a Lits, first: u32) -> Result<Names<'a>, AllocError>
        ensures { IfOk result (λ names. Knows first lits.now (length lits.now) names) }
    {
        let mut names = Names {
            words: IndexMap::new(alloc),
            next: first,
        };
        for lit in lits.as_slice() {
            names.note(lit)?;
        }
        Ok(names)
    }

    /// Notes the next literal, if it is a symbol.
    fn note(&mut self, lit: &'a Lit) -> Result<(), AllocError>
        ensures { OnOk result (Notes self.old self.new lit.now) }
    {
        match lit {
            Lit::Symbol(name) => self.note_symbol(name.as_slice()),
            _ => Ok(()),
        }
    }

    /// Notes where the symbol of this name stands, if it is the first one: its name stands behind it.
    fn note_symbol(&mut self, name: &'a [u8]) -> Result<(), AllocError>
        ensures { OnOk result (Notes self.old self.new (Lit.Symbol name.now)) }
    {
        match self.words.get(name) {
            Some(_) => Ok(()),
            None => {
                let header = sum(self.next, 3)?;
                let next = sum(header, count(name.len())?)?;
                self.words.insert(name, self.next)?;
                self.next = next;
                Ok(())
            }
        }
    }

    /// The first word of the symbol of this name.
    pub(crate) fn word(&self, name: &[u8]) -> Result<u32, AllocError>
        ensures { IfOk result (λ word. (first : ℕ) (lits : Literals) (i : ℕ) → Knows first lits i self.now → word ≡ symbol_word first lits (first_symbol name.now lits 0)) }
    {
        match self.words.get(name) {
            Some(word) => Ok(*word),
            None => Err(AllocError),
        }
    }
}
