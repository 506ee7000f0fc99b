//! The rows and atoms of a program, by what they are of.

ghost use Rattle.std.specs.Prelude.{◌≡◌, ◌+◌, slice_get, IfOk};
ghost use Rattle.flow_constraints.specs.Rows.{contents_row, continuing, number_at};

use scheme_base::{Ids, List};
use std::alloc::AllocError;

/// What an atom stands for. `row` is the first row of what its objects hold, and `literal` tells that it is a
/// literal's, which nothing writes to.
#[derive(Clone, Copy, Debug, PartialEq, Eq)]
pub enum Kind {
    /// One of those that each program has.
    Fixed,
    /// The closures of a procedure.
    Closure { proc: u32 },
    /// Pairs: a row for the car, then one for the cdr.
    Pair { row: u32, literal: bool },
    /// Vectors: a row for the elements.
    Vector { row: u32, literal: bool },
    /// Strings, of whose characters there is no row.
    Text { literal: bool },
    /// Made symbols: a row for the name.
    Symbol { row: u32 },
    /// The boxes of a variable.
    Boxed { var: u32 },
    /// The continuations that give a variable its value.
    Continuation { var: u32 },
}

/// What a call of a procedure looks up: the atom of its closures, its parameters, its rest parameter, the block
/// that is its body, and the atom of its rest lists.
#[derive(Debug, Drop)]
pub struct Entry {
    pub atom: u32,
    pub params: Ids,
    pub rest: Option<u32>,
    pub block: u32,
    pub list: u32,
}

/// Kinds, by the numbers of the atoms.
pub type Kinds = List<Kind>;

/// The procedures from 1 on.
pub type Entries = List<Entry>;

/// The numbers of the rows and atoms of a program: how many rows it has; the row of each variable and of each
/// block, by its number; the procedures from 1 on; the kind of each atom; the atom of each literal; and the
/// atoms of each kind that has contents, in order. A fresh one is made by the run.
#[derive(Debug, Drop)]
pub struct Flow {
    pub rows: u32,
    pub vars: Ids,
    pub blocks: Ids,
    pub entries: Entries,
    pub kinds: Kinds,
    pub lits: Ids,
    pub pairs: Ids,
    pub fresh_pairs: Ids,
    pub vectors: Ids,
    pub fresh_vectors: Ids,
    pub symbols: Ids,
    pub continuations: Ids,
}

/// A sum of numbers of rows, atoms or steps, where it has 32 bits.
pub(crate) fn plus(number: u32, more: u32) -> Result<u32, AllocError>
    ensures { IfOk result (λ sum. sum ≡ number + more) }
{
    number.checked_add(more).ok_or(AllocError)
}

/// A count, where it has 32 bits.
pub(crate) fn narrow(count: usize) -> Result<u32, AllocError>
    ensures { IfOk result (λ same. same ≡ count) }
{
    u32::try_from(count).map_err(|_| AllocError)
}

/// The number at a place of a list.
pub(crate) fn at(numbers: &Ids, place: u32) -> u32
    ensures { result ≡ number_at numbers.now place }
{
    match numbers.get(place as usize) {
        None => 0,
        Some(number) => *number,
    }
}

impl Flow {
    /// The first row of what the objects of an atom hold.
    fn contents(&self, atom: u32) -> u32
        ensures { result ≡ contents_row (slice_get self.now.kinds atom) }
    {
        match self.kinds.get(atom as usize) {
            Some(Kind::Pair { row, .. }) => *row,
            Some(Kind::Vector { row, .. }) => *row,
            Some(Kind::Symbol { row }) => *row,
            _ => 0,
        }
    }

    /// The row of a part of an atom's objects.
    pub(crate) fn part(&self, atom: u32, place: u32) -> Result<u32, AllocError>
        ensures { IfOk result (λ row. row ≡ contents_row (slice_get self.now.kinds atom) + place) }
    {
        plus(self.contents(atom), place)
    }

    /// The variable that the continuations of an atom give its value.
    pub(crate) fn continuing(&self, atom: u32) -> u32
        ensures { result ≡ continuing (slice_get self.now.kinds atom) }
    {
        match self.kinds.get(atom as usize) {
            Some(Kind::Continuation { var }) => *var,
            _ => 0,
        }
    }

    /// The row of a variable.
    pub fn var(&self, var: u32) -> u32
        ensures { result ≡ number_at self.now.vars var }
    {
        at(&self.vars, var)
    }

    /// A row that stands behind the row of a variable.
    pub(crate) fn behind(&self, var: u32, place: u32) -> Result<u32, AllocError>
        ensures { IfOk result (λ row. row ≡ number_at self.now.vars var + place) }
    {
        plus(self.var(var), place)
    }

    /// The row that tells whether a block is reached.
    pub fn reach(&self, block: u32) -> u32
        ensures { result ≡ number_at self.now.blocks block }
    {
        at(&self.blocks, block)
    }
}
