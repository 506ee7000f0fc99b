//! Where the data words of a program stand: support words, argument words, cells, descriptors, static
//! closures, and the objects of the literals.

ghost use Rattle.std.specs.Prelude.{◌≡◌, ◌+◌, ◌*◌, ℕ, length, IfOk, slice_index};
ghost use Rattle.flat_form.specs.FlatCode.{Program};
ghost use Rattle.flat_form.specs.FlatWritten.{form};
ghost use Rattle.const_data.specs.Words.{literals_at, object_at, object_size, offsets_of, place_of, places_from};
ghost use Rattle.const_data.specs.Naming.{Knows};

use crate::Label;
use crate::arguments::argument_words;
use crate::names::Names;
use flat_form::Flat;
use scheme_base::{Ids, Lit};
use std::alloc::{AllocError, Global};

/// The number of the first argument word. The support words stand before it.
pub const ARGUMENTS: u32 = 16;

/// The numbers of the first words of a program's data, kind by kind.
#[derive(Debug, Drop)]
pub struct Offsets {
    cells: u32,
    descriptors: u32,
    closures: u32,
    /// The first word of each literal's object, by literal; 0 for a literal that is no object.
    literals: Ids,
}

impl Offsets {
    /// Where the data words of this program stand.
    pub fn of(alloc: Global, flat: &Flat) -> Result<Offsets, AllocError>
        ensures { IfOk result (λ offsets. offsets ≡ offsets_of (form flat.now)) }
    {
        let cells = sum(ARGUMENTS, argument_words(flat)?)?;
        let descriptors = sum(sum(cells, flat.cells.tops)?, flat.cells.globals)?;
        let procs = count(flat.procs.len())?;
        let closures = sum(descriptors, four_times(procs)?)?;
        let first = sum(closures, procs)?;
        let literals = literal_words(alloc, flat, first)?;
        Ok(Offsets {
            cells,
            descriptors,
            closures,
            literals,
        })
    }

    /// The cell of this number.
    pub fn cell(&self, number: u32) -> Result<Label, AllocError>
        ensures { IfOk result (λ label. label ≡ Label.Word (self.now.cells + number)) }
    {
        Ok(Label::Word(sum(self.cells, number)?))
    }

    /// The descriptor of a procedure, which has four words.
    pub fn descriptor(&self, proc: u32) -> Result<Label, AllocError>
        ensures { IfOk result (λ label. label ≡ Label.Word (self.now.descriptors + 4 * proc)) }
    {
        Ok(Label::Word(sum(self.descriptors, four_times(proc)?)?))
    }

    /// The static closure of a procedure, which has one word.
    pub fn closure(&self, proc: u32) -> Result<Label, AllocError>
        ensures { IfOk result (λ label. label ≡ Label.Word (self.now.closures + proc)) }
    {
        Ok(Label::Word(sum(self.closures, proc)?))
    }

    /// The object of a literal symbol, string, pair or vector.
    pub fn literal(&self, lit: u32) -> Result<Label, AllocError>
        ensures { IfOk result (λ label. label ≡ Label.Word (slice_index self.now.literals lit)) }
    {
        Ok(Label::Word(self.object(lit)?))
    }

    /// The first word of the object of a literal symbol, string, pair or vector.
    pub(crate) fn object(&self, lit: u32) -> Result<u32, AllocError>
        ensures { IfOk result (λ word. word ≡ slice_index self.now.literals lit) }
    {
        match self.literals.get(lit as usize) {
            Some(word) => Ok(*word),
            None => Err(AllocError),
        }
    }
}

/// A sum of counts. Words are named by 32 bits, and no program within the limits has more.
pub(crate) fn sum(a: u32, b: u32) -> Result<u32, AllocError>
    ensures { IfOk result (λ sum. sum ≡ a + b) }
{
    match a.checked_add(b) {
        Some(sum) => Ok(sum),
        None => Err(AllocError),
    }
}

/// The words of as many descriptors.
fn four_times(procs: u32) -> Result<u32, AllocError>
    ensures { IfOk result (λ words. words ≡ 4 * procs) }
{
    match procs.checked_mul(4) {
        Some(words) => Ok(words),
        None => Err(AllocError),
    }
}

/// A count of things that 32 bits name.
pub(crate) fn count(len: usize) -> Result<u32, AllocError>
    ensures { IfOk result (λ count. count ≡ len) }
{
    match u32::try_from(len) {
        Ok(count) => Ok(count),
        Err(_) => Err(AllocError),
    }
}

/// The first words of the literals' objects, where the first object stands at `first`: the symbols, each
/// with its name behind it, then all else, by number.
fn literal_words(alloc: Global, flat: &Flat, first: u32) -> Result<Ids, AllocError>
    requires { first ≡ literals_at (form flat.now) }
    ensures { IfOk result (λ words. words ≡ places_from (form flat.now) 0 flat.now.lits) }
{
    let names = Names::of(alloc, &flat.lits, first)?;
    let mut words = Ids::new(alloc);
    let mut next = names.next;
    for lit in flat.lits.as_slice() {
        words.push(first_word(&names, lit, next)?)?;
        next = sum(next, object_words(lit)?)?;
    }
    Ok(words)
}

/// The first word of a literal's object, where the next object that is no symbol stands at `next`; 0 for a
/// literal that is no object.
fn first_word(names: &Names, lit: &Lit, next: u32) -> Result<u32, AllocError>
    ensures { IfOk result (λ word. (f : Program) (i : ℕ) → Knows (literals_at f) f.lits (length f.lits) names.now → next ≡ object_at f i → word ≡ place_of f i lit.now) }
{
    match lit {
        Lit::Symbol(name) => names.word(name.as_slice()),
        Lit::Text(_) | Lit::Pair(_, _) | Lit::Vector(_) => Ok(next),
        _ => Ok(0),
    }
}

/// How many words the object of a literal string, pair or vector has.
fn object_words(lit: &Lit) -> Result<u32, AllocError>
    ensures { IfOk result (λ words. words ≡ object_size lit.now) }
{
    match lit {
        Lit::Pair(_, _) => Ok(2),
        Lit::Text(bytes) => sum(1, count(bytes.len())?),
        Lit::Vector(items) => sum(1, count(items.len())?),
        _ => Ok(0),
    }
}
