//! The data words of a program.

ghost use Rattle.std.specs.Prelude.{◌≡◌, ◌∷◌, [], ◌++◌, ◌+◌, ◌*◌, ◌<◌, length, map, replicate, slice_get, Some, IfOk, OnOk};
ghost use Rattle.flat_form.specs.FlatWritten.{form, procedure as procedure_of};
ghost use Rattle.const_data.specs.Words as spec;

use crate::arguments::argument_words;
use crate::offsets::{ARGUMENTS, Offsets, count, sum};
use crate::word::{Data, Label, Word};
use flat_form::{Flat, FlatProc};
use scheme_base::Lit;
use std::alloc::{AllocError, Global};

/// The word of a top-level variable that is not defined yet.
const UNBOUND: u64 = 25;

/// No byte has been looked at.
const NO_LOOK_AHEAD: u64 = u64::MAX;

/// There is no greatest count of operands.
const ANY_COUNT: u64 = u64::MAX;

/// The tag of a pair's address.
const PAIR_TAG: u64 = 2;

/// The tag of the address of any other object.
const OBJECT_TAG: u64 = 3;

/// The header of a symbol.
const SYMBOL: u64 = 3;

/// The data words of a program before its pool: support words, argument words, cells, descriptors, static
/// closures, then the objects of the literals, the symbols first.
pub fn static_words(alloc: Global, flat: &Flat) -> Result<Data, AllocError>
    ensures { IfOk result (λ words. words ≡ spec.data_words (form flat.now)) }
{
    let offsets = Offsets::of(alloc, flat)?;
    let mut words = Data::new(alloc);
    put_fixed(&mut words, flat, &offsets)?;
    put_symbols(&mut words, flat, &offsets)?;
    put_objects(&mut words, flat, &offsets)?;
    Ok(words)
}

/// Puts the words that every program has at the end: all but those of its literals.
fn put_fixed(words: &mut Data, flat: &Flat, offsets: &Offsets) -> Result<(), AllocError>
    requires { offsets.now ≡ spec.offsets_of (form flat.now) }
    ensures { OnOk result (words.new ≡ words.old ++ spec.fixed_words (form flat.now)) }
{
    words.push(Word::Number(NO_LOOK_AHEAD))?;
    put_copies(words, ARGUMENTS - 1, 0)?;
    put_copies(words, argument_words(flat)?, 0)?;
    put_copies(words, flat.cells.tops, UNBOUND)?;
    put_copies(words, flat.cells.globals, 0)?;
    put_descriptors(words, flat.procs.as_slice())?;
    put_closures(words, flat, offsets)?;
    Ok(())
}

/// Puts so many copies of a number at the end.
fn put_copies(words: &mut Data, count: u32, number: u64) -> Result<(), AllocError>
    ensures { OnOk result (words.new ≡ words.old ++ replicate count (Word.Number number)) }
{
    for _copy in 0..count {
        words.push(Word::Number(number))?;
    }
    Ok(())
}

/// Puts the descriptors of procedures at the end, which are numbered from 0.
fn put_descriptors(words: &mut Data, procs: &[FlatProc]) -> Result<(), AllocError>
    ensures { OnOk result (words.new ≡ words.old ++ spec.all_descriptors 0 (map procedure_of procs.now)) }
{
    let mut proc = 0;
    let mut left = procs;
    while let Some((procedure, others)) = left.split_first() {
        put_descriptor(words, proc, procedure)?;
        proc = sum(proc, 1)?;
        left = others;
    }
    Ok(())
}

/// Puts the descriptor of a procedure at the end: where it is entered with operands and with a list, and how
/// many operands it takes.
fn put_descriptor(words: &mut Data, proc: u32, procedure: &FlatProc) -> Result<(), AllocError>
    ensures { OnOk result (words.new ≡ words.old ++ spec.descriptor proc (procedure_of procedure.now)) }
{
    words.push(entry(proc, procedure, false))?;
    words.push(entry(proc, procedure, true))?;
    words.push(Word::Number(u64::from(procedure.least)))?;
    words.push(Word::Number(greatest_count(procedure.greatest)))?;
    Ok(())
}

/// Where a procedure is entered. One that is never reached has no entry, and nothing enters the program with
/// a list.
fn entry(proc: u32, procedure: &FlatProc, list: bool) -> Word
    ensures { result ≡ spec.entry_word proc (procedure_of procedure.now) list }
{
    if procedure.reached && !(list && proc == 0) {
        let part = 0;
        Word::Address {
            label: Label::Entry { proc, part, list },
            add: 0,
        }
    } else {
        Word::Number(0)
    }
}

/// The word of a greatest count of operands.
fn greatest_count(greatest: Option<u32>) -> u64
    ensures { Word.Number result ≡ spec.count_word greatest }
{
    match greatest {
        None => ANY_COUNT,
        Some(greatest) => u64::from(greatest),
    }
}

/// Puts the static closure of each procedure at the end.
fn put_closures(words: &mut Data, flat: &Flat, offsets: &Offsets) -> Result<(), AllocError>
    requires { offsets.now ≡ spec.offsets_of (form flat.now) }
    ensures { OnOk result (words.new ≡ words.old ++ spec.all_closures (form flat.now) 0 (form flat.now).procs) }
{
    let mut proc = 0;
    let mut left = flat.procs.as_slice();
    while let Some((_, others)) = left.split_first() {
        let label = offsets.descriptor(proc)?;
        words.push(Word::Address { label, add: 0 })?;
        proc = sum(proc, 1)?;
        left = others;
    }
    Ok(())
}

/// Puts the symbols among the literals at the end, each with its name behind it.
fn put_symbols(words: &mut Data, flat: &Flat, offsets: &Offsets) -> Result<(), AllocError>
    requires offsets { offsets.now ≡ spec.offsets_of (form flat.now) }
    requires place { length words.old ≡ spec.literals_at (form flat.now) }
    ensures { OnOk result (words.new ≡ words.old ++ spec.all_symbols (form flat.now) 0 flat.now.lits) }
{
    let mut number = 0;
    for lit in flat.lits.as_slice() {
        put_if_first(words, flat, offsets, number, lit)?;
        number = sum(number, 1)?;
    }
    Ok(())
}

/// Puts a literal at the end where it is a symbol. One that repeats an earlier one's name is that one.
fn put_if_first(
    words: &mut Data,
    flat: &Flat,
    offsets: &Offsets,
    number: u32,
    lit: &Lit,
) -> Result<(), AllocError>
    requires offsets { offsets.now ≡ spec.offsets_of (form flat.now) }
    requires literal { slice_get flat.now.lits number ≡ Some lit.now }
    requires place { length words.old ≡ spec.symbol_at (form flat.now) number }
    ensures { OnOk result (words.new ≡ words.old ++ spec.symbol_words (form flat.now) number lit.now) }
{
    if let Lit::Symbol(name) = lit {
        let here = count(words.len())?;
        if offsets.object(number)? == here {
            put_symbol(words, here, name.as_slice())?;
        }
    }
    Ok(())
}

/// Puts a symbol of this name at the end, which is word `here`, and its name.
fn put_symbol(words: &mut Data, here: u32, name: &[u8]) -> Result<(), AllocError>
    ensures { OnOk result (words.new ≡ words.old ++ Word.Number 3 ∷ spec.tagged (here + 2) 3 ∷ spec.string_words name.now) }
{
    words.push(Word::Number(SYMBOL))?;
    words.push(Word::Address {
        label: Label::Word(sum(here, 2)?),
        add: OBJECT_TAG,
    })?;
    put_string(words, name)
}

/// Puts a string at the end.
fn put_string(words: &mut Data, bytes: &[u8]) -> Result<(), AllocError>
    ensures { OnOk result (words.new ≡ words.old ++ spec.string_words bytes.now) }
{
    put_header(words, bytes.len(), 1)?;
    for byte in bytes {
        words.push(Word::Number(character(*byte)))?;
    }
    Ok(())
}

/// Puts the header of an object of so many words at the end.
fn put_header(words: &mut Data, length: usize, tag: u64) -> Result<(), AllocError>
    requires { tag < 8 }
    ensures { OnOk result (words.new ≡ words.old ++ Word.Number (8 * length + tag) ∷ []) }
{
    let length = count(length)?;
    words.push(Word::Number(8 * u64::from(length) + tag))
}

/// Puts the pairs, strings and vectors among the literals at the end.
fn put_objects(words: &mut Data, flat: &Flat, offsets: &Offsets) -> Result<(), AllocError>
    requires { offsets.now ≡ spec.offsets_of (form flat.now) }
    ensures { OnOk result (words.new ≡ words.old ++ spec.all_objects (form flat.now) flat.now.lits) }
{
    let mut left = flat.lits.as_slice();
    while let Some((lit, others)) = left.split_first() {
        put_object(words, flat, offsets, lit)?;
        left = others;
    }
    Ok(())
}

/// Puts a literal at the end where it is a pair, a string or a vector.
fn put_object(words: &mut Data, flat: &Flat, offsets: &Offsets, lit: &Lit) -> Result<(), AllocError>
    requires { offsets.now ≡ spec.offsets_of (form flat.now) }
    ensures { OnOk result (words.new ≡ words.old ++ spec.object_words (form flat.now) lit.now) }
{
    match lit {
        Lit::Text(bytes) => put_string(words, bytes.as_slice())?,
        Lit::Pair(car, cdr) => {
            words.push(literal_word(flat, offsets, *car)?)?;
            words.push(literal_word(flat, offsets, *cdr)?)?;
        }
        Lit::Vector(items) => {
            put_header(words, items.len(), 2)?;
            put_items(words, flat, offsets, items.as_slice())?;
        }
        _ => {}
    }
    Ok(())
}

/// Puts the words of the literals of these numbers at the end.
fn put_items(
    words: &mut Data,
    flat: &Flat,
    offsets: &Offsets,
    items: &[u32],
) -> Result<(), AllocError>
    requires { offsets.now ≡ spec.offsets_of (form flat.now) }
    ensures { OnOk result (words.new ≡ words.old ++ map (spec.literal_word (form flat.now)) items.now) }
{
    for item in items {
        words.push(literal_word(flat, offsets, *item)?)?;
    }
    Ok(())
}

/// The word of a literal: its number, or the address of its object with its tag.
fn literal_word(flat: &Flat, offsets: &Offsets, number: u32) -> Result<Word, AllocError>
    requires { offsets.now ≡ spec.offsets_of (form flat.now) }
    ensures { IfOk result (λ word. word ≡ spec.literal_word (form flat.now) number) }
{
    let Some(lit) = flat.lits.get(number as usize) else {
        return Err(AllocError);
    };
    match lit {
        Lit::Integer(n) => Ok(Word::Number(n.wrapping_mul(4).cast_unsigned())),
        Lit::Boolean(false) => Ok(Word::Number(1)),
        Lit::Boolean(true) => Ok(Word::Number(5)),
        Lit::Char(byte) => Ok(Word::Number(character(*byte))),
        Lit::Nil => Ok(Word::Number(9)),
        Lit::Unspecified => Ok(Word::Number(13)),
        Lit::Undefined => Ok(Word::Number(21)),
        Lit::Pair(_, _) => object_word(flat, offsets, number, lit, PAIR_TAG),
        Lit::Symbol(_) => object_word(flat, offsets, number, lit, OBJECT_TAG),
        Lit::Text(_) => object_word(flat, offsets, number, lit, OBJECT_TAG),
        Lit::Vector(_) => object_word(flat, offsets, number, lit, OBJECT_TAG),
    }
}

/// The address of a literal's object with its tag.
fn object_word(
    flat: &Flat,
    offsets: &Offsets,
    number: u32,
    lit: &Lit,
    tag: u64,
) -> Result<Word, AllocError>
    requires offsets { offsets.now ≡ spec.offsets_of (form flat.now) }
    requires literal { slice_get flat.now.lits number ≡ Some lit.now }
    requires tag { spec.value_word (form flat.now) number (Some lit.now) ≡ spec.tagged (spec.place_of (form flat.now) number lit.now) tag }
    ensures { IfOk result (λ word. word ≡ spec.literal_word (form flat.now) number) }
{
    let label = offsets.literal(number)?;
    Ok(Word::Address { label, add: tag })
}

/// The word of a character.
fn character(byte: u8) -> u64
    ensures { result ≡ spec.character byte }
{
    32 * u64::from(byte) + 29
}
