//! What rows hold.

ghost use Rattle.std.specs.Prelude.{◌≡◌, ◌+◌, ◌*◌, ◌++◌, ◌∷◌, [], slice_get, IfOk, OnOk, if◌then◌else◌};
ghost use Rattle.std.specs.List.{filter};
ghost use Rattle.named_form.specs.Valid.{numbers_from};
ghost use Rattle.plan_facts.specs.Pairs.{holds, is_blank, members_of};

use flow_form::Rows;
use scheme_base::{Ids, List};
use std::alloc::{AllocError, Global};

/// Whether a row has an atom. What is past the end of the rows has none.
pub fn holds(rows: &Rows, row: u32, atom: u32) -> bool
    ensures { result ≡ holds rows.now row atom }
{
    let at = atom / 64;
    if at >= rows.stride {
        return false;
    }
    match rows
        .words
        .get(row as usize * rows.stride as usize + at as usize)
    {
        None => false,
        Some(word) => (*word >> (atom % 64)) & 1 == 1,
    }
}

/// The atoms of a row, in order. A word that is 0 is passed over.
pub fn members(alloc: Global, rows: &Rows, row: u32) -> Result<Ids, AllocError>
    ensures { IfOk result (λ atoms. atoms ≡ members_of rows.now row) }
{
    let mut atoms = List::new(alloc);
    for at in 0..rows.stride {
        put_word(&mut atoms, rows, row, at)?;
    }
    Ok(atoms)
}

/// Puts the atoms of a row whose bits are in this word of it at the end of a list.
fn put_word(atoms: &mut Ids, rows: &Rows, row: u32, at: u32) -> Result<(), AllocError>
    ensures { OnOk result (atoms.new ≡ atoms.old ++ filter (holds rows.now row) (numbers_from (at * 64) 64)) }
{
    if is_blank(rows, row, at) {
        return Ok(());
    }
    let first = first_atom(at)?;
    let past = past_word(first)?;
    for atom in first..past {
        put_member(atoms, rows, row, atom)?;
    }
    Ok(())
}

/// The first atom that has its bit in a word.
fn first_atom(word: u32) -> Result<u32, AllocError>
    ensures { IfOk result (λ atom. atom ≡ word * 64) }
{
    word.checked_mul(64).ok_or(AllocError)
}

/// The atom after those of the word that begins with this one.
fn past_word(first: u32) -> Result<u32, AllocError>
    ensures { IfOk result (λ atom. atom ≡ first + 64) }
{
    first.checked_add(64).ok_or(AllocError)
}

/// Whether no bit is in this word of a row.
fn is_blank(rows: &Rows, row: u32, at: u32) -> bool
    ensures { result ≡ is_blank (slice_get rows.now.words (row * rows.now.stride + at)) }
{
    match rows
        .words
        .get(row as usize * rows.stride as usize + at as usize)
    {
        None => true,
        Some(word) => *word == 0,
    }
}

/// Puts an atom at the end of a list, if it is in a row.
fn put_member(atoms: &mut Ids, rows: &Rows, row: u32, atom: u32) -> Result<(), AllocError>
    ensures { OnOk result (atoms.new ≡ atoms.old ++ (if holds rows.now row atom then atom ∷ [] else [])) }
{
    if !holds(rows, row, atom) {
        return Ok(());
    }
    atoms.push(atom)
}
