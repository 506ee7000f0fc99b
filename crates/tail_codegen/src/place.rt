//! Values: of places, of literals, and of what is known without a run.

ghost use Rattle.std.specs.Prelude.{◌≡◌, OnOk};
ghost use Rattle.tail_codegen.specs.Items.{Puts};
ghost use Rattle.tail_codegen.specs.Values as values;
ghost use Rattle.tail_codegen.specs.Written.{unit as unit_of};

use crate::emit::{FRAME, address, integer, load, number, shift_left, shift_right, store};
use crate::unit::Unit;
use flat_form::{At, Place};
use rv_asm::Asm;
use scheme_base::{Lit, Stated};
use std::alloc::AllocError;

/// The offset of a slot in its frame.
fn slot_offset(slot: u32) -> u64
    ensures { result ≡ values.slot_offset slot }
{
    16 + 8 * u64::from(slot)
}

/// The word of a place as it stands there. A raw place has a bare integer.
pub(crate) fn get_bare(asm: &mut Asm, unit: &Unit, reg: u8, at: At) -> Result<(), AllocError>
    ensures { OnOk result (Puts asm.old asm.new (values.get_bare (unit_of unit.now) reg at)) }
{
    match at {
        At::Slot(slot) => load(asm, reg, FRAME, slot_offset(slot))?,
        At::Cell(cell) => {
            address(asm, 30, unit.offsets.cell(cell)?, 0)?;
            load(asm, reg, 30, 0)?;
        }
        At::Kept(kept) => {
            load(asm, 30, FRAME, 16)?;
            load(asm, reg, 30, 5 + 8 * u64::from(kept))?;
        }
        At::Stated(value) => stated(asm, unit, reg, value)?,
    }
    Ok(())
}

/// Puts a word into a place as it is.
pub(crate) fn put_bare(asm: &mut Asm, unit: &Unit, reg: u8, at: At) -> Result<(), AllocError>
    ensures { OnOk result (Puts asm.old asm.new (values.put_bare (unit_of unit.now) reg at)) }
{
    match at {
        At::Slot(slot) => store(asm, reg, FRAME, slot_offset(slot))?,
        At::Cell(cell) => {
            address(asm, 30, unit.offsets.cell(cell)?, 0)?;
            store(asm, reg, 30, 0)?;
        }
        At::Kept(_) => {}
        At::Stated(_) => {}
    }
    Ok(())
}

/// Whether a place has a bare integer. What a closure keeps is tagged.
pub(crate) fn is_raw(place: Place) -> bool
    ensures { result ≡ values.is_raw place }
{
    place.raw && has_variable(place.at)
}

/// Whether a place is a variable's own.
fn has_variable(at: At) -> bool
    ensures { result ≡ values.has_variable at }
{
    match at {
        At::Slot(_) | At::Cell(_) => true,
        At::Kept(_) | At::Stated(_) => false,
    }
}

/// Whether a place has a variable that is held as a bare integer where it has a place of its own.
pub(crate) fn is_integer(place: Place) -> bool
    ensures { result ≡ values.is_integer place }
{
    place.raw && is_held(place.at)
}

/// Whether a place has a variable's value, its own or one that the closure keeps.
fn is_held(at: At) -> bool
    ensures { result ≡ values.is_held at }
{
    match at {
        At::Slot(_) | At::Cell(_) | At::Kept(_) => true,
        At::Stated(_) => false,
    }
}

/// The value of a place.
pub(crate) fn get(asm: &mut Asm, unit: &Unit, reg: u8, place: Place) -> Result<(), AllocError>
    ensures { OnOk result (Puts asm.old asm.new (values.get (unit_of unit.now) reg place)) }
{
    get_bare(asm, unit, reg, place.at)?;
    if is_raw(place) {
        shift_left(asm, reg)?;
    }
    Ok(())
}

/// Puts a value into a place.
pub(crate) fn put(asm: &mut Asm, unit: &Unit, reg: u8, place: Place) -> Result<(), AllocError>
    ensures { OnOk result (Puts asm.old asm.new (values.put (unit_of unit.now) reg place)) }
{
    if is_raw(place) {
        shift_right(asm, reg)?;
    }
    put_bare(asm, unit, reg, place.at)?;
    Ok(())
}

/// The bare integer of a place.
pub(crate) fn get_integer(
    asm: &mut Asm,
    unit: &Unit,
    reg: u8,
    place: Place,
) -> Result<(), AllocError>
    ensures { OnOk result (Puts asm.old asm.new (values.get_integer (unit_of unit.now) reg place)) }
{
    get_bare(asm, unit, reg, place.at)?;
    if !is_raw(place) {
        shift_right(asm, reg)?;
    }
    Ok(())
}

/// A value that is known without a run.
fn stated(asm: &mut Asm, unit: &Unit, reg: u8, value: Stated) -> Result<(), AllocError>
    ensures { OnOk result (Puts asm.old asm.new (values.stated (unit_of unit.now) reg value)) }
{
    match value {
        Stated::False => number(asm, reg, 1)?,
        Stated::True => number(asm, reg, 5)?,
        Stated::Nil => number(asm, reg, 9)?,
        Stated::Unspecified => number(asm, reg, 13)?,
        Stated::Eof => number(asm, reg, 17)?,
        Stated::Closure(proc) => address(asm, reg, unit.offsets.closure(proc)?, 3)?,
    }
    Ok(())
}

/// A literal, as a bare integer in a raw place.
pub(crate) fn constant(asm: &mut Asm, unit: &Unit, lit: u32, to: Place) -> Result<(), AllocError>
    ensures { OnOk result (Puts asm.old asm.new (values.constant (unit_of unit.now) lit to)) }
{
    let Some(value) = unit.lits.get(lit as usize) else {
        return Err(AllocError);
    };
    if is_raw(to) {
        bare_literal(asm, unit, to, lit, value)?;
    } else {
        literal(asm, unit, 10, lit, value)?;
        put(asm, unit, 10, to)?;
    }
    Ok(())
}

/// A literal in a raw place.
fn bare_literal(
    asm: &mut Asm,
    unit: &Unit,
    to: Place,
    lit: u32,
    value: &Lit,
) -> Result<(), AllocError>
    ensures { OnOk result (Puts asm.old asm.new (values.bare_literal (unit_of unit.now) to lit value.now)) }
{
    match value {
        Lit::Integer(value) => {
            integer(asm, 10, *value)?;
            put_bare(asm, unit, 10, to.at)?;
        }
        _ => {
            literal(asm, unit, 10, lit, value)?;
            put(asm, unit, 10, to)?;
        }
    }
    Ok(())
}

/// The word of a literal.
fn literal(asm: &mut Asm, unit: &Unit, reg: u8, lit: u32, value: &Lit) -> Result<(), AllocError>
    ensures { OnOk result (Puts asm.old asm.new (values.literal (unit_of unit.now) reg lit value.now)) }
{
    match value {
        Lit::Integer(value) => {
            let Some(word) = value.checked_mul(4) else {
                return Err(AllocError);
            };
            integer(asm, reg, word)?;
        }
        Lit::Boolean(value) => number(asm, reg, if *value { 5 } else { 1 })?,
        Lit::Char(byte) => number(asm, reg, 29 + 32 * u64::from(*byte))?,
        Lit::Nil => number(asm, reg, 9)?,
        Lit::Unspecified => number(asm, reg, 13)?,
        Lit::Undefined => number(asm, reg, 21)?,
        Lit::Symbol(_) => address(asm, reg, unit.offsets.literal(lit)?, 3)?,
        Lit::Text(_) => address(asm, reg, unit.offsets.literal(lit)?, 3)?,
        Lit::Pair(_, _) => address(asm, reg, unit.offsets.literal(lit)?, 2)?,
        Lit::Vector(_) => address(asm, reg, unit.offsets.literal(lit)?, 3)?,
    }
    Ok(())
}

/// A value that is there, from a place to another; as a bare integer where both have one.
pub(crate) fn copy(asm: &mut Asm, unit: &Unit, from: Place, to: Place) -> Result<(), AllocError>
    ensures { OnOk result (Puts asm.old asm.new (values.copy (unit_of unit.now) from to)) }
{
    if is_raw(from) && is_raw(to) {
        get_bare(asm, unit, 10, from.at)?;
        put_bare(asm, unit, 10, to.at)?;
    } else {
        get(asm, unit, 10, from)?;
        put(asm, unit, 10, to)?;
    }
    Ok(())
}
