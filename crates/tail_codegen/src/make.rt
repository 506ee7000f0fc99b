//! Closures and boxes.

ghost use Rattle.std.specs.Prelude.{◌≡◌, ◌+◌, ◌*◌, OnOk, IfOk};
ghost use Rattle.tail_codegen.specs.Items.{Puts};
ghost use Rattle.tail_codegen.specs.Templates as templates;
ghost use Rattle.tail_codegen.specs.Written.{unit as unit_of};

use crate::emit::{add_small, address, number, perform, store};
use crate::place::{get, put};
use crate::unit::Unit;
use crate::variable::UNDEFINED;
use flat_form::{Made, Place};
use rv_asm::{Asm, Routine};
use scheme_base::Mark;
use std::alloc::AllocError;

/// A closure.
pub(crate) fn closure(asm: &mut Asm, unit: &Unit, made: &Made, to: Place) -> Result<(), AllocError>
    ensures { OnOk result (Puts asm.old asm.new (templates.closure (unit_of unit.now) made.now to)) }
{
    match made.mark {
        None => static_closure(asm, unit, made)?,
        Some(mark) => {
            empty_closure(asm, unit, made, mark)?;
            keep(asm, unit, made.kept.as_slice(), 8)?;
            add_small(asm, 10, 10, 3)?;
        }
    }
    put(asm, unit, 10, to)?;
    Ok(())
}

/// The one closure of a procedure that keeps nothing and is not told apart.
fn static_closure(asm: &mut Asm, unit: &Unit, made: &Made) -> Result<(), AllocError>
    ensures { OnOk result (Puts asm.old asm.new (templates.static_closure (unit_of unit.now) made.now)) }
{
    address(asm, 10, unit.offsets.closure(made.proc)?, 3)?;
    Ok(())
}

/// Room for a closure with the address of its procedure's descriptor. Register 10 has its address.
fn empty_closure(asm: &mut Asm, unit: &Unit, made: &Made, mark: Mark) -> Result<(), AllocError>
    ensures { OnOk result (Puts asm.old asm.new (templates.empty_closure (unit_of unit.now) made.now mark)) }
{
    number(asm, 10, closure_size(made.kept.len())?)?;
    perform(asm, Routine::New(mark))?;
    address(asm, 11, unit.offsets.descriptor(made.proc)?, 0)?;
    store(asm, 11, 10, 0)?;
    Ok(())
}

/// The bytes of a closure that keeps so many values.
fn closure_size(kept: usize) -> Result<u64, AllocError>
    ensures { IfOk result (λ size. size ≡ 8 * (1 + kept)) }
{
    match u32::try_from(kept) {
        Ok(kept) => Ok(8 * (1 + u64::from(kept))),
        Err(_) => Err(AllocError),
    }
}

/// The offset of the word behind the one at this offset.
pub(crate) fn next_word(offset: u64) -> Result<u64, AllocError>
    ensures { IfOk result (λ next. next ≡ offset + 8) }
{
    match offset.checked_add(8) {
        Some(next) => Ok(next),
        None => Err(AllocError),
    }
}

/// Puts the values that a closure keeps into its words, the first at an offset from register 10.
fn keep(asm: &mut Asm, unit: &Unit, kept: &[Place], first: u64) -> Result<(), AllocError>
    ensures { OnOk result (Puts asm.old asm.new (templates.keep (unit_of unit.now) kept.now first)) }
{
    let mut offset = first;
    let mut left = kept;
    while let Some((place, others)) = left.split_first() {
        get(asm, unit, 11, *place)?;
        store(asm, 11, 10, offset)?;
        offset = next_word(offset)?;
        left = others;
    }
    Ok(())
}

/// Closures that know each other: first all of them, then what each keeps.
pub(crate) fn fix(asm: &mut Asm, unit: &Unit, made: &[Made], to: &[Place]) -> Result<(), AllocError>
    ensures { OnOk result (Puts asm.old asm.new (templates.fix (unit_of unit.now) made.now to.now)) }
{
    empty_closures(asm, unit, made, to)?;
    fill_closures(asm, unit, made, to)?;
    Ok(())
}

/// Closures that know each other, before any of them keeps what it is to keep.
fn empty_closures(asm: &mut Asm, unit: &Unit, made: &[Made], to: &[Place]) -> Result<(), AllocError>
    ensures { OnOk result (Puts asm.old asm.new (templates.empty_closures (unit_of unit.now) made.now to.now)) }
{
    let mut closures = made;
    let mut places = to;
    while let Some((one, others)) = closures.split_first() {
        let Some((place, more)) = places.split_first() else {
            return Ok(());
        };
        tagged_closure(asm, unit, one)?;
        put(asm, unit, 10, *place)?;
        closures = others;
        places = more;
    }
    Ok(())
}

/// A closure that keeps nothing yet, as a value.
fn tagged_closure(asm: &mut Asm, unit: &Unit, made: &Made) -> Result<(), AllocError>
    ensures { OnOk result (Puts asm.old asm.new (templates.empty_in (unit_of unit.now) made.now made.now.mark)) }
{
    match made.mark {
        None => static_closure(asm, unit, made)?,
        Some(mark) => {
            empty_closure(asm, unit, made, mark)?;
            add_small(asm, 10, 10, 3)?;
        }
    }
    Ok(())
}

/// What closures that know each other keep.
fn fill_closures(asm: &mut Asm, unit: &Unit, made: &[Made], to: &[Place]) -> Result<(), AllocError>
    ensures { OnOk result (Puts asm.old asm.new (templates.fill_closures (unit_of unit.now) made.now to.now)) }
{
    let mut closures = made;
    let mut places = to;
    while let Some((one, others)) = closures.split_first() {
        let Some((place, more)) = places.split_first() else {
            return Ok(());
        };
        fill(asm, unit, one.kept.as_slice(), *place)?;
        closures = others;
        places = more;
    }
    Ok(())
}

/// What the closure in a place keeps.
fn fill(asm: &mut Asm, unit: &Unit, kept: &[Place], place: Place) -> Result<(), AllocError>
    ensures { OnOk result (Puts asm.old asm.new (templates.filled (unit_of unit.now) kept.now place)) }
{
    if !kept.is_empty() {
        get(asm, unit, 10, place)?;
        keep(asm, unit, kept, 5)?;
    }
    Ok(())
}

/// A box that holds the value of a place.
pub(crate) fn full_box(
    asm: &mut Asm,
    unit: &Unit,
    from: Place,
    mark: Mark,
    to: Place,
) -> Result<(), AllocError>
    ensures { OnOk result (Puts asm.old asm.new (templates.full_box (unit_of unit.now) from mark to)) }
{
    number(asm, 10, 8)?;
    perform(asm, Routine::New(mark))?;
    get(asm, unit, 11, from)?;
    store(asm, 11, 10, 0)?;
    put(asm, unit, 10, to)?;
    Ok(())
}

/// A box that holds no value yet.
pub(crate) fn empty_box(asm: &mut Asm, unit: &Unit, mark: Mark, to: Place) -> Result<(), AllocError>
    ensures { OnOk result (Puts asm.old asm.new (templates.empty_box (unit_of unit.now) mark to)) }
{
    number(asm, 10, 8)?;
    perform(asm, Routine::New(mark))?;
    number(asm, 11, UNDEFINED)?;
    store(asm, 11, 10, 0)?;
    put(asm, unit, 10, to)?;
    Ok(())
}
