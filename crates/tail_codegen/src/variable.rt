//! Boxed and top-level variables.

ghost use Rattle.std.specs.Prelude.{OnOk};
ghost use Rattle.tail_codegen.specs.Items.{Puts};
ghost use Rattle.tail_codegen.specs.Templates as templates;
ghost use Rattle.tail_codegen.specs.Written.{known, unit as unit_of};

use crate::emit::{address, load, number, position, store};
use crate::operation::refuse_word;
use crate::place::{get, put};
use crate::unit::{Spot, Unit};
use flat_form::Place;
use rv_asm::Asm;
use scheme_base::ErrKind;
use std::alloc::AllocError;

/// The word of a variable that has no value yet.
pub(crate) const UNDEFINED: u64 = 21;

/// The word of a top-level variable that is not defined yet.
const UNBOUND: u64 = 25;

/// The word of the value of what has no other value.
const UNSPECIFIED: u64 = 13;

/// The value of a boxed variable.
pub(crate) fn unbox(
    asm: &mut Asm,
    unit: &Unit,
    boxed: Place,
    checked: bool,
    spot: Spot,
) -> Result<(), AllocError>
    ensures { OnOk result (Puts asm.old asm.new (templates.unbox (unit_of unit.now) (known spot) boxed checked spot.to)) }
{
    get(asm, unit, 10, boxed)?;
    load(asm, 10, 10, 0)?;
    check_word(asm, checked, spot, UNDEFINED, ErrKind::Undefined)?;
    put(asm, unit, 10, spot.to)?;
    Ok(())
}

/// An assignment of a boxed variable.
pub(crate) fn set_box(
    asm: &mut Asm,
    unit: &Unit,
    boxed: Place,
    from: Place,
    to: Place,
) -> Result<(), AllocError>
    ensures { OnOk result (Puts asm.old asm.new (templates.set_box (unit_of unit.now) boxed from to)) }
{
    get(asm, unit, 10, from)?;
    get(asm, unit, 11, boxed)?;
    store(asm, 10, 11, 0)?;
    unspecified(asm, unit, to)?;
    Ok(())
}

/// The value of a top-level variable.
pub(crate) fn top_get(
    asm: &mut Asm,
    unit: &Unit,
    top: u32,
    checked: bool,
    spot: Spot,
) -> Result<(), AllocError>
    ensures { OnOk result (Puts asm.old asm.new (templates.top_get (unit_of unit.now) (known spot) top checked spot.to)) }
{
    top_value(asm, unit, top, checked, spot)?;
    put(asm, unit, 10, spot.to)?;
    Ok(())
}

/// An assignment of a top-level variable.
pub(crate) fn top_set(
    asm: &mut Asm,
    unit: &Unit,
    top: u32,
    from: Place,
    checked: bool,
    spot: Spot,
) -> Result<(), AllocError>
    ensures { OnOk result (Puts asm.old asm.new (templates.top_set (unit_of unit.now) (known spot) top from checked spot.to)) }
{
    if checked {
        top_value(asm, unit, top, true, spot)?;
    }
    top_define(asm, unit, top, from, spot.to)?;
    Ok(())
}

/// A definition of a top-level variable.
pub(crate) fn top_define(
    asm: &mut Asm,
    unit: &Unit,
    top: u32,
    from: Place,
    to: Place,
) -> Result<(), AllocError>
    ensures { OnOk result (Puts asm.old asm.new (templates.top_define (unit_of unit.now) top from to)) }
{
    get(asm, unit, 10, from)?;
    address(asm, 30, unit.offsets.cell(top)?, 0)?;
    store(asm, 10, 30, 0)?;
    unspecified(asm, unit, to)?;
    Ok(())
}

/// The word of a top-level variable in register 10, which is refused where it is checked and has none.
fn top_value(
    asm: &mut Asm,
    unit: &Unit,
    top: u32,
    checked: bool,
    spot: Spot,
) -> Result<(), AllocError>
    ensures { OnOk result (Puts asm.old asm.new (templates.top_value (unit_of unit.now) (known spot) top checked)) }
{
    address(asm, 30, unit.offsets.cell(top)?, 0)?;
    load(asm, 10, 30, 0)?;
    check_word(asm, checked, spot, UNBOUND, ErrKind::Unbound)?;
    Ok(())
}

/// Where a variable is checked, an error where register 10 has the word that stands for no value.
fn check_word(
    asm: &mut Asm,
    checked: bool,
    spot: Spot,
    word: u64,
    kind: ErrKind,
) -> Result<(), AllocError>
    ensures { OnOk result (Puts asm.old asm.new (templates.check_word checked (known spot) word kind)) }
{
    if checked {
        position(asm, spot.pos)?;
        refuse_word(asm, word, kind)?;
    }
    Ok(())
}

/// The answer of an assignment.
fn unspecified(asm: &mut Asm, unit: &Unit, to: Place) -> Result<(), AllocError>
    ensures { OnOk result (Puts asm.old asm.new (templates.unspecified (unit_of unit.now) to)) }
{
    number(asm, 10, UNSPECIFIED)?;
    put(asm, unit, 10, to)?;
    Ok(())
}
