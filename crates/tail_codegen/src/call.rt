//! Calls: operands, and what each mode does with the caller's frame.

ghost use Rattle.std.specs.Prelude.{◌≡◌, ◌+◌, OnOk};
ghost use Rattle.tail_codegen.specs.Items.{Puts};
ghost use Rattle.tail_codegen.specs.Templates as templates;
ghost use Rattle.tail_codegen.specs.Written.{known, unit as unit_of};

use crate::emit::{
    ARGUMENTS, FRAME, HEAP, STACK_END, add, add_small, address, go, here, instruction, load,
    number, perform, perform_aside, position, store,
};
use crate::make::next_word;
use crate::place::{get, put};
use crate::unit::{Spot, Unit, fresh_label};
use const_data::Label;
use flat_form::{Mode, Place};
use rv_asm::{Asm, Routine};
use rv_form::Instr;
use std::alloc::AllocError;

/// A procedure call with its operands.
pub(crate) fn call(
    asm: &mut Asm,
    unit: &Unit,
    labels: &mut u32,
    operator: Place,
    places: &[Place],
    mode: Mode,
    spot: Spot,
) -> Result<(), AllocError>
    ensures items { OnOk result (Puts asm.old asm.new (templates.call (unit_of unit.now) labels.old (known spot) operator places.now mode spot.to)) }
    ensures labels { OnOk result (labels.new ≡ labels.old + templates.labels_of_mode mode) }
{
    operands(asm, unit, places)?;
    match mode {
        Mode::Enter { part } => enter(asm, unit, part)?,
        _ => {
            get(asm, unit, 10, operator)?;
            number(asm, 11, places.len() as u64)?;
            position(asm, spot.pos)?;
            let checked = spot.checked;
            in_mode(asm, unit, labels, Routine::Call { checked }, mode, spot.to)?;
        }
    }
    Ok(())
}

/// Puts operands into the argument words.
fn operands(asm: &mut Asm, unit: &Unit, places: &[Place]) -> Result<(), AllocError>
    ensures { OnOk result (Puts asm.old asm.new (templates.operands_from (unit_of unit.now) 0 places.now)) }
{
    let mut offset = 0;
    let mut left = places;
    while let Some((place, others)) = left.split_first() {
        get(asm, unit, 10, *place)?;
        store(asm, 10, ARGUMENTS, offset)?;
        offset = next_word(offset)?;
        left = others;
    }
    Ok(())
}

/// A call with the items of a list.
pub(crate) fn call_with_list(
    asm: &mut Asm,
    unit: &Unit,
    labels: &mut u32,
    operator: Place,
    list: Place,
    mode: Mode,
    spot: Spot,
) -> Result<(), AllocError>
    ensures items { OnOk result (Puts asm.old asm.new (templates.call_with_list (unit_of unit.now) labels.old (known spot) operator list mode spot.to)) }
    ensures labels { OnOk result (labels.new ≡ labels.old + templates.labels_of_mode mode) }
{
    get(asm, unit, 10, operator)?;
    get(asm, unit, 13, list)?;
    position(asm, spot.pos)?;
    in_mode(asm, unit, labels, Routine::Apply, mode, spot.to)?;
    Ok(())
}

/// A call with the step's continuation.
pub(crate) fn call_with_continuation(
    asm: &mut Asm,
    unit: &Unit,
    labels: &mut u32,
    operator: Place,
    mode: Mode,
    spot: Spot,
) -> Result<(), AllocError>
    ensures items { OnOk result (Puts asm.old asm.new (templates.call_with_continuation (unit_of unit.now) labels.old (known spot) operator mode spot.to)) }
    ensures labels { OnOk result (labels.new ≡ labels.old + templates.labels_of_mode mode) }
{
    get(asm, unit, 10, operator)?;
    position(asm, spot.pos)?;
    let checked = spot.checked;
    in_mode(
        asm,
        unit,
        labels,
        Routine::CallCC { checked },
        mode,
        spot.to,
    )?;
    Ok(())
}

/// A call of a routine that enters a procedure, in its mode; the answer of one that comes back goes to
/// `to`.
fn in_mode(
    asm: &mut Asm,
    unit: &Unit,
    labels: &mut u32,
    routine: Routine,
    mode: Mode,
    to: Place,
) -> Result<(), AllocError>
    ensures items { OnOk result (Puts asm.old asm.new (templates.in_mode (unit_of unit.now) labels.old routine mode to)) }
    ensures labels { OnOk result (labels.new ≡ labels.old + templates.labels_of_mode mode) }
{
    match mode {
        Mode::Stack => {
            perform(asm, routine)?;
            put(asm, unit, 10, to)?;
        }
        Mode::StackTail => {
            leave(asm)?;
            go(asm, routine.label())?;
        }
        Mode::Record => {
            let back = fresh_label(unit.proc, labels)?;
            recorded(asm, unit, back, routine)?;
            put(asm, unit, 10, to)?;
        }
        Mode::RecordTail => {
            load(asm, FRAME, FRAME, 8)?;
            add_small(asm, STACK_END, HEAP, 0)?;
            go(asm, routine.label())?;
        }
        Mode::Enter { part } => enter(asm, unit, part)?,
    }
    Ok(())
}

/// Ends the frame: its return address and the caller's frame come back.
fn leave(asm: &mut Asm) -> Result<(), AllocError>
    ensures { OnOk result (Puts asm.old asm.new templates.leave) }
{
    load(asm, 1, FRAME, 0)?;
    add_small(asm, STACK_END, FRAME, 0)?;
    load(asm, FRAME, FRAME, 8)?;
    Ok(())
}

/// A call from a frame that is moved into a record, and made anew at the return, which has the label
/// `back`.
fn recorded(asm: &mut Asm, unit: &Unit, back: Label, routine: Routine) -> Result<(), AllocError>
    ensures { OnOk result (Puts asm.old asm.new (templates.recorded (unit_of unit.now) back routine)) }
{
    address(asm, 1, back, 0)?;
    number(asm, 15, unit.frame)?;
    perform_aside(asm, Routine::Save)?;
    go(asm, routine.label())?;
    here(asm, back)?;
    number(asm, 15, unit.frame)?;
    perform_aside(asm, Routine::Restore)?;
    Ok(())
}

/// A jump to another part of the procedure, in the same frame.
fn enter(asm: &mut Asm, unit: &Unit, part: u32) -> Result<(), AllocError>
    ensures { OnOk result (Puts asm.old asm.new (templates.enter (unit_of unit.now) part)) }
{
    number(asm, 30, unit.frame)?;
    add(asm, STACK_END, FRAME, 30)?;
    go(
        asm,
        Label::Entry {
            proc: unit.proc,
            part,
            list: false,
        },
    )?;
    Ok(())
}

/// The return of the value of a place to the caller.
pub(crate) fn give_back(asm: &mut Asm, unit: &Unit, value: Place) -> Result<(), AllocError>
    ensures { OnOk result (Puts asm.old asm.new (templates.give_back (unit_of unit.now) value)) }
{
    get(asm, unit, 10, value)?;
    if unit.capturing {
        load(asm, FRAME, FRAME, 8)?;
        load(asm, 5, FRAME, 0)?;
        jump_register(asm, 5)?;
    } else {
        leave(asm)?;
        jump_register(asm, 1)?;
    }
    Ok(())
}

/// A jump to the address in a register.
fn jump_register(asm: &mut Asm, reg: u8) -> Result<(), AllocError>
    ensures { OnOk result (Puts asm.old asm.new (templates.jump_register reg)) }
{
    instruction(
        asm,
        Instr::Jalr {
            rd: 0,
            rs1: reg,
            imm: 0,
        },
    )?;
    Ok(())
}
