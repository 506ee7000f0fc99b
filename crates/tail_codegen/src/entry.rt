//! The code of a procedure: how it is entered, and the bodies of its parts.

ghost use Rattle.std.specs.Prelude.{◌≡◌, ◌+◌, ◌*◌, [], map, OnOk, IfOk};
ghost use Rattle.flat_form.specs.FlatWritten.{part as part_of};
ghost use Rattle.tail_codegen.specs.Items.{Puts};
ghost use Rattle.tail_codegen.specs.Templates as templates;
ghost use Rattle.tail_codegen.specs.Written.{code_of, unit as unit_of};

use crate::block::{End, block};
use crate::emit::{
    ARGUMENTS, FRAME, LOW_END, STACK_END, add, add_small, go, here, instruction, load, number,
    perform, store,
};
use crate::make::next_word;
use crate::place::put;
use crate::unit::Unit;
use const_data::{Label, Offsets};
use flat_form::{Flat, FlatPart, Place};
use rv_asm::{Asm, Routine};
use rv_form::Instr;
use scheme_base::Mark;
use std::alloc::{AllocError, Global};

/// The code of the procedure of this number, which is empty where the procedure is never reached.
pub fn code(alloc: Global, flat: &Flat, proc: u32) -> Result<Asm, AllocError> {
    let offsets = Offsets::of(alloc, flat)?;
    code_at(alloc, flat, &offsets, proc)
}

/// The code of the procedure of this number in a program whose data words stand at these offsets.
pub fn code_at(alloc: Global, flat: &Flat, offsets: &Offsets, proc: u32) -> Result<Asm, AllocError>
    ensures { IfOk result (λ asm. asm ≡ code_of flat.now offsets.now proc) }
{
    let Some(procedure) = flat.procs.get(proc as usize) else {
        return Err(AllocError);
    };
    let unit = Unit {
        proc,
        capturing: procedure.capturing,
        frame: frame_size(procedure.slots),
        lits: &flat.lits,
        offsets,
    };
    procedure_code(alloc, &unit, procedure.parts.as_slice())
}

/// The bytes of a frame of so many slots, with its return address and the caller's frame.
fn frame_size(slots: u32) -> u64
    ensures { result ≡ 8 * (2 + slots) }
{
    8 * (2 + u64::from(slots))
}

/// The code of a procedure of these parts.
#[tactic(auto, using(crate::proofs::Linked::whole))]
fn procedure_code(alloc: Global, unit: &Unit, parts: &[FlatPart]) -> Result<Asm, AllocError>
    ensures { IfOk result (λ asm. asm ≡ templates.parts (unit_of unit.now) (map part_of parts.now) []) }
{
    let mut asm = Asm::new(alloc);
    put_parts(&mut asm, unit, parts)?;
    Ok(asm)
}

/// The parts of a procedure.
fn put_parts(asm: &mut Asm, unit: &Unit, parts: &[FlatPart]) -> Result<(), AllocError>
    ensures { OnOk result (Puts asm.old asm.new (templates.parts (unit_of unit.now) (map part_of parts.now))) }
{
    if let Some((first, others)) = parts.split_first() {
        let mut labels = 0;
        entries(asm, unit, first)?;
        body(asm, unit, &mut labels, 0, first)?;
        inner_parts(asm, unit, &mut labels, others)?;
    }
    Ok(())
}

/// The body of a part.
fn body(
    asm: &mut Asm,
    unit: &Unit,
    labels: &mut u32,
    number: u32,
    part: &FlatPart,
) -> Result<(), AllocError>
    ensures items { OnOk result (Puts asm.old asm.new (templates.body (unit_of unit.now) labels.old number (part_of part.now))) }
    ensures labels { OnOk result (labels.new ≡ labels.old + templates.labels_in (part_of part.now).body) }
{
    here(asm, body_label(unit.proc, number))?;
    let end = if unit.proc == 0 {
        End::Finish
    } else {
        End::Return
    };
    block(asm, unit, labels, &part.body, end)?;
    Ok(())
}

/// The parts from the second one on: each has the frame that is there.
fn inner_parts(
    asm: &mut Asm,
    unit: &Unit,
    labels: &mut u32,
    parts: &[FlatPart],
) -> Result<(), AllocError>
    ensures { OnOk result (Puts asm.old asm.new (templates.inner_parts (unit_of unit.now) labels.old 1 (map part_of parts.now))) }
{
    let mut number = 1;
    let mut left = parts;
    while let Some((part, others)) = left.split_first() {
        here(asm, entry_label(unit.proc, number, false))?;
        take_arguments(asm, unit, part.params.as_slice())?;
        body(asm, unit, labels, number, part)?;
        number = next_number(number)?;
        left = others;
    }
    Ok(())
}

/// The number of the next part.
fn next_number(number: u32) -> Result<u32, AllocError>
    ensures { IfOk result (λ next. next ≡ number + 1) }
{
    match number.checked_add(1) {
        Some(next) => Ok(next),
        None => Err(AllocError),
    }
}

fn entry_label(proc: u32, part: u32, list: bool) -> Label
    ensures { result ≡ Label.Entry proc part list }
{
    Label::Entry { proc, part, list }
}

fn body_label(proc: u32, part: u32) -> Label
    ensures { result ≡ Label.Body proc part }
{
    Label::Body { proc, part }
}

/// The entries of a procedure: with its operands in the argument words, and, but for the program, in a list.
fn entries(asm: &mut Asm, unit: &Unit, part: &FlatPart) -> Result<(), AllocError>
    ensures { OnOk result (Puts asm.old asm.new (templates.entries (unit_of unit.now) (part_of part.now))) }
{
    first_entry(asm, unit, part)?;
    if unit.proc != 0 {
        list_entry(asm, unit, part)?;
    }
    Ok(())
}

/// The entry with the operands in the argument words.
fn first_entry(asm: &mut Asm, unit: &Unit, part: &FlatPart) -> Result<(), AllocError>
    ensures { OnOk result (Puts asm.old asm.new (templates.first_entry (unit_of unit.now) (part_of part.now))) }
{
    here(asm, entry_label(unit.proc, 0, false))?;
    new_frame(asm, unit)?;
    take_arguments(asm, unit, part.params.as_slice())?;
    rest_of_arguments(asm, unit, part.params.len(), part.rest_mark, part.rest)?;
    go(asm, body_label(unit.proc, 0))?;
    Ok(())
}

/// A list of the argument words past the parameters, for a rest parameter.
fn rest_of_arguments(
    asm: &mut Asm,
    unit: &Unit,
    count: usize,
    mark: Mark,
    rest: Option<Place>,
) -> Result<(), AllocError>
    ensures { OnOk result (Puts asm.old asm.new (templates.rest_of_arguments (unit_of unit.now) count mark rest)) }
{
    if let Some(place) = rest {
        number(asm, 12, count as u64)?;
        perform(asm, Routine::Rest(mark))?;
        put(asm, unit, 10, place)?;
    }
    Ok(())
}

/// The entry with the operands in a list.
fn list_entry(asm: &mut Asm, unit: &Unit, part: &FlatPart) -> Result<(), AllocError>
    ensures { OnOk result (Puts asm.old asm.new (templates.list_entry (unit_of unit.now) (part_of part.now))) }
{
    here(asm, entry_label(unit.proc, 0, true))?;
    new_frame(asm, unit)?;
    take_items(asm, unit, part.params.as_slice())?;
    rest_of_items(asm, unit, part.rest_mark, part.rest)?;
    go(asm, body_label(unit.proc, 0))?;
    Ok(())
}

/// A copy of the items of the list past the parameters, for a rest parameter.
fn rest_of_items(
    asm: &mut Asm,
    unit: &Unit,
    mark: Mark,
    rest: Option<Place>,
) -> Result<(), AllocError>
    ensures { OnOk result (Puts asm.old asm.new (templates.rest_of_items (unit_of unit.now) mark rest)) }
{
    if let Some(place) = rest {
        perform(asm, Routine::Copy(mark))?;
        put(asm, unit, 10, place)?;
    }
    Ok(())
}

/// A new frame, with the return address, the caller's frame and the closure.
fn new_frame(asm: &mut Asm, unit: &Unit) -> Result<(), AllocError>
    ensures { OnOk result (Puts asm.old asm.new (templates.new_frame (unit_of unit.now))) }
{
    room_for_frame(asm, unit)?;
    store(asm, 1, STACK_END, 0)?;
    store(asm, FRAME, STACK_END, 8)?;
    add_small(asm, FRAME, STACK_END, 0)?;
    add(asm, STACK_END, STACK_END, 6)?;
    store(asm, 10, FRAME, 16)?;
    Ok(())
}

/// The stop for storage where there is no room for a frame. Register 6 has its bytes.
fn room_for_frame(asm: &mut Asm, unit: &Unit) -> Result<(), AllocError>
    ensures { OnOk result (Puts asm.old asm.new (templates.room_for_frame (unit_of unit.now))) }
{
    instruction(
        asm,
        Instr::Sub {
            rd: 5,
            rs1: LOW_END,
            rs2: STACK_END,
        },
    )?;
    number(asm, 6, unit.frame)?;
    instruction(
        asm,
        Instr::Bgeu {
            rs1: 5,
            rs2: 6,
            imm: 12,
        },
    )?;
    go(asm, Routine::Storage.label())?;
    Ok(())
}

/// Puts the argument words into the parameters' places.
fn take_arguments(asm: &mut Asm, unit: &Unit, params: &[Place]) -> Result<(), AllocError>
    ensures { OnOk result (Puts asm.old asm.new (templates.take_arguments (unit_of unit.now) 0 params.now)) }
{
    let mut offset = 0;
    let mut left = params;
    while let Some((place, others)) = left.split_first() {
        load(asm, 12, ARGUMENTS, offset)?;
        put(asm, unit, 12, *place)?;
        offset = next_word(offset)?;
        left = others;
    }
    Ok(())
}

/// Puts the first items of a list into the parameters' places; register 13 has what is left of the list.
fn take_items(asm: &mut Asm, unit: &Unit, params: &[Place]) -> Result<(), AllocError>
    ensures { OnOk result (Puts asm.old asm.new (templates.take_items (unit_of unit.now) params.now)) }
{
    let mut left = params;
    while let Some((place, others)) = left.split_first() {
        item(asm, 12, -2)?;
        put(asm, unit, 12, *place)?;
        item(asm, 13, 6)?;
        left = others;
    }
    Ok(())
}

/// The word of the pair in register 13 at an offset from its tagged address.
fn item(asm: &mut Asm, rd: u8, imm: i32) -> Result<(), AllocError>
    ensures { OnOk result (Puts asm.old asm.new (templates.item rd imm)) }
{
    instruction(asm, Instr::Ld { rd, rs1: 13, imm })?;
    Ok(())
}
