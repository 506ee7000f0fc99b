//! Single instructions, numbers, and words of memory.

ghost use Rattle.std.specs.Prelude.{OnOk, pos};
ghost use Rattle.tail_codegen.specs.Items.{Puts};
ghost use Rattle.tail_codegen.specs.Items as items;

use const_data::Label;
use rv_asm::{Asm, AsmItem, Routine};
use rv_form::Instr;
use scheme_base::Pos;
use std::alloc::AllocError;

/// The register of the frame.
pub(crate) const FRAME: u8 = 8;
/// The register of the stack's end.
pub(crate) const STACK_END: u8 = 9;
/// The register of the low end of the objects that stay.
pub(crate) const LOW_END: u8 = 18;
/// The register of the argument words.
pub(crate) const ARGUMENTS: u8 = 19;
/// The register of the heap's start.
pub(crate) const HEAP: u8 = 20;

/// Puts an item at the end.
fn push(asm: &mut Asm, item: AsmItem) -> Result<(), AllocError>
    ensures { OnOk result (Puts asm.old asm.new (items.item item)) }
{
    asm.push(item)?;
    Ok(())
}

/// An instruction.
pub(crate) fn instruction(asm: &mut Asm, instr: Instr) -> Result<(), AllocError>
    ensures { OnOk result (Puts asm.old asm.new (items.code instr)) }
{
    push(asm, AsmItem::Code(instr))
}

/// The label of the place where the next item stands.
pub(crate) fn here(asm: &mut Asm, label: Label) -> Result<(), AllocError>
    ensures { OnOk result (Puts asm.old asm.new (items.here label)) }
{
    push(asm, AsmItem::Here(label))
}

/// The sum of a register and a small number.
pub(crate) fn add_small(asm: &mut Asm, rd: u8, rs1: u8, imm: i32) -> Result<(), AllocError>
    ensures { OnOk result (Puts asm.old asm.new (items.add_small rd rs1 imm)) }
{
    instruction(asm, Instr::Addi { rd, rs1, imm })?;
    Ok(())
}

/// Makes the word of a bare integer.
pub(crate) fn shift_left(asm: &mut Asm, reg: u8) -> Result<(), AllocError>
    ensures { OnOk result (Puts asm.old asm.new (items.code (Instr.Slli reg reg (pos 2)))) }
{
    instruction(
        asm,
        Instr::Slli {
            rd: reg,
            rs1: reg,
            imm: 2,
        },
    )?;
    Ok(())
}

/// Makes the bare integer of a word.
pub(crate) fn shift_right(asm: &mut Asm, reg: u8) -> Result<(), AllocError>
    ensures { OnOk result (Puts asm.old asm.new (items.code (Instr.Srai reg reg (pos 2)))) }
{
    instruction(
        asm,
        Instr::Srai {
            rd: reg,
            rs1: reg,
            imm: 2,
        },
    )?;
    Ok(())
}

/// The sum of two registers.
pub(crate) fn add(asm: &mut Asm, rd: u8, rs1: u8, rs2: u8) -> Result<(), AllocError>
    ensures { OnOk result (Puts asm.old asm.new (items.add rd rs1 rs2)) }
{
    instruction(asm, Instr::Add { rd, rs1, rs2 })
}

/// A number, from the pool where it is too large for an instruction.
pub(crate) fn number(asm: &mut Asm, reg: u8, number: u64) -> Result<(), AllocError>
    ensures { OnOk result (Puts asm.old asm.new (items.number reg number)) }
{
    if number < 2048 {
        add_small(asm, reg, 0, number as i32)?;
    } else {
        push(asm, AsmItem::Pool { reg, number })?;
    }
    Ok(())
}

/// A signed number, from the pool where it is too large for an instruction.
pub(crate) fn integer(asm: &mut Asm, reg: u8, value: i64) -> Result<(), AllocError>
    ensures { OnOk result (Puts asm.old asm.new (items.integer reg value)) }
{
    if value >= -2048 && value <= 2047 {
        add_small(asm, reg, 0, value as i32)?;
    } else {
        push(
            asm,
            AsmItem::Pool {
                reg,
                number: value.cast_unsigned(),
            },
        )?;
    }
    Ok(())
}

/// The position that an error names, in register 16.
pub(crate) fn position(asm: &mut Asm, pos: Pos) -> Result<(), AllocError>
    ensures { OnOk result (Puts asm.old asm.new (items.position pos)) }
{
    number(
        asm,
        16,
        u64::from(pos.line) * 4_294_967_296 + u64::from(pos.col),
    )
}

/// The address of a label, and `add` more.
pub(crate) fn address(asm: &mut Asm, reg: u8, label: Label, add: i64) -> Result<(), AllocError>
    ensures { OnOk result (Puts asm.old asm.new (items.address reg label add)) }
{
    push(asm, AsmItem::Address { reg, label, add })?;
    Ok(())
}

/// A jump for good.
pub(crate) fn go(asm: &mut Asm, label: Label) -> Result<(), AllocError>
    ensures { OnOk result (Puts asm.old asm.new (items.go label)) }
{
    push(asm, AsmItem::Jump { link: 0, label })
}

/// The call of a routine.
pub(crate) fn perform(asm: &mut Asm, routine: Routine) -> Result<(), AllocError>
    ensures { OnOk result (Puts asm.old asm.new (items.perform routine)) }
{
    push(
        asm,
        AsmItem::Jump {
            link: 1,
            label: routine.label(),
        },
    )
}

/// The call of a routine that keeps register 1.
pub(crate) fn perform_aside(asm: &mut Asm, routine: Routine) -> Result<(), AllocError>
    ensures { OnOk result (Puts asm.old asm.new (items.perform_aside routine)) }
{
    push(
        asm,
        AsmItem::Jump {
            link: 28,
            label: routine.label(),
        },
    )
}

/// The word at an offset from a register.
pub(crate) fn load(asm: &mut Asm, rd: u8, base: u8, offset: u64) -> Result<(), AllocError>
    ensures { OnOk result (Puts asm.old asm.new (items.load rd base offset)) }
{
    if offset < 2048 {
        instruction(
            asm,
            Instr::Ld {
                rd,
                rs1: base,
                imm: offset as i32,
            },
        )?;
    } else {
        number(asm, 29, offset)?;
        add(asm, 29, 29, base)?;
        instruction(
            asm,
            Instr::Ld {
                rd,
                rs1: 29,
                imm: 0,
            },
        )?;
    }
    Ok(())
}

/// Puts a register into the word at an offset from another.
pub(crate) fn store(asm: &mut Asm, from: u8, base: u8, offset: u64) -> Result<(), AllocError>
    ensures { OnOk result (Puts asm.old asm.new (items.store from base offset)) }
{
    if offset < 2048 {
        instruction(
            asm,
            Instr::Sd {
                rs1: base,
                rs2: from,
                imm: offset as i32,
            },
        )?;
    } else {
        number(asm, 29, offset)?;
        add(asm, 29, 29, base)?;
        instruction(
            asm,
            Instr::Sd {
                rs1: 29,
                rs2: from,
                imm: 0,
            },
        )?;
    }
    Ok(())
}
