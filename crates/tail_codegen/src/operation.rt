//! Primitive operations: by their routines, and on bare integers in place.

ghost use Rattle.std.specs.Prelude.{◌≡◌, OnOk, pos};
ghost use Rattle.tail_codegen.specs.Items.{Puts};
ghost use Rattle.tail_codegen.specs.Items as items;
ghost use Rattle.tail_codegen.specs.Templates as templates;
ghost use Rattle.tail_codegen.specs.Written.{known, unit as unit_of};

use crate::emit::{go, instruction, number, perform, position};
use crate::place::{get, get_integer, is_integer, is_raw, put, put_bare};
use crate::unit::{Spot, Unit};
use flat_form::Place;
use rv_asm::{Asm, Routine};
use rv_form::Instr;
use scheme_base::{ErrKind, Mark, Op};
use std::alloc::AllocError;

/// A primitive operation of places.
pub(crate) fn operation(
    asm: &mut Asm,
    unit: &Unit,
    op: Op,
    places: &[Place],
    mark: Option<Mark>,
    spot: Spot,
) -> Result<(), AllocError>
    ensures { OnOk result (Puts asm.old asm.new (templates.operation (unit_of unit.now) (known spot) op places.now mark spot.to)) }
{
    match places {
        [first, second]
            if is_integer(*first) && is_integer(*second) && on_integers(op, is_raw(spot.to)) => {
            on_raw(asm, unit, op, *first, *second, spot)?;
        }
        _ => by_routine(asm, unit, op, places, mark, spot)?,
    }
    Ok(())
}

/// An operation by its routine.
fn by_routine(
    asm: &mut Asm,
    unit: &Unit,
    op: Op,
    places: &[Place],
    mark: Option<Mark>,
    spot: Spot,
) -> Result<(), AllocError>
    ensures { OnOk result (Puts asm.old asm.new (templates.by_routine (unit_of unit.now) (known spot) op places.now mark spot.to)) }
{
    load_operands(asm, unit, places)?;
    position(asm, spot.pos)?;
    let checked = spot.checked;
    perform(asm, Routine::Operation { op, checked, mark })?;
    put(asm, unit, 10, spot.to)?;
    Ok(())
}

/// Gets operands into registers 10 and on.
fn load_operands(asm: &mut Asm, unit: &Unit, places: &[Place]) -> Result<(), AllocError>
    ensures { OnOk result (Puts asm.old asm.new (templates.load_operands (unit_of unit.now) places.now)) }
{
    match places {
        [] => {}
        [one] => get(asm, unit, 10, *one)?,
        [one, two] => {
            get(asm, unit, 10, *one)?;
            get(asm, unit, 11, *two)?;
        }
        [one, two, three, ..] => {
            get(asm, unit, 10, *one)?;
            get(asm, unit, 11, *two)?;
            get(asm, unit, 12, *three)?;
        }
    }
    Ok(())
}

/// Whether an operation of two integers is made in place; `raw` tells that its answer is held as a bare one.
fn on_integers(op: Op, raw: bool) -> bool
    ensures { result ≡ templates.on_integers op raw }
{
    match op {
        Op::Add | Op::Subtract | Op::Multiply | Op::Quotient | Op::Remainder | Op::Modulo => raw,
        Op::Equals | Op::Less => true,
        _ => false,
    }
}

/// An operation of two integers, which are made bare where a closure keeps them.
fn on_raw(
    asm: &mut Asm,
    unit: &Unit,
    op: Op,
    first: Place,
    second: Place,
    spot: Spot,
) -> Result<(), AllocError>
    ensures { OnOk result (Puts asm.old asm.new (templates.on_raw (unit_of unit.now) (known spot) op first second spot.to)) }
{
    get_integer(asm, unit, 10, first)?;
    get_integer(asm, unit, 11, second)?;
    position(asm, spot.pos)?;
    match op {
        Op::Equals => {
            instruction(asm, xor(10, 10, 11))?;
            instruction(asm, sltiu_one(10))?;
            truth(asm)?;
            put(asm, unit, 10, spot.to)?;
        }
        Op::Less => {
            instruction(asm, slt(10, 10, 11))?;
            truth(asm)?;
            put(asm, unit, 10, spot.to)?;
        }
        _ => {
            arithmetic(asm, op)?;
            put_bare(asm, unit, 10, spot.to.at)?;
        }
    }
    Ok(())
}

/// The arithmetic of registers 10 and 11, with its checks.
fn arithmetic(asm: &mut Asm, op: Op) -> Result<(), AllocError>
    ensures { OnOk result (Puts asm.old asm.new (templates.arithmetic op)) }
{
    match op {
        Op::Subtract => {
            instruction(asm, sub(10, 10, 11))?;
            in_range(asm)?;
        }
        Op::Multiply => {
            product(asm)?;
            in_range(asm)?;
        }
        Op::Quotient => {
            not_zero(asm)?;
            instruction(asm, div(10, 10, 11))?;
            in_range(asm)?;
        }
        Op::Remainder => {
            not_zero(asm)?;
            instruction(asm, rem(10, 10, 11))?;
        }
        Op::Modulo => {
            not_zero(asm)?;
            instruction(asm, rem(10, 10, 11))?;
            toward_divisor(asm)?;
        }
        _ => {
            instruction(asm, plus(10, 10, 11))?;
            in_range(asm)?;
        }
    }
    Ok(())
}

/// Makes the word of a boolean of 0 or 1 in register 10.
fn truth(asm: &mut Asm) -> Result<(), AllocError>
    ensures { OnOk result (Puts asm.old asm.new templates.truth) }
{
    instruction(asm, slli(10, 10, 2))?;
    instruction(asm, addi(10, 10, 1))?;
    Ok(())
}

/// Error 6 where register 10 has an integer of more than 62 bits.
fn in_range(asm: &mut Asm) -> Result<(), AllocError>
    ensures { OnOk result (Puts asm.old asm.new templates.in_range) }
{
    instruction(asm, slli(11, 10, 2))?;
    instruction(asm, srai(11, 11, 2))?;
    instruction(asm, beq(10, 11, 12))?;
    fail(asm, ErrKind::Overflow)?;
    Ok(())
}

/// Error 7 where register 11 has zero.
fn not_zero(asm: &mut Asm) -> Result<(), AllocError>
    ensures { OnOk result (Puts asm.old asm.new templates.not_zero) }
{
    instruction(asm, bne(11, 0, 12))?;
    fail(asm, ErrKind::ZeroDivisor)?;
    Ok(())
}

/// The product, with error 6 where it has more than 64 bits.
fn product(asm: &mut Asm) -> Result<(), AllocError>
    ensures { OnOk result (Puts asm.old asm.new templates.product) }
{
    instruction(asm, mulh(12, 10, 11))?;
    instruction(asm, mul(10, 10, 11))?;
    instruction(asm, srai(11, 10, 63))?;
    instruction(asm, beq(11, 12, 12))?;
    fail(asm, ErrKind::Overflow)?;
    Ok(())
}

/// Adds the divisor to a remainder whose sign is another.
fn toward_divisor(asm: &mut Asm) -> Result<(), AllocError>
    ensures { OnOk result (Puts asm.old asm.new templates.toward_divisor) }
{
    instruction(asm, beq(10, 0, 16))?;
    instruction(asm, xor(12, 10, 11))?;
    instruction(asm, bge(12, 0, 8))?;
    instruction(asm, plus(10, 10, 11))?;
    Ok(())
}

/// The end of the run by an error.
fn fail(asm: &mut Asm, kind: ErrKind) -> Result<(), AllocError>
    ensures { OnOk result (Puts asm.old asm.new (items.fail kind)) }
{
    go(asm, Routine::Error(kind).label())?;
    Ok(())
}

/// An error where register 10 has the word that stands for no value.
pub(crate) fn refuse_word(asm: &mut Asm, word: u64, kind: ErrKind) -> Result<(), AllocError>
    ensures { OnOk result (Puts asm.old asm.new (templates.refuse_word word kind)) }
{
    number(asm, 11, word)?;
    instruction(asm, bne(10, 11, 12))?;
    fail(asm, kind)?;
    Ok(())
}

fn plus(rd: u8, rs1: u8, rs2: u8) -> Instr
    ensures { result ≡ Instr.Add rd rs1 rs2 }
{
    Instr::Add { rd, rs1, rs2 }
}

fn sub(rd: u8, rs1: u8, rs2: u8) -> Instr
    ensures { result ≡ Instr.Sub rd rs1 rs2 }
{
    Instr::Sub { rd, rs1, rs2 }
}

fn mul(rd: u8, rs1: u8, rs2: u8) -> Instr
    ensures { result ≡ Instr.Mul rd rs1 rs2 }
{
    Instr::Mul { rd, rs1, rs2 }
}

fn mulh(rd: u8, rs1: u8, rs2: u8) -> Instr
    ensures { result ≡ Instr.Mulh rd rs1 rs2 }
{
    Instr::Mulh { rd, rs1, rs2 }
}

fn div(rd: u8, rs1: u8, rs2: u8) -> Instr
    ensures { result ≡ Instr.Div rd rs1 rs2 }
{
    Instr::Div { rd, rs1, rs2 }
}

fn rem(rd: u8, rs1: u8, rs2: u8) -> Instr
    ensures { result ≡ Instr.Rem rd rs1 rs2 }
{
    Instr::Rem { rd, rs1, rs2 }
}

fn xor(rd: u8, rs1: u8, rs2: u8) -> Instr
    ensures { result ≡ Instr.Xor rd rs1 rs2 }
{
    Instr::Xor { rd, rs1, rs2 }
}

fn slt(rd: u8, rs1: u8, rs2: u8) -> Instr
    ensures { result ≡ Instr.Slt rd rs1 rs2 }
{
    Instr::Slt { rd, rs1, rs2 }
}

fn slli(rd: u8, rs1: u8, imm: i32) -> Instr
    ensures { result ≡ Instr.Slli rd rs1 imm }
{
    Instr::Slli { rd, rs1, imm }
}

fn srai(rd: u8, rs1: u8, imm: i32) -> Instr
    ensures { result ≡ Instr.Srai rd rs1 imm }
{
    Instr::Srai { rd, rs1, imm }
}

fn addi(rd: u8, rs1: u8, imm: i32) -> Instr
    ensures { result ≡ Instr.Addi rd rs1 imm }
{
    Instr::Addi { rd, rs1, imm }
}

fn beq(rs1: u8, rs2: u8, imm: i32) -> Instr
    ensures { result ≡ Instr.Beq rs1 rs2 imm }
{
    Instr::Beq { rs1, rs2, imm }
}

fn bge(rs1: u8, rs2: u8, imm: i32) -> Instr
    ensures { result ≡ Instr.Bge rs1 rs2 imm }
{
    Instr::Bge { rs1, rs2, imm }
}

pub(crate) fn bne(rs1: u8, rs2: u8, imm: i32) -> Instr
    ensures { result ≡ Instr.Bne rs1 rs2 imm }
{
    Instr::Bne { rs1, rs2, imm }
}

fn sltiu_one(reg: u8) -> Instr
    ensures { result ≡ Instr.Sltiu reg reg (pos 1) }
{
    Instr::Sltiu {
        rd: reg,
        rs1: reg,
        imm: 1,
    }
}
