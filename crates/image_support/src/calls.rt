//! Calls of procedures, which are closures and continuations. What is called is refused first where it is
//! no procedure, then a list of operands that is no list, then their count.
//!
//! A continuation is called with one value, which goes to register 10; register 8 then has its record, whose
//! first word is the place to go on.
use crate::forms::Forms;
use const_data::Label;
use rv_asm::AsmItem;
use rv_form::Instr;

/// Calls register 10 with as many argument words as register 11 has.
const CALL: &[AsmItem] = code! {
    [andi x5, x10, 3]
    [addi x6, x0, 3]
    [bne x5, x6, 24]
    [ld x5, -3(x10)]
    [andi x6, x5, 7]
    [beq x6, x0, 20]
    [addi x7, x0, 4]
    [beq x6, x7, 44]
    // 32: no procedure
    [go error 4]
    // 40: a closure, by its descriptor
    [ld x6, 16(x5)]
    [bltu x11, x6, 20]
    [ld x6, 24(x5)]
    [bltu x6, x11, 12]
    [ld x5, 0(x5)]
    [jalr x0, 0(x5)]
    // 64: another count
    [go error 5]
    // 72: a continuation
    [addi x6, x0, 1]
    [bne x11, x6, -12]
    [ld x8, 5(x10)]
    [ld x10, 0(x19)]
    [ld x5, 0(x8)]
    [jalr x0, 0(x5)]
};

/// As `CALL`, of a procedure that takes the count.
const CALL_BARE: &[AsmItem] = code! {
    [ld x5, -3(x10)]
    [andi x6, x5, 7]
    [bne x6, x0, 12]
    [ld x5, 0(x5)]
    [jalr x0, 0(x5)]
    // 20: a continuation
    [ld x8, 5(x10)]
    [ld x10, 0(x19)]
    [ld x5, 0(x8)]
    [jalr x0, 0(x5)]
};

/// Calls register 10 with the items of the list in register 13.
const APPLY: &[AsmItem] = code! {
    [andi x5, x10, 3]
    [addi x6, x0, 3]
    [bne x5, x6, 16]
    [ld x5, -3(x10)]
    [andi x6, x5, 3]
    [beq x6, x0, 12]
    // 24: no procedure
    [go error 4]
    // 32: register 11 counts the pairs that 14 goes over; 15 follows at half the speed
    [addi x11, x0, 0]
    [addi x14, x13, 0]
    [addi x15, x13, 0]
    [addi x6, x0, 2]
    [addi x7, x0, 9]
    // 52: two more pairs
    [beq x14, x7, 56]
    [andi x12, x14, 3]
    [bne x12, x6, 40]
    [ld x14, 6(x14)]
    [addi x11, x11, 1]
    [beq x14, x7, 36]
    [andi x12, x14, 3]
    [bne x12, x6, 20]
    [ld x14, 6(x14)]
    [addi x11, x11, 1]
    [ld x15, 6(x15)]
    [bne x14, x15, -44]
    // 100: no list, or a circular one
    [go error 1]
    // 108: a list
    [andi x6, x5, 7]
    [bne x6, x0, 36]
    [ld x6, 16(x5)]
    [bltu x11, x6, 20]
    [ld x6, 24(x5)]
    [bltu x6, x11, 12]
    [ld x5, 8(x5)]
    [jalr x0, 0(x5)]
    // 140: another count
    [go error 5]
    // 148: a continuation
    [addi x6, x0, 1]
    [bne x11, x6, -12]
    [ld x8, 5(x10)]
    [ld x10, -2(x13)]
    [ld x5, 0(x8)]
    [jalr x0, 0(x5)]
};

/// Calls register 10 with a new continuation, whose record register 8 has.
const CALLCC: &[AsmItem] = code! {
    [andi x5, x10, 3]
    [addi x6, x0, 3]
    [bne x5, x6, 24]
    [ld x5, -3(x10)]
    [andi x6, x5, 7]
    [beq x6, x0, 20]
    [addi x7, x0, 4]
    [beq x6, x7, 40]
    // 32: no procedure
    [go error 4]
    // 40: a closure, by its descriptor
    [addi x11, x0, 1]
    [ld x6, 16(x5)]
    [bltu x11, x6, 12]
    [ld x6, 24(x5)]
    [bgeu x6, x11, 12]
    // 60: another count
    [go error 5]
    // 68: room for the continuation
    [sub x5, x18, x9]
    [addi x6, x0, 16]
    [bgeu x5, x6, 12]
    [go storage]
    [addi x18, x18, -16]
    [addi x5, x0, 4]
    [sd x5, 0(x18)]
    [sd x8, 8(x18)]
    [addi x5, x18, 3]
    [sd x5, 0(x19)]
    [addi x11, x0, 1]
    [ld x5, -3(x10)]
    [andi x6, x5, 7]
    [bne x6, x0, 12]
    [ld x5, 0(x5)]
    [jalr x0, 0(x5)]
    // 136: a continuation is called
    [ld x8, 5(x10)]
    [ld x10, 0(x19)]
    [ld x5, 0(x8)]
    [jalr x0, 0(x5)]
};

/// As `CALLCC`, of a procedure that takes one operand.
const CALLCC_BARE: &[AsmItem] = code! {
    [sub x5, x18, x9]
    [addi x6, x0, 16]
    [bgeu x5, x6, 12]
    [go storage]
    [addi x18, x18, -16]
    [addi x5, x0, 4]
    [sd x5, 0(x18)]
    [sd x8, 8(x18)]
    [addi x5, x18, 3]
    [sd x5, 0(x19)]
    [addi x11, x0, 1]
    [ld x5, -3(x10)]
    [andi x6, x5, 7]
    [bne x6, x0, 12]
    [ld x5, 0(x5)]
    [jalr x0, 0(x5)]
    // 68: a continuation is called
    [ld x8, 5(x10)]
    [ld x10, 0(x19)]
    [ld x5, 0(x8)]
    [jalr x0, 0(x5)]
};

pub const CALLS: Forms = (CALL, CALL_BARE);

/// It has no form without checks.
pub const APPLIES: Forms = (APPLY, APPLY);

pub const CAPTURES: Forms = (CALLCC, CALLCC_BARE);
