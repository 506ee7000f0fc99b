//! The routines that compiled code calls: one constant text.
//!
//! `specs/Text` has the text, `rv_asm` says what each routine does and by which numbers they are named.
//! A routine is a constant of this crate, in `ends` the start of a run and its ends, in `memory` what makes
//! frames, records, objects and lists, in `calls` the calls, and in the other modules the operations.
//!
//! Register 1 has the place that a routine returns to, 8 the frame, 9 the end of the stack, 18 the low end of
//! the objects that are made for good, 19 the argument words and 20 the start of the heap. Data word 0 is the
//! look-ahead, and word 1 holds the byte that passes. Words and objects are those of `const_data`.
#![tactic(auto)]

/// The number of a register.
macro_rules! reg {
    (x0) => { 0 };
    (x1) => { 1 };
    (x5) => { 5 };
    (x6) => { 6 };
    (x7) => { 7 };
    (x8) => { 8 };
    (x9) => { 9 };
    (x10) => { 10 };
    (x11) => { 11 };
    (x12) => { 12 };
    (x13) => { 13 };
    (x14) => { 14 };
    (x15) => { 15 };
    (x16) => { 16 };
    (x17) => { 17 };
    (x18) => { 18 };
    (x19) => { 19 };
    (x20) => { 20 };
    (x28) => { 28 };
}

/// An item of a text, from a line of assembly. A branch names its distance in bytes, of which `go`, `number`
/// and `address` take eight.
macro_rules! item {
    (ecall) => { AsmItem::Code(Instr::Ecall) };
    (ret) => { AsmItem::Code(Instr::Jalr { rd: 0, rs1: 1, imm: 0 }) };
    (go error $kind:literal) => { AsmItem::Jump { link: 0, label: Label::Routine(1 + $kind) } };
    (go storage) => { AsmItem::Jump { link: 0, label: Label::Routine(11) } };
    (go io) => { AsmItem::Jump { link: 0, label: Label::Routine(12) } };
    (go program) => { AsmItem::Jump { link: 0, label: Label::Entry { proc: 0, part: 0, list: false } } };
    (number $rd:ident, $number:literal) => { AsmItem::Pool { reg: reg!($rd), number: $number } };
    (address $rd:ident, word $number:literal) => {
        AsmItem::Address { reg: reg!($rd), label: Label::Word($number), add: 0 }
    };
    (address $rd:ident, heap_start) => { AsmItem::Address { reg: reg!($rd), label: Label::HeapStart, add: 0 } };
    (address $rd:ident, heap_end) => { AsmItem::Address { reg: reg!($rd), label: Label::HeapEnd, add: 0 } };
    (lui $rd:ident, $imm:literal) => { AsmItem::Code(Instr::Lui { rd: reg!($rd), imm: $imm }) };
    (jal $rd:ident, $imm:literal) => { AsmItem::Code(Instr::Jal { rd: reg!($rd), imm: $imm }) };
    (jalr $rd:ident, $imm:literal($rs1:ident)) => { item!(@offset Jalr $rd, $imm, $rs1) };
    (ld $rd:ident, $imm:literal($rs1:ident)) => { item!(@offset Ld $rd, $imm, $rs1) };
    (lbu $rd:ident, $imm:literal($rs1:ident)) => { item!(@offset Lbu $rd, $imm, $rs1) };
    (sd $rs2:ident, $imm:literal($rs1:ident)) => {
        AsmItem::Code(Instr::Sd { rs1: reg!($rs1), rs2: reg!($rs2), imm: $imm })
    };
    (beq $rs1:ident, $rs2:ident, $imm:literal) => { item!(@branch Beq $rs1, $rs2, $imm) };
    (bne $rs1:ident, $rs2:ident, $imm:literal) => { item!(@branch Bne $rs1, $rs2, $imm) };
    (bge $rs1:ident, $rs2:ident, $imm:literal) => { item!(@branch Bge $rs1, $rs2, $imm) };
    (bltu $rs1:ident, $rs2:ident, $imm:literal) => { item!(@branch Bltu $rs1, $rs2, $imm) };
    (bgeu $rs1:ident, $rs2:ident, $imm:literal) => { item!(@branch Bgeu $rs1, $rs2, $imm) };
    (addi $rd:ident, $rs1:ident, $imm:literal) => { item!(@offset Addi $rd, $imm, $rs1) };
    (slti $rd:ident, $rs1:ident, $imm:literal) => { item!(@offset Slti $rd, $imm, $rs1) };
    (sltiu $rd:ident, $rs1:ident, $imm:literal) => { item!(@offset Sltiu $rd, $imm, $rs1) };
    (andi $rd:ident, $rs1:ident, $imm:literal) => { item!(@offset Andi $rd, $imm, $rs1) };
    (slli $rd:ident, $rs1:ident, $imm:literal) => { item!(@offset Slli $rd, $imm, $rs1) };
    (srli $rd:ident, $rs1:ident, $imm:literal) => { item!(@offset Srli $rd, $imm, $rs1) };
    (srai $rd:ident, $rs1:ident, $imm:literal) => { item!(@offset Srai $rd, $imm, $rs1) };
    (add $rd:ident, $rs1:ident, $rs2:ident) => { item!(@registers Add $rd, $rs1, $rs2) };
    (sub $rd:ident, $rs1:ident, $rs2:ident) => { item!(@registers Sub $rd, $rs1, $rs2) };
    (slt $rd:ident, $rs1:ident, $rs2:ident) => { item!(@registers Slt $rd, $rs1, $rs2) };
    (xor $rd:ident, $rs1:ident, $rs2:ident) => { item!(@registers Xor $rd, $rs1, $rs2) };
    (or $rd:ident, $rs1:ident, $rs2:ident) => { item!(@registers Or $rd, $rs1, $rs2) };
    (mul $rd:ident, $rs1:ident, $rs2:ident) => { item!(@registers Mul $rd, $rs1, $rs2) };
    (mulh $rd:ident, $rs1:ident, $rs2:ident) => { item!(@registers Mulh $rd, $rs1, $rs2) };
    (div $rd:ident, $rs1:ident, $rs2:ident) => { item!(@registers Div $rd, $rs1, $rs2) };
    (divu $rd:ident, $rs1:ident, $rs2:ident) => { item!(@registers Divu $rd, $rs1, $rs2) };
    (rem $rd:ident, $rs1:ident, $rs2:ident) => { item!(@registers Rem $rd, $rs1, $rs2) };
    (remu $rd:ident, $rs1:ident, $rs2:ident) => { item!(@registers Remu $rd, $rs1, $rs2) };
    (@offset $op:ident $rd:ident, $imm:literal, $rs1:ident) => {
        AsmItem::Code(Instr::$op { rd: reg!($rd), rs1: reg!($rs1), imm: $imm })
    };
    (@branch $op:ident $rs1:ident, $rs2:ident, $imm:literal) => {
        AsmItem::Code(Instr::$op { rs1: reg!($rs1), rs2: reg!($rs2), imm: $imm })
    };
    (@registers $op:ident $rd:ident, $rs1:ident, $rs2:ident) => {
        AsmItem::Code(Instr::$op { rd: reg!($rd), rs1: reg!($rs1), rs2: reg!($rs2) })
    };
}

/// A text of lines.
macro_rules! code {
    ($([$($line:tt)*])*) => { &[$(item!($($line)*)),*] };
}

/// The forms of an operation: what its operands are, and the lines behind the checks of their types.
/// Operands are in registers 10, 11 and 12.
macro_rules! forms {
    (any; $($body:tt)*) => { forms!(@ {} $($body)*) };
    (pair; $($body:tt)*) => {
        forms!(@ {
            [andi x5, x10, 3]
            [addi x6, x0, 2]
            [beq x5, x6, 12]
            [go error 1]
        } $($body)*)
    };
    (symbol; $($body:tt)*) => {
        forms!(@ {
            [andi x5, x10, 3]
            [addi x6, x0, 3]
            [bne x5, x6, 20]
            [ld x5, -3(x10)]
            [andi x5, x5, 7]
            [addi x6, x0, 3]
            [beq x5, x6, 12]
            [go error 1]
        } $($body)*)
    };
    (string; $($body:tt)*) => {
        forms!(@ {
            [andi x5, x10, 3]
            [addi x6, x0, 3]
            [bne x5, x6, 20]
            [ld x5, -3(x10)]
            [andi x5, x5, 7]
            [addi x6, x0, 1]
            [beq x5, x6, 12]
            [go error 1]
        } $($body)*)
    };
    (vector; $($body:tt)*) => {
        forms!(@ {
            [andi x5, x10, 3]
            [addi x6, x0, 3]
            [bne x5, x6, 20]
            [ld x5, -3(x10)]
            [andi x5, x5, 7]
            [addi x6, x0, 2]
            [beq x5, x6, 12]
            [go error 1]
        } $($body)*)
    };
    (integers; $($body:tt)*) => {
        forms!(@ {
            [or x5, x10, x11]
            [andi x5, x5, 3]
            [beq x5, x0, 12]
            [go error 1]
        } $($body)*)
    };
    (integer; $($body:tt)*) => {
        forms!(@ {
            [andi x5, x10, 3]
            [beq x5, x0, 12]
            [go error 1]
        } $($body)*)
    };
    (character; $($body:tt)*) => {
        forms!(@ {
            [andi x5, x10, 31]
            [addi x6, x0, 29]
            [beq x5, x6, 12]
            [go error 1]
        } $($body)*)
    };
    (integer and character; $($body:tt)*) => {
        forms!(@ {
            [andi x5, x10, 3]
            [beq x5, x0, 12]
            [go error 1]
            [andi x5, x11, 31]
            [addi x6, x0, 29]
            [beq x5, x6, 12]
            [go error 1]
        } $($body)*)
    };
    (string and index; $($body:tt)*) => {
        forms!(@ {
            [andi x5, x10, 3]
            [addi x6, x0, 3]
            [bne x5, x6, 20]
            [ld x5, -3(x10)]
            [andi x5, x5, 7]
            [addi x6, x0, 1]
            [beq x5, x6, 12]
            [go error 1]
            [andi x5, x11, 3]
            [beq x5, x0, 12]
            [go error 1]
        } $($body)*)
    };
    (vector and index; $($body:tt)*) => {
        forms!(@ {
            [andi x5, x10, 3]
            [addi x6, x0, 3]
            [bne x5, x6, 20]
            [ld x5, -3(x10)]
            [andi x5, x5, 7]
            [addi x6, x0, 2]
            [beq x5, x6, 12]
            [go error 1]
            [andi x5, x11, 3]
            [beq x5, x0, 12]
            [go error 1]
        } $($body)*)
    };
    (string, index and character; $($body:tt)*) => {
        forms!(@ {
            [andi x5, x10, 3]
            [addi x6, x0, 3]
            [bne x5, x6, 20]
            [ld x5, -3(x10)]
            [andi x5, x5, 7]
            [addi x6, x0, 1]
            [beq x5, x6, 12]
            [go error 1]
            [andi x5, x11, 3]
            [beq x5, x0, 12]
            [go error 1]
            [andi x5, x12, 31]
            [addi x6, x0, 29]
            [beq x5, x6, 12]
            [go error 1]
        } $($body)*)
    };
    (@ { $($check:tt)* } $($body:tt)*) => {
        (code! { $($check)* $($body)* }, code! { $($body)* })
    };
}

mod calls;
mod characters;
mod ends;
mod forms;
mod memory;
mod numbers;
mod pairs;
mod predicates;
mod sequences;
mod text;

pub use text::support;
