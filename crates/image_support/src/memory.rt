//! Room for objects, frames that are kept as records, and lists of operands. Storage is free while the stack
//! ends at or below the objects that are made for good.
use const_data::Label;
use rv_asm::AsmItem;
use rv_form::Instr;

/// Room for as many bytes as register 10 has, with the running activation: answers its address.
pub const NEW_LOCAL: &[AsmItem] = code! {
    [sub x5, x18, x9]
    [bgeu x5, x10, 12]
    [go storage]
    [addi x5, x9, 0]
    [add x9, x9, x10]
    [addi x10, x5, 0]
    [ret]
};

/// Room for as many bytes as register 10 has, for good: answers its address.
pub const NEW_GLOBAL: &[AsmItem] = code! {
    [sub x5, x18, x9]
    [bgeu x5, x10, 12]
    [go storage]
    [sub x18, x18, x10]
    [addi x10, x18, 0]
    [ret]
};

/// Moves the running frame, of as many bytes as register 15 has, to below the objects that are made for
/// good, where it is a record that returns to the place in register 1. Goes back by register 28. The frame and
/// the record may share words, so the last word is moved first.
pub const SAVE: &[AsmItem] = code! {
    [add x5, x8, x15]
    // 4: the next word
    [addi x5, x5, -8]
    [addi x18, x18, -8]
    [ld x6, 0(x5)]
    [sd x6, 0(x18)]
    [bne x5, x8, -16]
    [sd x1, 0(x18)]
    [addi x8, x18, 0]
    [addi x9, x20, 0]
    [jalr x0, 0(x28)]
};

/// Makes a copy of the record in register 8, of as many bytes as register 15 has, the running frame, at the
/// start of the heap. Goes back by register 28.
pub const RESTORE: &[AsmItem] = code! {
    [sub x5, x18, x20]
    [bgeu x5, x15, 12]
    [go storage]
    [addi x9, x20, 0]
    [add x5, x20, x15]
    // 24: the next word
    [ld x6, 0(x8)]
    [sd x6, 0(x9)]
    [addi x8, x8, 8]
    [addi x9, x9, 8]
    [bne x9, x5, -16]
    [addi x8, x20, 0]
    [jalr x0, 0(x28)]
};

/// The list of the argument words from the number in register 12 up to that in register 11, with the running
/// activation.
pub const REST_LOCAL: &[AsmItem] = code! {
    [addi x10, x0, 9]
    [beq x12, x11, 84]
    [sub x5, x11, x12]
    [slli x5, x5, 4]
    [sub x6, x18, x9]
    [bgeu x6, x5, 12]
    [go storage]
    [addi x10, x9, 2]
    [slli x12, x12, 3]
    [add x12, x12, x19]
    [slli x11, x11, 3]
    [add x11, x11, x19]
    // 52: the next pair, which names the one behind it
    [ld x5, 0(x12)]
    [sd x5, 0(x9)]
    [addi x12, x12, 8]
    [addi x9, x9, 16]
    [addi x5, x9, 2]
    [sd x5, -8(x9)]
    [bne x12, x11, -24]
    // 80: the last one names the end
    [addi x5, x0, 9]
    [sd x5, -8(x9)]
    [ret]
};

/// The list of the argument words from the number in register 12 up to that in register 11, for good.
pub const REST_GLOBAL: &[AsmItem] = code! {
    [addi x10, x0, 9]
    [beq x12, x11, 84]
    [sub x5, x11, x12]
    [slli x5, x5, 4]
    [sub x6, x18, x9]
    [bgeu x6, x5, 12]
    [go storage]
    [addi x10, x18, -14]
    [slli x12, x12, 3]
    [add x12, x12, x19]
    [slli x11, x11, 3]
    [add x11, x11, x19]
    // 52: the next pair, which names the one below it
    [ld x5, 0(x12)]
    [addi x18, x18, -16]
    [sd x5, 0(x18)]
    [addi x12, x12, 8]
    [addi x5, x18, -14]
    [sd x5, 8(x18)]
    [bne x12, x11, -24]
    // 80: the last one names the end
    [addi x5, x0, 9]
    [sd x5, 8(x18)]
    [ret]
};

/// A copy of the list in register 13, with the running activation.
pub const COPY_LOCAL: &[AsmItem] = code! {
    [addi x10, x0, 9]
    [beq x13, x10, 64]
    [addi x10, x9, 2]
    [addi x6, x0, 16]
    // 16: the next pair, which names the one behind it
    [sub x5, x18, x9]
    [bgeu x5, x6, 12]
    [go storage]
    [ld x5, -2(x13)]
    [sd x5, 0(x9)]
    [ld x13, 6(x13)]
    [addi x9, x9, 16]
    [addi x5, x9, 2]
    [sd x5, -8(x9)]
    [addi x5, x0, 9]
    [bne x13, x5, -44]
    // 64: the last one names the end
    [sd x5, -8(x9)]
    [ret]
};

/// A copy of the list in register 13, for good.
pub const COPY_GLOBAL: &[AsmItem] = code! {
    [addi x10, x0, 9]
    [beq x13, x10, 64]
    [addi x10, x18, -14]
    [addi x6, x0, 16]
    // 16: the next pair, which names the one below it
    [sub x5, x18, x9]
    [bgeu x5, x6, 12]
    [go storage]
    [ld x5, -2(x13)]
    [addi x18, x18, -16]
    [sd x5, 0(x18)]
    [ld x13, 6(x13)]
    [addi x5, x18, -14]
    [sd x5, 8(x18)]
    [addi x5, x0, 9]
    [bne x13, x5, -44]
    // 64: the last one names the end
    [sd x5, 8(x18)]
    [ret]
};
