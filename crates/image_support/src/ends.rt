//! How a run starts, and how it ends: by itself, by an error, for want of storage, or at a failed read or
//! write. Reports go out on channel 2, where failures are ignored.
use const_data::Label;
use rv_asm::AsmItem;
use rv_form::Instr;

/// Sets the registers and enters the program.
pub const START: &[AsmItem] = code! {
    [address x20, heap_start]
    [addi x9, x20, 0]
    [address x18, heap_end]
    [address x19, word 16]
    [addi x1, x0, 0]
    [addi x8, x0, 0]
    [addi x10, x0, 0]
    [go program]
};

/// Exits with 0.
pub const FINISH: &[AsmItem] = code! {
    [addi x10, x0, 0]
    [addi x17, x0, 93]
    [ecall]
};

// Each kind of error but the last jumps to the second instruction of the last one's routine, with its
// number in register 5. Of each routine the code has two instructions.

pub const ERROR_1: &[AsmItem] = code! { [addi x5, x0, 1] [jal x0, 64] };

pub const ERROR_2: &[AsmItem] = code! { [addi x5, x0, 2] [jal x0, 56] };

pub const ERROR_3: &[AsmItem] = code! { [addi x5, x0, 3] [jal x0, 48] };

pub const ERROR_4: &[AsmItem] = code! { [addi x5, x0, 4] [jal x0, 40] };

pub const ERROR_5: &[AsmItem] = code! { [addi x5, x0, 5] [jal x0, 32] };

pub const ERROR_6: &[AsmItem] = code! { [addi x5, x0, 6] [jal x0, 24] };

pub const ERROR_7: &[AsmItem] = code! { [addi x5, x0, 7] [jal x0, 16] };

pub const ERROR_8: &[AsmItem] = code! { [addi x5, x0, 8] [jal x0, 8] };

/// Reports the error of the number in register 5 at the position in register 16, and exits with 1. A text
/// is a number whose bytes are its characters, the first one lowest.
pub const ERROR_9: &[AsmItem] = code! {
    [addi x5, x0, 9]
    // 4: "error 0 ", with the number added to its digit
    [slli x5, x5, 48]
    [number x6, 0x2030_2072_6f72_7265]
    [add x5, x5, x6]
    [jal x7, 120]
    // 24: "at "
    [number x5, 0x20_7461]
    [jal x7, 108]
    // 36: the line
    [srli x13, x16, 32]
    [jal x6, 44]
    // 44: ":"
    [addi x5, x0, 58]
    [jal x7, 92]
    // 52: the column
    [slli x13, x16, 32]
    [srli x13, x13, 32]
    [jal x6, 24]
    // 64: the end of the line, and of the run
    [addi x5, x0, 10]
    [jal x7, 72]
    [addi x10, x0, 1]
    [addi x17, x0, 93]
    [ecall]
    // 84: sends the number below 2^32 in register 13, and goes back by register 6; 14 has a power of 10
    [lui x14, 0x3_b9ad]
    [addi x14, x14, -1536]
    [addi x15, x0, 10]
    // 96: to the greatest power that is not above the number, and to 1 for 0
    [bgeu x13, x14, 16]
    [divu x14, x14, x15]
    [bne x14, x0, -8]
    [addi x14, x0, 1]
    // 112: the next digit
    [divu x5, x13, x14]
    [remu x13, x13, x14]
    [divu x14, x14, x15]
    [addi x5, x5, 48]
    [jal x7, 12]
    [bne x14, x0, -20]
    [jalr x0, 0(x6)]
    // 140: sends the text in register 5, and goes back by register 7
    [address x11, word 1]
    // 148: the next character
    [sd x5, 0(x11)]
    [addi x10, x0, 2]
    [addi x12, x0, 1]
    [addi x17, x0, 64]
    [ecall]
    [srli x5, x5, 8]
    [bne x5, x0, -24]
    [jalr x0, 0(x7)]
};

/// Reports "storage" and exits with 2.
pub const STORAGE: &[AsmItem] = code! {
    [number x5, 0x0a65_6761_726f_7473]
    [address x11, word 1]
    // 16: the next character
    [sd x5, 0(x11)]
    [addi x10, x0, 2]
    [addi x12, x0, 1]
    [addi x17, x0, 64]
    [ecall]
    [srli x5, x5, 8]
    [bne x5, x0, -24]
    [addi x10, x0, 2]
    [addi x17, x0, 93]
    [ecall]
};

/// Reports "io" and exits with 3.
pub const IO: &[AsmItem] = code! {
    [number x5, 0x0a_6f69]
    [address x11, word 1]
    // 16: the next character
    [sd x5, 0(x11)]
    [addi x10, x0, 2]
    [addi x12, x0, 1]
    [addi x17, x0, 64]
    [ecall]
    [srli x5, x5, 8]
    [bne x5, x0, -24]
    [addi x10, x0, 3]
    [addi x17, x0, 93]
    [ecall]
};
