//! Characters (R4RS 6.6): the word of the character c is 32c + 29. And the operations on channels 0 and 1, which
//! share one byte of look-ahead.
use crate::forms::Forms;
use const_data::Label;
use rv_asm::AsmItem;
use rv_form::Instr;

/// The character's byte as an integer.
pub const CHAR_TO_INTEGER: Forms = forms! {
    character;
    [srli x10, x10, 5]
    [slli x10, x10, 2]
    [ret]
};

/// The character of a byte, whose word is below 1024.
pub const INTEGER_TO_CHAR: Forms = forms! {
    integer;
    [addi x5, x0, 1024]
    [bltu x10, x5, 12]
    [go error 2]
    [slli x10, x10, 3]
    [addi x10, x10, 29]
    [ret]
};

/// The look-ahead, which is then none, or the next byte of the input, or its end.
pub const READ_CHAR: Forms = forms! {
    any;
    [address x11, word 0]
    [ld x10, 0(x11)]
    [addi x5, x0, -1]
    [sd x5, 0(x11)]
    [bge x10, x0, 44]
    [addi x11, x11, 8]
    [addi x12, x0, 1]
    [addi x10, x0, 0]
    [addi x17, x0, 63]
    [ecall]
    [beq x10, x0, 32]
    [bge x10, x0, 12]
    [go io]
    [lbu x10, 0(x11)]
    // 64: a byte
    [slli x10, x10, 5]
    [addi x10, x10, 29]
    [ret]
    // 76: the end
    [addi x10, x0, 17]
    [ret]
};

/// The look-ahead, or the next byte of the input, which is then the look-ahead, or its end.
pub const PEEK_CHAR: Forms = forms! {
    any;
    [address x11, word 0]
    [ld x10, 0(x11)]
    [bge x10, x0, 48]
    [addi x11, x11, 8]
    [addi x12, x0, 1]
    [addi x10, x0, 0]
    [addi x17, x0, 63]
    [ecall]
    [beq x10, x0, 36]
    [bge x10, x0, 12]
    [go io]
    [lbu x10, 0(x11)]
    [sd x10, -8(x11)]
    // 60: a byte
    [slli x10, x10, 5]
    [addi x10, x10, 29]
    [ret]
    // 72: the end
    [addi x10, x0, 17]
    [ret]
};

/// Writes a character.
pub const WRITE_CHAR: Forms = forms! {
    character;
    [srli x5, x10, 5]
    [address x11, word 1]
    [sd x5, 0(x11)]
    [addi x10, x0, 1]
    [addi x12, x0, 1]
    [addi x17, x0, 64]
    [ecall]
    [addi x5, x0, 1]
    [beq x10, x5, 12]
    [go io]
    [addi x10, x0, 13]
    [ret]
};
