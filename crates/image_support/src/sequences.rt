//! Symbols, strings and vectors (R4RS 6.4, 6.7 and 6.8): a header at an address of which the value is 3 more,
//! and items of 8 bytes each. An index is refused where its word is not below four times the length.
use crate::forms::Forms;
use const_data::Label;
use rv_asm::AsmItem;
use rv_form::Instr;

/// The string that is the symbol's name.
pub const SYMBOL_NAME: Forms = forms! {
    symbol;
    [ld x10, 5(x10)]
    [ret]
};

/// A new symbol of this name, with the running activation.
pub const MAKE_SYMBOL_LOCAL: Forms = forms! {
    string;
    [sub x5, x18, x9]
    [addi x6, x0, 16]
    [bgeu x5, x6, 12]
    [go storage]
    [addi x5, x0, 3]
    [sd x5, 0(x9)]
    [sd x10, 8(x9)]
    [addi x10, x9, 3]
    [addi x9, x9, 16]
    [ret]
};

/// A new symbol of this name, for good.
pub const MAKE_SYMBOL_GLOBAL: Forms = forms! {
    string;
    [sub x5, x18, x9]
    [addi x6, x0, 16]
    [bgeu x5, x6, 12]
    [go storage]
    [addi x18, x18, -16]
    [addi x5, x0, 3]
    [sd x5, 0(x18)]
    [sd x10, 8(x18)]
    [addi x10, x18, 3]
    [ret]
};

/// A string of so many of one character, with the running activation. Its items have 8 bytes each behind a header of 8, and
/// what has no room is refused, also where that size has no word.
pub const MAKE_STRING_LOCAL: Forms = forms! {
    integer and character;
    [bge x10, x0, 12]
    [go error 2]
    [slli x5, x10, 1]
    [sub x6, x18, x9]
    [bltu x5, x6, 12]
    [go storage]
    [addi x7, x5, 1]
    [sd x7, 0(x9)]
    [addi x10, x9, 3]
    [add x5, x5, x9]
    [jal x0, 12]
    // the next item
    [addi x9, x9, 8]
    [sd x11, 0(x9)]
    [bne x9, x5, -8]
    [addi x9, x9, 8]
    [ret]
};

/// A string of so many of one character, for good.
pub const MAKE_STRING_GLOBAL: Forms = forms! {
    integer and character;
    [bge x10, x0, 12]
    [go error 2]
    [slli x5, x10, 1]
    [sub x6, x18, x9]
    [bltu x5, x6, 12]
    [go storage]
    [sub x18, x18, x5]
    [addi x18, x18, -8]
    [addi x7, x5, 1]
    [sd x7, 0(x18)]
    [addi x10, x18, 3]
    [addi x6, x18, 0]
    [add x5, x5, x18]
    [jal x0, 12]
    // the next item
    [addi x6, x6, 8]
    [sd x11, 0(x6)]
    [bne x6, x5, -8]
    [ret]
};

/// A vector of so many of one value, with the running activation. Its items have 8 bytes each behind a header of 8, and
/// what has no room is refused, also where that size has no word.
pub const MAKE_VECTOR_LOCAL: Forms = forms! {
    integer;
    [bge x10, x0, 12]
    [go error 2]
    [slli x5, x10, 1]
    [sub x6, x18, x9]
    [bltu x5, x6, 12]
    [go storage]
    [addi x7, x5, 2]
    [sd x7, 0(x9)]
    [addi x10, x9, 3]
    [add x5, x5, x9]
    [jal x0, 12]
    // the next item
    [addi x9, x9, 8]
    [sd x11, 0(x9)]
    [bne x9, x5, -8]
    [addi x9, x9, 8]
    [ret]
};

/// A vector of so many of one value, for good.
pub const MAKE_VECTOR_GLOBAL: Forms = forms! {
    integer;
    [bge x10, x0, 12]
    [go error 2]
    [slli x5, x10, 1]
    [sub x6, x18, x9]
    [bltu x5, x6, 12]
    [go storage]
    [sub x18, x18, x5]
    [addi x18, x18, -8]
    [addi x7, x5, 2]
    [sd x7, 0(x18)]
    [addi x10, x18, 3]
    [addi x6, x18, 0]
    [add x5, x5, x18]
    [jal x0, 12]
    // the next item
    [addi x6, x6, 8]
    [sd x11, 0(x6)]
    [bne x6, x5, -8]
    [ret]
};

/// The string's length.
pub const STRING_LENGTH: Forms = forms! {
    string;
    [ld x5, -3(x10)]
    [srli x5, x5, 3]
    [slli x10, x5, 2]
    [ret]
};

/// The vector's length.
pub const VECTOR_LENGTH: Forms = forms! {
    vector;
    [ld x5, -3(x10)]
    [srli x5, x5, 3]
    [slli x10, x5, 2]
    [ret]
};

/// The character at an index.
pub const STRING_REF: Forms = forms! {
    string and index;
    [ld x5, -3(x10)]
    [srli x5, x5, 3]
    [slli x5, x5, 2]
    [bltu x11, x5, 12]
    [go error 2]
    [slli x11, x11, 1]
    [add x10, x10, x11]
    [ld x10, 5(x10)]
    [ret]
};

/// The item at an index.
pub const VECTOR_REF: Forms = forms! {
    vector and index;
    [ld x5, -3(x10)]
    [srli x5, x5, 3]
    [slli x5, x5, 2]
    [bltu x11, x5, 12]
    [go error 2]
    [slli x11, x11, 1]
    [add x10, x10, x11]
    [ld x10, 5(x10)]
    [ret]
};

/// Puts a character at an index of a string that is no part of a literal.
pub const STRING_SET: Forms = forms! {
    string, index and character;
    [bgeu x10, x20, 12]
    [go error 9]
    [ld x5, -3(x10)]
    [srli x5, x5, 3]
    [slli x5, x5, 2]
    [bltu x11, x5, 12]
    [go error 2]
    [slli x11, x11, 1]
    [add x10, x10, x11]
    [sd x12, 5(x10)]
    [addi x10, x0, 13]
    [ret]
};

/// Puts a value at an index of a vector that is no part of a literal.
pub const VECTOR_SET: Forms = forms! {
    vector and index;
    [bgeu x10, x20, 12]
    [go error 9]
    [ld x5, -3(x10)]
    [srli x5, x5, 3]
    [slli x5, x5, 2]
    [bltu x11, x5, 12]
    [go error 2]
    [slli x11, x11, 1]
    [add x10, x10, x11]
    [sd x12, 5(x10)]
    [addi x10, x0, 13]
    [ret]
};
