//! Equivalence, and the tests of types. An answer is #t or #f.
use crate::forms::Forms;
use const_data::Label;
use rv_asm::AsmItem;
use rv_form::Instr;

/// Whether two values are the same: all but objects is told by its word, and an object by its address.
pub const EQV: Forms = forms! {
    any;
    [xor x10, x10, x11]
    [sltiu x10, x10, 1]
    [slli x10, x10, 2]
    [addi x10, x10, 1]
    [ret]
};

/// Whether register 10 has a pair, by its tag.
pub const IS_PAIR: Forms = forms! {
    any;
    [andi x10, x10, 3]
    [addi x10, x10, -2]
    [sltiu x10, x10, 1]
    [slli x10, x10, 2]
    [addi x10, x10, 1]
    [ret]
};

/// Whether register 10 has a symbol, by its tag and its header.
pub const IS_SYMBOL: Forms = forms! {
    any;
    [andi x5, x10, 3]
    [addi x6, x0, 3]
    [bne x5, x6, 28]
    [ld x5, -3(x10)]
    [andi x5, x5, 7]
    [addi x6, x0, 3]
    [bne x5, x6, 12]
    [addi x10, x0, 5]
    [ret]
    // 36: no
    [addi x10, x0, 1]
    [ret]
};

/// Whether register 10 has a string, by its tag and its header.
pub const IS_STRING: Forms = forms! {
    any;
    [andi x5, x10, 3]
    [addi x6, x0, 3]
    [bne x5, x6, 28]
    [ld x5, -3(x10)]
    [andi x5, x5, 7]
    [addi x6, x0, 1]
    [bne x5, x6, 12]
    [addi x10, x0, 5]
    [ret]
    // 36: no
    [addi x10, x0, 1]
    [ret]
};

/// Whether register 10 has a vector, by its tag and its header.
pub const IS_VECTOR: Forms = forms! {
    any;
    [andi x5, x10, 3]
    [addi x6, x0, 3]
    [bne x5, x6, 28]
    [ld x5, -3(x10)]
    [andi x5, x5, 7]
    [addi x6, x0, 2]
    [bne x5, x6, 12]
    [addi x10, x0, 5]
    [ret]
    // 36: no
    [addi x10, x0, 1]
    [ret]
};

/// Whether register 10 has a closure or a continuation, by its tag and its header.
pub const IS_PROCEDURE: Forms = forms! {
    any;
    [andi x5, x10, 3]
    [addi x6, x0, 3]
    [bne x5, x6, 28]
    [ld x5, -3(x10)]
    [andi x5, x5, 3]
    [addi x6, x0, 0]
    [bne x5, x6, 12]
    [addi x10, x0, 5]
    [ret]
    // 36: no
    [addi x10, x0, 1]
    [ret]
};

/// Whether register 10 has an integer, by its tag.
pub const IS_INTEGER: Forms = forms! {
    any;
    [andi x10, x10, 3]
    [sltiu x10, x10, 1]
    [slli x10, x10, 2]
    [addi x10, x10, 1]
    [ret]
};

/// Whether register 10 has a character, by its five lowest bits.
pub const IS_CHAR: Forms = forms! {
    any;
    [andi x10, x10, 31]
    [addi x10, x10, -29]
    [sltiu x10, x10, 1]
    [slli x10, x10, 2]
    [addi x10, x10, 1]
    [ret]
};

/// Whether register 10 has 1 or 5, the words of #f and #t.
pub const IS_BOOLEAN: Forms = forms! {
    any;
    [andi x10, x10, -5]
    [addi x10, x10, -1]
    [sltiu x10, x10, 1]
    [slli x10, x10, 2]
    [addi x10, x10, 1]
    [ret]
};

/// Whether register 10 has the empty list.
pub const IS_NULL: Forms = forms! {
    any;
    [addi x10, x10, -9]
    [sltiu x10, x10, 1]
    [slli x10, x10, 2]
    [addi x10, x10, 1]
    [ret]
};

/// Whether register 10 has the end of the input.
pub const IS_EOF: Forms = forms! {
    any;
    [addi x10, x10, -17]
    [sltiu x10, x10, 1]
    [slli x10, x10, 2]
    [addi x10, x10, 1]
    [ret]
};
