//! Integers (R4RS 6.5.5). The word of n is 4n, so an integer has a word exactly where 4n does not overflow.
use crate::forms::Forms;
use const_data::Label;
use rv_asm::AsmItem;
use rv_form::Instr;

/// The sum: it overflows where it is below the first exactly if the second is not negative.
pub const ADD: Forms = forms! {
    integers;
    [add x5, x10, x11]
    [slt x6, x5, x10]
    [slti x7, x11, 0]
    [beq x6, x7, 12]
    [go error 6]
    [addi x10, x5, 0]
    [ret]
};

/// The difference: it overflows where it is above the first exactly if the second is not negative.
pub const SUBTRACT: Forms = forms! {
    integers;
    [sub x5, x10, x11]
    [slt x6, x10, x5]
    [slti x7, x11, 0]
    [beq x6, x7, 12]
    [go error 6]
    [addi x10, x5, 0]
    [ret]
};

/// The product: it overflows where its high word is not the sign of its low one.
pub const MULTIPLY: Forms = forms! {
    integers;
    [srai x11, x11, 2]
    [mulh x6, x10, x11]
    [mul x10, x10, x11]
    [srai x5, x10, 63]
    [beq x5, x6, 12]
    [go error 6]
    [ret]
};

/// The quotient, rounded towards 0: it overflows for the least number by -1.
pub const QUOTIENT: Forms = forms! {
    integers;
    [bne x11, x0, 12]
    [go error 7]
    [div x10, x10, x11]
    [slli x5, x10, 2]
    [srai x6, x5, 2]
    [beq x6, x10, 12]
    [go error 6]
    [addi x10, x5, 0]
    [ret]
};

/// The remainder, which has the first one's sign.
pub const REMAINDER: Forms = forms! {
    integers;
    [bne x11, x0, 12]
    [go error 7]
    [rem x10, x10, x11]
    [ret]
};

/// The remainder with the second one's sign: where the signs differ the second is added.
pub const MODULO: Forms = forms! {
    integers;
    [bne x11, x0, 12]
    [go error 7]
    [rem x10, x10, x11]
    [beq x10, x0, 16]
    [xor x5, x10, x11]
    [bge x5, x0, 8]
    [add x10, x10, x11]
    [ret]
};

/// Whether two integers are equal.
pub const EQUALS: Forms = forms! {
    integers;
    [xor x10, x10, x11]
    [sltiu x10, x10, 1]
    [slli x10, x10, 2]
    [addi x10, x10, 1]
    [ret]
};

/// Whether the first integer is below the second.
pub const LESS: Forms = forms! {
    integers;
    [slt x10, x10, x11]
    [slli x10, x10, 2]
    [addi x10, x10, 1]
    [ret]
};
