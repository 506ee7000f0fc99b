//! Pairs (R4RS 6.3): two words at an address of which the value is 2 more.
use crate::forms::Forms;
use const_data::Label;
use rv_asm::AsmItem;
use rv_form::Instr;

/// A pair of registers 10 and 11, with the running activation.
pub const CONS_LOCAL: Forms = forms! {
    any;
    [sub x5, x18, x9]
    [addi x6, x0, 16]
    [bgeu x5, x6, 12]
    [go storage]
    [sd x10, 0(x9)]
    [sd x11, 8(x9)]
    [addi x10, x9, 2]
    [addi x9, x9, 16]
    [ret]
};

/// A pair of registers 10 and 11, for good.
pub const CONS_GLOBAL: Forms = forms! {
    any;
    [sub x5, x18, x9]
    [addi x6, x0, 16]
    [bgeu x5, x6, 12]
    [go storage]
    [addi x18, x18, -16]
    [sd x10, 0(x18)]
    [sd x11, 8(x18)]
    [addi x10, x18, 2]
    [ret]
};

/// What the pair's first word holds.
pub const CAR: Forms = forms! {
    pair;
    [ld x10, -2(x10)]
    [ret]
};

/// What the pair's second word holds.
pub const CDR: Forms = forms! {
    pair;
    [ld x10, 6(x10)]
    [ret]
};

/// Puts register 11 into the first word of a pair that is no part of a literal, which stands below the heap.
pub const SET_CAR: Forms = forms! {
    pair;
    [bgeu x10, x20, 12]
    [go error 9]
    [sd x11, -2(x10)]
    [addi x10, x0, 13]
    [ret]
};

/// Puts register 11 into the second word of a pair that is no part of a literal.
pub const SET_CDR: Forms = forms! {
    pair;
    [bgeu x10, x20, 12]
    [go error 9]
    [sd x11, 6(x10)]
    [addi x10, x0, 13]
    [ret]
};
