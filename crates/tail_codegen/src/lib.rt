//! The code of a procedure: the templates of its entries, steps, calls and ends.
//!
//! `specs/Templates` says which items each step of a flat procedure is, with the items behind it as its last
//! argument; `code` answers these items. Register 8 is the frame, 9 the stack's end, 18 the low end of the
//! objects that stay, 19 the argument words, 20 the heap's start; 16 has the position that an error names.
#![tactic(auto)]

mod block;
mod call;
mod emit;
mod entry;
mod make;
mod operation;
mod place;
mod unit;
mod variable;

pub use entry::{code, code_at};
