//! Words of code as a machine keeps them to run them fast, decoded, and what their operations compute.
//!
//! `rv_form` says what the instructions are and do (the RISC-V unprivileged manual's RV64I and M). `word_of` packs one
//! into eight bytes, and each function of `operation` is one column of the manual: a number of two registers.
#![tactic(auto)]

mod access;
mod decoded;
pub mod operation;

pub use access::Width;
pub use decoded::{Decoded, Op, ZERO, pack, word_of};
