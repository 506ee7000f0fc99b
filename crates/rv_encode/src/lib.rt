//! The words of instructions: `encode` gives an instruction's, and `decode` reads one.
//!
//! Both are the table of `rv_form`, which follows the RISC-V unprivileged manual's formats and opcode
//! listings. `encoded_is_decoded` and `decoded_is_encoded` are the laws of the table: each is the other's
//! inverse, on valid instructions and on words that have an instruction.
#![tactic(auto)]

mod decoding;
mod encoding;
mod laws;

pub use decoding::decode;
pub use encoding::encode;
pub use laws::{decoded_is_encoded, encoded_is_decoded};
