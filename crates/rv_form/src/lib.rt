//! The RV64IM machine that images run on: its instructions, its images and, in `specs/`, its step.
//!
//! It follows the RISC-V unprivileged manual, RV64I and M, for a machine without privileges and with
//! three system calls; its traps are this project's own. An instruction is a value of `Instr`, of which
//! `specs/Instruction` says the word of 32 bits by the formats of `specs/Formats`; `specs/Image` says what
//! an image loads, and `specs/Machine` what each instruction does, with the operations of
//! `specs/Arithmetic`. `proofs/Walk` has the lemmas by which a piece of code is walked through, one
//! instruction after the other.
#![tactic(auto)]

mod image;
mod instr;

pub use image::{Image, Segment, Segments};
pub use instr::Instr;
