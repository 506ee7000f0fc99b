//! From the text of a program to the bytes of its image, by all passes in their order.
//!
//! `build` is the whole compiler without the outside: it reads, expands, renames and names the program, makes its
//! constraints, plans its storage, and writes its code, data and file. `analyse` goes as far as the constraints, and
//! solves them. `BuildErr` says which pass refuses a program, and why.
#![tactic(auto)]

mod analysis;
mod back;
mod codes;
mod error;
mod front;
mod plan;

pub use analysis::{Analysis, analyse};
pub use back::build;
pub use error::BuildErr;
