//! The emulator: `load` makes a machine of an image, and `Machine::run` does the machine's steps.
#![tactic(auto)]

mod exec;
mod loading;
mod machine;
mod memory;
mod next;
mod region;
mod registers;
mod step;
mod system;
mod trap;

pub use machine::{Machine, load};
pub use next::RunEnd;
