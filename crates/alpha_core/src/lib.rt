//! Renaming: each local variable of a core gets a number of its own.
//!
//! `specs/Renaming` says what the renamed core is, and `specs/Depth` how deep a core is. `renamed_cores_are_valid` is the
//! law that the renamed core of a valid core is valid.
#![tactic(auto)]

mod copy;
mod deep;
mod law;
mod lists;
mod name;
mod renamer;
mod renaming;
mod scope;

pub use copy::copy_lits;
pub use law::renamed_cores_are_valid;
pub use name::Name;
pub use renaming::rename;
