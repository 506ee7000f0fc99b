//! From the named form to the flat form: closures become lists of kept values, variables become places.
//!
//! The storage plan has decided all that takes thought: which variables a closure keeps, which need no
//! place, which calls leave a record, where objects are made and what is never reached. `flatten` writes
//! these decisions into the program. `specs/FlatOf` has the whole of it as one function of plan and program.
//! `proofs/Beside` runs small programs and their flat programs side by side.
#![tactic(auto)]

mod act;
mod block;
mod counts;
mod literals;
mod numbering;
mod program;
mod tables;

pub use program::flatten;
