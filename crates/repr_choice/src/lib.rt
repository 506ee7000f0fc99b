//! How the values of a program are held, which of its blocks and steps are reached, and which checks stand.
//!
//! A variable that needs no slot is not held at all; one that can be an integer alone is held as a bare one; any
//! other by a word that tells its type. A check of types or counts stands only where some value that may come would
//! be refused (representation choice and check elimination by flow analysis, as in Stalin). `plan_facts` says what
//! these are, in its `specs/Represented`; the rows and the slots are given.
#![tactic(auto)]

mod checks;
mod choice;
#[cfg(test)]
mod tests;
mod wanted;

pub use choice::reprs;
