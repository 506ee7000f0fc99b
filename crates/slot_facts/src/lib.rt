//! Which procedures' closures need slots, and where variables are held.
//!
//! A variable whose value is known needs no place; a closure keeps what is needed of it, and a procedure whose
//! closures keep nothing and are not told apart has one closure for good (lightweight closure conversion, Steckler
//! and Wand 1997). `plan_facts` says what these are, in its `specs/Slotted`: the least set of items in which each
//! is brought by one other. What a procedure needs depends on no place, so it is found first, from the last
//! procedure to the first; then the rest is one search in a graph of procedures and variables.
#![tactic(auto)]

mod choice;
mod compare;
mod ends;
mod graph;
mod marks;
mod needs;
mod own;
#[cfg(test)]
mod tests;
mod values;

pub use choice::slots;
