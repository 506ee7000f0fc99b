//! The least set of numbers that has some and is closed under what leads on from them.
//!
//! What an analysis finds is the least set that is closed under its clauses; where each clause brings one number
//! because of one other, that is what can be reached in a graph. `specs/Least` says what a least set is, of any
//! clauses, and one search finds it (a breadth-first search, with the numbers that are found as its queue). `least_led`
//! asks a graph where each number leads to when it comes to it, so the graph need not be there as a whole;
//! `least_closed` is given links. Each number is gone on from once.
#![tactic(auto)]

mod graph;
mod links;
mod search;
#[cfg(test)]
mod tests;

pub use graph::Graph;
pub use links::{Link, Links, least_closed, targets_of};
pub use search::least_led;
