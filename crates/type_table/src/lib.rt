//! The table in which the workers of a race load and grow the words of the rows.
//!
//! A `TypeTable` shares the words of one round of the flow analysis among threads: each worker steps
//! with a `Pass`, by single atomic operations and without waiting. `specs/SharedWords` has the rule that
//! holds between any two steps: the words and what the passes know are a state that the race machine of
//! `flow_form` reaches. So whatever the schedule, the words lie between the base and the least solution.
#![tactic(auto)]

mod closed;
mod pass;
mod shared_words;
mod table;
#[cfg(test)]
mod tests;

pub use closed::Closed;
pub use pass::Pass;
pub use shared_words::View;
pub use table::TypeTable;
