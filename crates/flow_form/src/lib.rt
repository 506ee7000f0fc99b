//! Flow constraints, their least solution, and the race in which it is computed.
//!
//! Each variable of a program has a row of atoms, the kinds of values that may reach it, and a rule
//! says what one row takes from the others: these are the set constraints of a flow analysis in the
//! manner of Heintze and McAllester. `specs/Least` says what a plain step of all rules adds and what
//! the least solution from a base is. `specs/Race` is the machine in which workers load and grow the
//! words of the rows in any order. The laws of both are the contracts of `laws`: the layers above run
//! the machine by these same definitions, and so cannot miss the least solution.
#![tactic(auto)]

mod constraints;
mod event;
mod laws;
mod rows;
mod rule;

pub use constraints::{BLOCK, Constraints, MOST_ATOMS, MOST_ROWS, MOST_RULES, MOST_WORDS};
pub use event::{Event, Worker};
pub use laws::{any_schedule, chain_is_bounded, least_is_least};
pub use rows::{Rows, no_pairs, row_of};
pub use rule::{Give, Rule, Rules, Test};
