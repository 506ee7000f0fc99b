//! The workers that solve flow constraints together, by rounds over one shared table.
//!
//! In a round each worker draws blocks of rules and does them: it loads the words that the rules read,
//! by single atomic loads, and grows those that they give to. Then it follows what has grown, whoever grew it.
//! No worker waits for another: one without work looks for some a bounded number of times. `specs/PassSteps`
//! says what a pass has after such steps, `specs/Rounds` what a round gives and what is solved. Whatever
//! the number of workers, the gate and the schedule, the rows that `solve` answers are the least solution.
#![tactic(auto)]

mod block;
mod drain;
mod found;
mod notes;
mod readers;
mod round;
mod rounds;
mod rule;
mod settled;
mod step;
mod waiting;

pub use block::do_block;
pub use rounds::solve;
