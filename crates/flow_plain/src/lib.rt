//! The least solution by plain steps, and the race machine as a value that runs.
//!
//! `solve_plain` is the slow and simple solver that the others are measured by: it takes plain steps,
//! all rules in each, until a step adds nothing. `Race` keeps the words and the workers of a race and
//! does one event at a time, exactly where the event is legal. Both work on words of 64 bits: `rule`
//! says what one rule reads and gives in them, `follow` what follows from what a worker has loaded and
//! what a block of rules still owes, and `seat` keeps one worker's words.
#![tactic(auto)]

mod follow;
mod race;
mod rule;
mod seat;
mod solve;

pub use race::{IllegalEvent, MOST_WORKERS, Race};
pub use solve::{chain, solve_plain};
