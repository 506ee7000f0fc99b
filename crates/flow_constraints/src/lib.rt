//! From the named form of a program to the rules of its flow analysis.
//!
//! Each variable has a row of atoms, the kinds of values that may reach it: this is 0-CFA (Shivers 1991) by set
//! constraints (Heintze and McAllester 1997), with a row for the contents of each site, one for each block that
//! tells whether it is reached, and one for the results of each procedure. `specs/Layout` numbers the rows and the
//! atoms of a program, `specs/Table` has the rules of each kind of step, and `specs/Listed` is the whole list. The
//! rules are counted before one is made, so a program with too many is refused at once.
#![tactic(auto)]

mod atoms;
mod calls;
mod census;
mod constraints;
mod counts;
mod flow;
mod law;
mod layout;
mod literals;
mod operations;
mod put;
mod steps;
mod tally;

pub use constraints::generate;
pub use counts::Counts;
pub use flow::{Entries, Entry, Flow, Kind, Kinds};
pub use law::rules_are_valid;
pub use layout::flow_of;
pub use steps::first_sites;
