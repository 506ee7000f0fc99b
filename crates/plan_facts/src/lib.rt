//! What a storage plan asks of a program and of the rows of its flow analysis.
//!
//! `specs/Places` lists the steps of a program, each with where it stands, and `specs/Pairs` says what rows hold;
//! all that a plan says of a program is said of these two. `specs/Calls` says what a call may reach. What an analysis
//! is to find is a least set, with one field for each clause: `specs/Capturing` says which procedures a continuation
//! may capture.
//! `proofs/WorkedPlaces` has a program whose steps and calls were worked out apart.
#![tactic(auto)]

mod calls;
mod pairs;
mod place;
mod walk;

pub use calls::{entered, is_reached, may_resume, takes_many};
pub use pairs::{holds, members};
pub use place::{Action, Place, PlaceList, Places};
pub use walk::places;
