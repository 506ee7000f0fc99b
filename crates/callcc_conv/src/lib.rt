//! Which procedures a continuation may capture, and which calls leave a record of their frame.
//!
//! A procedure that is captured has its frames copied into records (Clinger, Hartheimer and Ost 1999), so the fewer
//! the better. They are the least set that has joined calls, which `plan_facts` defines; here they are found as what
//! can be reached in a graph of procedures and calls: a call is joined by each procedure that it may enter and by the
//! one whose tail call it is, and joins the procedure in which it stands and all that it may enter.
#![tactic(auto)]

mod capturing;
mod graph;
mod recording;
#[cfg(test)]
mod tests;

pub use capturing::captures;
