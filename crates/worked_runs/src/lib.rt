//! Worked programs, run by the source machine and by the named machine on the named form: both write and stop as a
//! compiler says that was written apart from this one.
//!
//! `specs/Programs` has the programs, over the definitions of the library that they reach (`specs/Reached`);
//! `specs/Runs` says what both machines do. The runs are computed by the definitions.
#![tactic(auto)]

mod law;

pub use law::worked_programs_run_alike;
