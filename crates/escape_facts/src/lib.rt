//! Which sites have objects that may outlive the activation that makes them.
//!
//! The objects of all other sites can end with their activation (Tofte and Talpin 1997). The sites are the least set
//! that has all that may outlive its activation, which `plan_facts` defines; here they are found as what can be
//! reached: `specs/Owners` lists the sites with whose they are, `specs/Reached` says where the search starts, and which
//! sites lead to which.
#![tactic(auto)]

mod contents;
mod escaping;
mod owners;
mod rows;
mod starts;
#[cfg(test)]
mod tests;

pub use escaping::escapes;
