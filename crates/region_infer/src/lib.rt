//! Where the objects of each site are made: with the activation that makes them, or for good.
//!
//! A site that does not escape has a region that ends with the activation (Tofte and Talpin 1997, with one region an
//! activation). Which sites escape is given.
#![tactic(auto)]

mod marks;
#[cfg(test)]
mod tests;

pub use marks::regions;
