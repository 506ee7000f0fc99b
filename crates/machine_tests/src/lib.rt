//! Examples and tables for the public calls of the crates under the passes. They stand in a crate of their own,
//! so that no crate is proved a second time for its tests.
#![tactic(auto)]

#[cfg(test)]
mod data_words;
#[cfg(test)]
mod elf;
#[cfg(test)]
mod emulator;
#[cfg(test)]
mod ground;
#[cfg(test)]
mod instructions;
#[cfg(test)]
mod outside;
