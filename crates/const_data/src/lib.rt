//! The data of a compiled program, word by word, and the labels by which its code and data name places
//! that only the image's layout fixes.
//!
//! `specs/Words` has the data words as one function of the flat program.
#![tactic(auto)]

mod arguments;
mod names;
mod offsets;
mod word;
mod words;

pub use offsets::{ARGUMENTS, Offsets};
pub use word::{Data, Label, Word};
pub use words::static_words;
