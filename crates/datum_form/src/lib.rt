//! Data as they are read from a text and printed: a table of nodes, in which a list or a vector names its
//! items by their numbers.
//!
//! `specs/Grammar` says by bytes what a token of R4RS 7.1.1 is written as and that a text is a row of tokens
//! with blanks between them, and where this profile is narrower than R4RS. `specs/Syntax` is the grammar of
//! R4RS 7.1.2 as a type of trees, and `written` the tokens of a tree: a list of tokens is a text exactly
//! where it is the tokens of some trees. `Token`, `Atom` and `Mark` are these tokens, in the code as in the
//! definitions. `specs/Text` and `specs/Words` find them from left to right: which `Piece` a text begins
//! with, which `Word` a run of bytes is, and where the tokens end. `specs/Data` says which datum a tree is,
//! marks written out and dotted tails joined, `specs/Stands` which datum a node stands for, and
//! `specs/Print` how data are printed, which `write_text` does. `one_datum` and `data_stay` are the laws
//! that a node stands for one datum at most, and for the same one when nodes are added.
#![tactic(auto)]

mod datums;
mod error;
mod law;
mod piece;
mod text;
mod token;

pub use datums::{Datums, Kind, Node, Nodes};
pub use error::FormErr;
pub use law::{data_stay, one_datum};
pub use piece::{Piece, Word};
pub use text::write_text;
pub use token::{Atom, Mark, Token};
