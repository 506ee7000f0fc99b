//! Reads a text as data, or finds its first fault.
//!
//! What the tokens of a text are, and which tokens are a text, is said in datum_form by whole texts.
//! `specs/Answer` says which data a text reads as, and which fault it has: `read_program` answers these, and
//! only want of memory is free. `one_answer` is the law that a text has one answer, `one_reading` the same of
//! tokens, `same_texts` that the tokens which are found from left to right are those of the grammar,
//! `no_token` that where they stop before the text's end the grammar has none, and why, and `printed_data` that
//! what `write_text` prints of them reads as the same data.
//!
//! The code finds a text's next token (`lexer`, `piece`, `word`, `number`, `string`) and gives it to
//! what is open (`reading`, `level`), where it becomes nodes (`nodes`). A token is looked at once, and a
//! string or a name is taken over in pieces. `specs/Machine` is what the code does to a token, by trees in
//! place of nodes; `proofs/` show that it ends with the trees of the text exactly where there are some, and
//! with the fault and its place where there are none. No contract of a public function names it.
#![tactic(auto)]

mod error;
mod law;
mod level;
mod lexer;
mod nodes;
mod number;
mod piece;
mod read;
mod reading;
mod string;
mod word;

pub use error::ReadErr;
pub use law::{no_token, one_answer, one_reading, printed_data, same_texts};
pub use read::read_program;
