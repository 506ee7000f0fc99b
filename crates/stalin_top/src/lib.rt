//! The top call: the words of a command in, an answer out.
//!
//! `specs/Headline` is what the program promises, and `stalin` carries it. The call reads the command's words
//! (`command`) by the table of commands (`shape`). It reads a source and has its
//! image built (`source`), and writes that (`compile`) or emulates it on the console (`run`); or it has the source
//! analysed and prints the solution (`facts`, `table`); or it measures a program that it makes itself (`make`); or it reads an image and emulates it (`emulate`). It sends the answer's text to the error channel (`sending`).
//!
//! The call has the name of J. M. Siskind's Scheme compiler, from which one idea is taken: that what flow
//! analysis finds out lets closures drop slots.
#![tactic(auto)]

mod answer;
mod command;
mod compile;
mod emulate;
mod facts;
mod law;
mod make;
mod run;
mod sending;
mod shape;
mod source;
mod table;
mod top;

pub use answer::{Answer, Refusal, status};
pub use law::layers;
pub use top::stalin;
