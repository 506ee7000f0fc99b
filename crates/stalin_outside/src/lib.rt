//! What the compiler reaches outside itself: a shelf of files, a console and a gate.
//!
//! Each is a trait whose meaning is written in its clauses. A shelf and a console count their faults in
//! numbers that never fall, and a call fails only where its number rose, so that whoever is told of a
//! fault can tell that it was there (`specs/Causes`). What the calls do to files is said in
//! `specs/Shelf`, and what they do to streams in `specs/Console`.
//!
//! Over these stand reading and writing whole files (`specs/WholeFiles`), writing a text to a channel up to
//! the first call that fails (`specs/Sending`), and the transcript of a console's calls with the
//! environments that give it (`specs/Transcript`, `specs/Environment`), so that what a console has done and
//! what a run under an environment does can be compared.
#![tactic(auto)]

mod asks;
mod calls;
mod console;
mod files;
mod gate;
mod law;
mod mem_console;
mod mem_shelf;
mod retry;
mod sending;
mod shelf;
mod streams;
mod whole_files;

pub use console::{Answer, Console, In, Out};
pub use files::FileShelf;
pub use gate::{Gate, OpenGate};
pub use law::{answers_are_of_an_environment, console_shows_the_trace};
pub use mem_console::MemConsole;
pub use mem_shelf::MemShelf;
pub use sending::{print, print_all, send, send_all};
pub use shelf::{Ask, Begun, Got, Kind, Shelf, Took};
pub use streams::StdConsole;
pub use whole_files::{Reading, Writing, read_file, write_file};
