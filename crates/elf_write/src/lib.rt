//! ELF files of images, both ways.
//!
//! `write` makes the file of an image, and `read` finds the image in a file's bytes or the first check
//! that they fail. `specs/Valid` says which images there are, `specs/Fields` where the fields of a file
//! stand, `specs/File` which bytes are written, and `specs/Reading` which bytes are read, and as what.
#![tactic(auto)]

mod error;
mod fields;
mod header;
mod reading;
mod segments;
mod writing;

pub use error::ElfErr;
pub use header::ProgramHeader;
pub use reading::{one_answer, read};
pub use rv_form::{Image, Segment, Segments};
pub use writing::write;
