//! Assembly: code whose distances are open, the table of the routines that compiled code calls, and the
//! layout of an image.
//!
//! `specs/Layout` says where the items of a text and its data stand, and which image they make;
//! `specs/Routines` has the order of the routines.
#![tactic(auto)]

mod distance;
mod emit;
mod image;
mod item;
mod measure;
mod routine;
mod sound;
mod symbols;

pub use image::layout;
pub use item::{Asm, AsmItem, Parts};
pub use routine::Routine;
pub use sound::is_sound;
