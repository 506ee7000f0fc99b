//! Programs in flat form: first-order procedures, each with one frame of numbered slots.
//!
//! A flat program is a program in named form under a storage plan: each variable has its place, each call
//! its mode, each object the end of storage where it is made, and what is never reached has no code. It is
//! what closure conversion answers (Steele 1978; Appel 1992), with frames on a stack that a capture moves
//! into records (Clinger, Hartheimer and Ost 1999).
//!
//! `specs/FlatCode` has blocks as linked steps, and `specs/FlatWritten` says which flat program the public
//! types stand for. `specs/FlatRun` says what a flat program does, step by step, `specs/FlatStorage` how many
//! bytes a state holds, and `specs/FlatValid` which flat programs are valid.
#![tactic(auto)]

mod program;

pub use program::{
    At, Cells, Flat, FlatAct, FlatBlock, FlatPart, FlatParts, FlatProc, FlatProcs, FlatStep,
    FlatSteps, Made, Mades, Mode, Place, Places,
};
