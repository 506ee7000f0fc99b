//! Programs in named form, what they do, what storage they hold under a plan, and the plain plan.
//!
//! The named form is A-normal form (Flanagan, Sabry, Duba and Felleisen 1993): each step of a block binds a
//! variable by one act, so what a run holds can be said by variables and sites. Sites whose objects end with the
//! activation that makes them are regions (Tofte and Talpin 1997); continuations leave their frames in records
//! (Clinger, Hartheimer and Ost 1999); storage is counted state by state, tail calls leaving no frame (Clinger
//! 1998).
//!
//! `specs/Code` has blocks as linked steps, how blocks, steps and sites are numbered, and which steps are in tail
//! position; `specs/Written` says which program the public types stand for, and `specs/Valid` which programs are
//! valid, part by part. `specs/NamedRun` says what a program does, step by step, and `named_steps` has the laws of
//! a step. `specs/Storage` counts the bytes that a state holds under a plan, `specs/ValidPlan` says when a plan is
//! valid and when it fits a program, and `specs/PlainPlan` which plan `Plan::plain` answers; `specs/Tallies` and
//! `specs/Needs` say what its two walks over a program find.
//!
//! Computed checks hold the definitions: `proofs/RunsThatEnd` and `proofs/RunsThatFail` runs of small programs,
//! `proofs/StorageHeld` and `proofs/StorageSizes` their storage, `proofs/PlansBroken` a plan for each part of a
//! valid plan that breaks it alone, `proofs/ProgramsBroken` a program for each part of well-formed programs, and
//! `proofs/PlainPlans` runs under plain plans. `proofs/Labels` shows that a well-formed program's procedures are
//! so as they run, and `proofs/Depth` that more depth gives no more free variables.
#![tactic(auto)]

mod free;
mod law;
mod plain;
mod plan;
mod program;
mod tally;
#[cfg(test)]
mod tests;

pub use law::named_steps;
pub use plan::{
    Fiction, Fictions, Flags, Marks, Plan, ProcSet, Repr, ReprList, Reprs, Sites, Slots, StepUse,
    StepUses,
};
pub use program::{Act, Block, Named, Proc, Procs, Step, Steps};
