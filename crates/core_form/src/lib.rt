//! Programs in core forms, their text, and what they mean.
//!
//! A core has ten forms of expression, with R4RS's derived forms rewritten (R4RS 4.2 and 7.3), and primitive
//! operations in the place of library procedures. Expressions stand in a list and are named by numbers, so
//! that a program takes no recursion to hold or to print.
//!
//! `specs/Trees` says which tree a number stands for, `specs/Valid` which programs are valid, part by part,
//! and `specs/Text` what a core's text is. `specs/Source` says what a program does: the formal semantics of
//! R4RS 7.2 as a machine of small steps (the CEK machine: Felleisen and Friedman, Control operators, the
//! SECD-machine, and the lambda-calculus, 1986), in whatever form its variables are. Every other machine of
//! the compiler is compared with this one.
//!
//! Laws: `source_steps` (the machine is lawful), `one_program` (numbers fix the trees), `valid_cores` (a valid
//! core has a text). `proofs/RunChecks` has runs of small programs, `proofs/CoreChecks` valid cores with their
//! trees and texts, and for each part of validity cores that break it alone.
#![tactic(auto)]

mod expr;
mod law;
mod literal;
mod piece;
mod program;
#[cfg(test)]
mod tests;
mod text;
mod vars;

pub use law::{one_program, source_steps, valid_cores};
pub use program::{
    Core, Expr, Exprs, Node, Program, RenExpr, RenExprs, Renamed, Var, VarRef, Vars, What,
};
pub use text::core_text;
