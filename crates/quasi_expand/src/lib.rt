//! The three forms that are read in more than one step, by their shapes: `case`, `do` and the template of a
//! quasiquote (R4RS 4.2.1, 4.2.4 and 4.2.6).
//!
//! A shape says which parts of a form are what; what the form means is said by whoever rewrites it.
//! `specs/Shapes` says which data are the clauses of a `case` and the bindings of a `do`, `specs/Cases` and
//! `specs/Loops` what their parts are: what is read from nodes is exactly that, and nothing where there is
//! none (`specs/Agreement`).
//!
//! Of a template the steps are read that make it. `specs/Templates` says which template a datum is, and
//! `specs/Making` what steps make, done one after another.
#![tactic(auto)]

mod case;
mod do_loop;
mod shape;
mod template;

pub use case::{Case, CaseClause, case_clause, read_case};
pub use do_loop::{DoBinding, DoLoop, do_binding, read_do};
pub use shape::{is_name, is_word, list_items};
pub use template::{Part, read_template};
