//! Expansion: data that are read from a text become a program in core forms, or have a broken form.
//!
//! `specs/` says which core some data are, in three steps. `Grammar` reads a datum as a surface form of
//! `Forms`, or says by which rule it is broken; `Faults` says which fault counts. `Rewriting` says what each
//! form is rewritten to, as R4RS 7.3 does, where `Calls` has the calls of the library's procedures that become
//! operations. What comes out are drafts, and `draft_form` says how they are numbered. `Programs` puts the
//! definitions of the library that a program reaches before it, and has `Expands` and `FormFault`.
//!
//! `one_expansion` is the law that all data have one core or one fault, `valid_core` that the core is valid where its
//! numbers are those of its type, which `known_types` shows of a core, `readable_inputs` that the data of a text can
//! be expanded, and `library_reads` that the library's text is not broken. `proofs/Worked` has the cores of programs,
//! computed by the definitions.
//!
//! The code numbers all names (`words`, `source`), expands a form by steps that wait on a list, so that neither a
//! long form nor a deep one takes stack (`step`, `expander`, and by kind of form `form`, `body`, `binding`,
//! `clause`), makes drafts (`make`, `known`) in a scope (`scope`), and notes the first fault (`fault`). `defined`
//! finds the names that the library defines, and which of them are public. `assemble` chooses the library's
//! definitions and the program's own names (`first`), finds the symbols (`symbol`), and makes the core. The contract
//! of `expand` says that it answers exactly the core of `Expands`, and a fault exactly where a form is broken, which
//! is that of `FormFault`.
//!
//! `specs/Waiting` says which fault waits in a step: what a call notes and what it leaves waiting have the least
//! fault of its form by the grammar. `specs/Shapes` says what is read of a form, `specs/Naming` which numbers names
//! get, `specs/Copied` how the library's data are moved to their places (`placed`).
//!
//! `specs/Views` and `Making` say what has been made so far, and what a step makes of it; `specs/Viewed` what a call
//! does to that: it puts steps behind the others (`specs/Putting`), or changes it at once. So each call comes to what
//! `Rewriting` says of its form, for data of which no form is broken.
#![tactic(auto)]

mod answer;
mod assemble;
mod binding;
mod body;
mod clause;
mod defined;
mod expander;
mod fault;
mod first;
mod form;
mod formals;
mod known;
mod law;
mod make;
mod order;
mod placed;
mod program;
mod scope;
mod source;
mod step;
mod symbol;
mod typed;
mod words;

pub use answer::expand;
pub use law::{library_reads, one_expansion, readable_inputs, valid_core};
pub use typed::known_types;
