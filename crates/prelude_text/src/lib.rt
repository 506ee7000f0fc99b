//! The library of the language, as a text of definitions.
//!
//! `specs/Text` has the text, which `library` answers. `specs/Closure` says which definitions are reached from
//! some of them, and `closure_of` finds them; `one_closure` is the law that they are one list, which can be
//! computed by spreading marks.
#![tactic(auto)]

mod closure;
mod law;
mod text;

pub use closure::closure_of;
pub use law::one_closure;
pub use text::library;
