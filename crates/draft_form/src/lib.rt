//! Drafts: cores before their literals and their fresh variables have numbers, and the core that a draft is.
//!
//! The expander makes drafts. A constant of a draft is a part of the data that it was read from, and a variable that
//! has no name in the text is known by its level, the number of variables that are bound around it. So an expression
//! is made without knowing what stands before it, and numbers are given once, to the whole core, in the order of its
//! text.
//!
//! `specs/Drafts` has the trees, and `specs/Numbers` says which core they are: the literals in order, each before its
//! parts, and the k-th fresh variable `.k`. `specs/Drawn` says which draft a number in a table stands for.
//! `draft` is the table in which drafts are made: each of its calls says which draft a new number stands for, and that
//! all others still stand for theirs. `number`, `level`, `growing` and `literal` make the core: `Text::add_form` says that
//! the forms that are there, with one more, are the numbered drafts (`specs/Numbered`).
#![tactic(auto)]

mod draft;
mod growing;
mod level;
mod literal;
mod number;
mod order;

pub use draft::{Constant, Draft, Drafts, Variable};
pub use growing::Growing;
pub use level::Levels;
pub use number::Text;
pub use order::{push_parts, push_reversed};
