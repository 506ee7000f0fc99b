//! The named form of a renamed core: every value that is not a variable's has a variable of its own, and
//! assigned variables are boxes.
//!
//! `specs/Whole` defines the named form of a core, over `specs/Told`, which tells direct calls apart,
//! `specs/Counts`, which numbers variables and procedures, and `specs/Naming`, which has the steps. `name` answers
//! exactly that form. `named_forms_are_well_formed` is the law that the form of every valid core is well formed, where its
//! numbers have 32 bits; the other laws are its parts.
#![tactic(auto)]

mod binding;
mod call;
mod direct;
mod facts;
mod law;
mod namer;
mod naming;
mod procedure;
mod sure;
mod survey;

pub use law::{
    boxes_are_read_as_boxes, literals_are_named_once, named_forms_are_well_formed,
    numbers_are_named, procedures_are_made_once, steps_are_well_formed, variables_are_in_scope,
    variables_are_numbered,
};
pub use naming::name;
