//! That the rules of a program name what is there.

ghost use Rattle.std.specs.Prelude.{◌≡◌, None};
ghost use Rattle.flow_form.specs.Valid.{AllNamed, IsValid};
ghost use Rattle.named_form.specs.Valid.{Form, WellFormed};
ghost use Rattle.flow_constraints.specs.Limits.{atom_count, passed, row_count};
ghost use Rattle.flow_constraints.specs.Listed.{rules_of};

/// The law that each rule of a well-formed program names rows and atoms that are there. So a program that passes
/// no limit has constraints.
pub fn rules_are_valid()
    ensures named { (f : Form) → WellFormed f → AllNamed (row_count f) (atom_count f) (rules_of f) }
    ensures valid { (f : Form) → WellFormed f → passed f ≡ None → IsValid (row_count f) (atom_count f) (rules_of f) }
{}
