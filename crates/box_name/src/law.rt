//! That the named form of a valid renamed core is well formed, part by part.

ghost use Rattle.std.specs.List.{AllByRecursion};
ghost use Rattle.core_form.specs.declared.program.Program.{Program};
ghost use Rattle.core_form.specs.declared.program.VarRef.{VarRef};
ghost use Rattle.core_form.specs.Trees.{Trees};
ghost use Rattle.core_form.specs.Valid.{IsRenamed};
ghost use Rattle.named_form.specs.Valid.{AnyValue, Binds, Bodies, Boxes, Counted, Literals, Made, NamesIn, Numbered, Placed, Scoped, Takes, Throughout, WellFormed};
ghost use Rattle.box_name.specs.Cores.{form_of};

/// The law that each step of the named form of a valid renamed core binds one variable, a `Fix` one for each
/// procedure; that an operation has its operands; that steps and procedures stand at positions; and that the
/// program takes nothing and has no value, while its procedures have values and no definitions.
pub fn steps_are_well_formed()
    ensures binds { (core : Program VarRef) (forms : Trees VarRef) → IsRenamed core forms → AllByRecursion (λ w. Throughout Binds AnyValue w.body) (form_of core forms).procs }
    ensures takes { (core : Program VarRef) (forms : Trees VarRef) → IsRenamed core forms → AllByRecursion (λ w. Throughout Takes AnyValue w.body) (form_of core forms).procs }
    ensures placed { (core : Program VarRef) (forms : Trees VarRef) → IsRenamed core forms → AllByRecursion Placed (form_of core forms).procs }
    ensures bodies { (core : Program VarRef) (forms : Trees VarRef) → IsRenamed core forms → Bodies (form_of core forms).procs }
{}

/// The law that the named form of a core binds each local variable once, numbered in the order of its procedures
/// and their steps.
pub fn variables_are_numbered()
    ensures { (core : Program VarRef) (forms : Trees VarRef) → Numbered (form_of core forms).procs }
{}

/// The law that the numbers in the steps of the named form of a valid renamed core name literals, procedures and
/// top-level variables that are there.
pub fn numbers_are_named()
    ensures { (core : Program VarRef) (forms : Trees VarRef) → IsRenamed core forms → AllByRecursion (λ w. Throughout (NamesIn (form_of core forms)) AnyValue w.body) (form_of core forms).procs }
{}

/// The law that each procedure of the named form of a valid renamed core, but the program itself, is made by one
/// step, of a procedure before it.
pub fn procedures_are_made_once()
    ensures { (core : Program VarRef) (forms : Trees VarRef) → IsRenamed core forms → Made (form_of core forms).procs }
{}

/// The law that the literals of the named form of a valid renamed core are constants, one after another, each named
/// by one step, and that the undefined value stands alone and is named by none.
pub fn literals_are_named_once()
    ensures { (core : Program VarRef) (forms : Trees VarRef) → IsRenamed core forms → Literals (form_of core forms) }
{}

/// The law that a variable of the named form of a valid renamed core is read as a box where it is bound to one, and
/// nowhere else.
pub fn boxes_are_read_as_boxes()
    ensures { (core : Program VarRef) (forms : Trees VarRef) → IsRenamed core forms → Boxes (form_of core forms).procs }
{}

/// The law that each variable that a procedure of the named form of a valid renamed core reads, or that is free in a
/// procedure of which it makes a closure, is bound before where this procedure binds it, and that the program has no
/// free variable.
pub fn variables_are_in_scope()
    ensures { (core : Program VarRef) (forms : Trees VarRef) → IsRenamed core forms → Scoped (form_of core forms).procs }
{}

/// The law that the named form of a valid renamed core is well formed, where it has fewer than 2^32 procedures and
/// local variables.
pub fn named_forms_are_well_formed()
    ensures { (core : Program VarRef) (forms : Trees VarRef) → IsRenamed core forms → Counted (form_of core forms).procs → WellFormed (form_of core forms) }
{}
