//! That the renamed core of a valid core is valid.

ghost use Rattle.std.specs.Prelude.{[]};
ghost use Rattle.core_form.specs.declared.program.Program.{Program};
ghost use Rattle.core_form.specs.declared.program.Var.{Var};
ghost use Rattle.core_form.specs.declared.program.VarRef.{VarRef};
ghost use Rattle.core_form.specs.Trees.{Trees};
ghost use Rattle.core_form.specs.Valid.{IsCore, IsRenamed};
ghost use Rattle.alpha_core.specs.Answers.{Answers};
ghost use Rattle.alpha_core.specs.Renaming.{all_renamed};

/// The law that the renamed core of a valid core is valid: each local variable is bound once, and stands in its scope.
pub fn renamed_cores_are_valid()
    ensures { (core : Program Var) (renamed : Program VarRef) (forms : Trees Var) → IsCore core forms → Answers core renamed → IsRenamed renamed (all_renamed [] 0 forms) }
{}
