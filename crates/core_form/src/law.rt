ghost use Rattle.std.specs.Prelude.{◌≡◌};
ghost use Rattle.scheme_base.specs.declared.env.Env.{Env as Outside};
ghost use Rattle.scheme_base.specs.Runs.{Lawful};
ghost use Rattle.core_form.specs.declared.program.Program.{Program as Core};
ghost use Rattle.core_form.specs.declared.program.Var.{Var};
ghost use Rattle.core_form.specs.Trees.{Trees, Holds};
ghost use Rattle.core_form.specs.Source.{Source, State, machine, step, world_of};
ghost use Rattle.core_form.specs.Laws.{Keeps};
ghost use Rattle.core_form.specs.Text.{HasText};
ghost use Rattle.core_form.specs.Valid.{IsCore};

/// The laws of the source machine, whatever variables are: a step is total, the machine is a lawful one, and
/// locations and objects keep their numbers.
pub fn source_steps<V>()
    ensures lawful { (p : Source V) (env : Outside) → Lawful (machine p env) }
    ensures keeps { (p : Source V) (env : Outside) (s : State V) → Keeps (world_of s) (world_of (step p env s)) }
{}

/// The law that a program has one list of forms at most, whatever variables are: a number stands for one
/// tree, so that what a program means is fixed by its numbers.
pub fn one_program<V>()
    ensures { (program : Core V) (forms others : Trees V) → Holds program forms → Holds program others → forms ≡ others }
{}

/// The law that a valid core has a text, which is what `core_text` asks.
pub fn valid_cores()
    ensures { (core : Core Var) (forms : Trees Var) → IsCore core forms → HasText core }
{}
