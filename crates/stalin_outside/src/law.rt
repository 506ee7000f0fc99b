ghost use Rattle.std.specs.Prelude.{List};
ghost use Rattle.scheme_base.specs.declared.env.Env.{Env};
ghost use Rattle.stalin_outside.specs.Console.{Told};
ghost use Rattle.stalin_outside.specs.Environment.{IsOf};
ghost use Rattle.stalin_outside.specs.Transcript.{Call, Passes, Shows};

/// The law of a console's answers: whatever they are, they are those of an environment, under which they
/// are the trace of a run.
pub fn answers_are_of_an_environment()
    ensures { (made : List Call) → (env : Env) × IsOf made env }
{}

/// The law of what a console tells: its answers in a run are those of the run's trace, and its outputs
/// have gained the bytes that were written and did not fail.
pub fn console_shows_the_trace()
    ensures { (made : List Call) (before now : Told) → Passes made before now → Shows made before now }
{}
