ghost use Rattle.std.specs.Prelude.{◌≡◌, Some};
ghost use Rattle.scheme_base.specs.declared.env.Env.{Env as Outside};
ghost use Rattle.scheme_base.specs.Runs.{Lawful};
ghost use Rattle.scheme_base.specs.Stops.{Stop};
ghost use Rattle.named_form.specs.Code.{Program};
ghost use Rattle.named_form.specs.Laws.{HoldsAsMuch, Keeps};
ghost use Rattle.named_form.specs.NamedRun.{State, machine, step};

/// The laws of the named machine: a step is total, the machine is a lawful one, objects, boxes, return points
/// and activations keep their numbers, and a state that has stopped holds what the state before it held.
#[tactic(auto, using(crate::proofs::StepLaws::lawful, crate::proofs::StepLaws::keeps))]
pub fn named_steps()
    ensures lawful { (p : Program) (env : Outside) → Lawful (machine p env) }
    ensures keeps { (p : Program) (env : Outside) (s : State) → Keeps s.world (step p env s).world }
    ensures holds { (p : Program) (env : Outside) (s : State) (stop : Stop) → (step p env s).stop ≡ Some stop → HoldsAsMuch s (step p env s) }
{}
