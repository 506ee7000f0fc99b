//! That worked programs do what they should.

ghost use Rattle.std.specs.List.{AllByRecursion};
ghost use Rattle.worked_runs.specs.Programs.{worked};
ghost use Rattle.worked_runs.specs.Runs.{RunsAlike};

/// The law that each worked program writes and stops as it should by the source machine, and that its named form does
/// the same by the named machine.
pub fn worked_programs_run_alike()
    ensures { AllByRecursion RunsAlike worked }
{}
