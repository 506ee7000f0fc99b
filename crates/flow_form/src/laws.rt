ghost use Rattle.std.specs.Prelude.{◌*◌, ◌≤◌, ℕ, Bool, List, length};
ghost use Rattle.flow_form.specs.declared.constraints.Constraints.{Constraints};
ghost use Rattle.flow_form.specs.declared.rule.Rule.{Rule};
ghost use Rattle.flow_form.specs.Laws.{IsLeastSolution, StepGrows};
ghost use Rattle.flow_form.specs.Race.{IsSound, Move, Runs, State, start};
ghost use Rattle.flow_form.specs.Shape.{pairs_in};

/// The law of the least solution: it is closed, it is within each closed set that has the base, and
/// the first plain step that adds nothing ends in it. A base within the least solution of nothing
/// leads to that same one, and so a solution may go on from any point on its way.
pub fn least_is_least()
    ensures { (rules : List Rule) (base : ℕ → ℕ → Bool) → IsLeastSolution rules base }
{}

/// The law of the race: whatever the workers do, in any order and however many they are, each word
/// lies between the base and the least solution from it, and what a done block gives from the base
/// stands in the words.
pub fn any_schedule()
    ensures { (c : Constraints) (base : List ℕ) (workers : ℕ) (moves : List Move) (s : State) → Runs (start c base workers) moves s → IsSound c base s }
{}

/// The law of the chain: a plain step of a set that is not closed has added a pair, of which there
/// are at most 64 a word.
pub fn chain_is_bounded()
    ensures grows { (c : Constraints) (words more : List ℕ) → StepGrows c words more }
    ensures few { (words : List ℕ) → pairs_in words ≤ 64 * length words }
{}
