ghost use Rattle.std.specs.Prelude.{◌≡◌, ◌↔◌, ℕ, List, Some};
ghost use Rattle.scheme_base.specs.declared.env.Env.{Env as Outside};
ghost use Rattle.scheme_base.specs.declared.op.Op.{Op as Operation};
ghost use Rattle.scheme_base.specs.Heaps.{Confined, in_heap, look, AlwaysHasRoom, RunsOut, StopsFull, InStep};
ghost use Rattle.scheme_base.specs.Laws.{Decides, ReadsOperands, IsList, Ends, HoldsWhatItMeets, Commutes, StaysInProfile};
ghost use Rattle.scheme_base.specs.Operations.{Sight, Channels, items_at};
ghost use Rattle.scheme_base.specs.Runs.{Machine, after, Lawful, SameRuns, WritesMore};
ghost use Rattle.scheme_base.specs.Values.{Value};

/// The laws of all operations: which types they refuse, what they come to otherwise, what they read, which
/// lists `%apply` takes, and where the values of an outcome come from. They do the same under another
/// numbering of objects, and keep to integers in range and characters that are bytes.
#[tactic(auto, using(crate::proofs::OperationLaws::decides, crate::proofs::ListsFound::items_are_list, crate::proofs::OutcomeValues::holds_what_it_meets, crate::proofs::Renumbering::commutes, crate::proofs::ProfileKept::stays_in_profile))]
pub fn operations()
    ensures outcomes { (env : Outside) (s : Sight) (ch : Channels) (o : Operation) (vs : List Value) → Decides env s ch o vs }
    ensures reads { (env : Outside) (s t : Sight) (ch : Channels) (o : Operation) (vs : List Value) → ReadsOperands env s t ch o vs }
    ensures lists { (s : Sight) (v : Value) (vs : List Value) → Ends s → (items_at s v ≡ Some vs) ↔ IsList s v vs }
    ensures held { (env : Outside) (s : Sight) (ch : Channels) (o : Operation) (vs : List Value) → HoldsWhatItMeets env s ch o vs }
    ensures renumbered { (env : Outside) (φ : ℕ → ℕ) (s t : Sight) (ch : Channels) (o : Operation) (vs : List Value) → Commutes env φ s t ch o vs }
    ensures profile { (env : Outside) (s : Sight) (ch : Channels) (o : Operation) (vs : List Value) → StaysInProfile env s ch o vs }
{}

/// The laws of runs: what a lawful machine has written only gets more, a byte a step at most, and runs that
/// are the same compose.
pub fn runs<S, T, U>()
    ensures writes { (machine : Machine S) → Lawful machine → (n : ℕ) (s : S) → WritesMore n (machine.trace s) (machine.trace (after machine n s)) }
    ensures compose { (one : Machine S) (two : Machine T) (three : Machine U) (s : S) (t : T) (u : U) → SameRuns one two s t → SameRuns two three t u → SameRuns one three s u }
{}

/// The laws of runs in a heap. `other`, as an image in a heap of that size, has the runs of a machine in it.
/// So where each state has room, it has the machine's own runs; where one has not, it stops for storage, with
/// all that the steps up to the first such state have shown. Machines that go in step stop for storage alike.
pub fn heaps<S, T>()
    ensures lawful { (c : Confined S) → Lawful c.machine → Lawful (in_heap c) }
    ensures room { (c : Confined S) (other : Machine T) (s : S) (t : T) → AlwaysHasRoom c s → SameRuns (in_heap c) other (look c s) t → SameRuns c.machine other s t }
    ensures full { (c : Confined S) (other : Machine T) (s : S) (t : T) (n : ℕ) → Lawful c.machine → RunsOut c s n → SameRuns (in_heap c) other (look c s) t → StopsFull c other s t n }
    ensures steps { (one : Confined S) (other : Confined T) (s : S) (t : T) → InStep one other s t → SameRuns (in_heap one) (in_heap other) (look one s) (look other t) }
{}
