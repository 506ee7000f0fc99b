ghost use Rattle.std.specs.Prelude.{◌≡◌, ℕ, List, length};
ghost use Rattle.prelude_text.specs.Closure.{AreNumbers, AreUses, IsClosure, closure};

/// The law that the numbers which are reached are one list, and that spreading marks finds it.
pub fn one_closure()
    ensures one { (uses : List (List ℕ)) (from ks js : List ℕ) → IsClosure uses from ks → IsClosure uses from js → ks ≡ js }
    ensures found { (uses : List (List ℕ)) (from : List ℕ) → AreUses (length uses) uses → AreNumbers (length uses) from → IsClosure uses from (closure uses from) }
{}
