ghost use Rattle.std.specs.Prelude.{◌≡◌, ℕ, List, ◌⊎◌};
ghost use Rattle.scheme_base.specs.declared.pos.Pos.{Pos};
ghost use Rattle.datum_form.specs.Data.{Items};
ghost use Rattle.datum_reader.specs.Answer.{Reads};
ghost use Rattle.core_form.specs.declared.program.Program.{Program as Core};
ghost use Rattle.core_form.specs.declared.program.Var.{Var};
ghost use Rattle.core_form.specs.Trees.{Trees, Holds};
ghost use Rattle.core_form.specs.Valid.{IsCore};
ghost use Rattle.prelude_text.specs.Text.{library_text};
ghost use Rattle.scheme_expand.specs.Inputs.{AreInputs};
ghost use Rattle.scheme_expand.specs.Laws.{AreOne, BindFew, IsLibrary, IsTyped};
ghost use Rattle.scheme_expand.specs.Programs.{Expands, FormFault};

/// The law that each list of data is one core, or else has one fault.
pub fn one_expansion()
    ensures core { (ds : Items) (core other : Core Var) → Expands ds core → Expands ds other → AreOne core other }
    ensures fault { (ds : Items) (p q : Pos) (m n : ℕ) → FormFault ds p m → FormFault ds q n → (p ≡ q) × (m ≡ n) }
    ensures apart { (ds : Items) (core : Core Var) (p : Pos) (n : ℕ) → Expands ds core → FormFault ds p n → ⊥ }
    ensures some { (ds : Items) → ((core : Core Var) × Expands ds core) ⊎ ((p : Pos) × (n : ℕ) × FormFault ds p n) }
{}

/// The law that the core of data is valid, whatever the data, with positions and characters of its type.
pub fn valid_core()
    ensures { (ds : Items) (core : Core Var) (forms : Trees Var) → AreInputs ds → Expands ds core → IsTyped core → Holds core forms → BindFew forms → IsCore core forms }
{}

/// The law that the data of a text can be expanded.
pub fn readable_inputs()
    ensures { (text : List ℕ) (ds : Items) → Reads text ds → AreInputs ds }
{}

/// The law that the library's text reads, and that nothing in it is broken.
pub fn library_reads()
    ensures text { (ds : Items) × Reads library_text ds }
    ensures library { (ds : Items) → Reads library_text ds → IsLibrary ds }
{}
