ghost use Rattle.std.specs.Prelude.{◌≡◌, ◌↔◌, ℕ, List, Some, ◌⊎◌};
ghost use Rattle.scheme_base.specs.declared.pos.Pos.{Pos};
ghost use Rattle.datum_form.specs.declared.token.Token.{Token};
ghost use Rattle.datum_form.specs.Syntax.{Syntax, IsText};
ghost use Rattle.datum_form.specs.Faults.{Fault, HasFault};
ghost use Rattle.datum_form.specs.Data.{Items};
ghost use Rattle.datum_form.specs.Grammar.{IsSpelled};
ghost use Rattle.datum_form.specs.Text.{lexed};
ghost use Rattle.datum_form.specs.Text.Ending.{Clean};
ghost use Rattle.datum_reader.specs.declared.error.ReadErr.{ReadErr};
ghost use Rattle.datum_reader.specs.Answer.{Reads, ReadFault, ReadsAgain, Stops, stop_of};

/// The law that a list of tokens is a text of one list of trees, or else has one fault at one place,
/// whatever depth of nesting is allowed.
#[tactic(auto, using(crate::proofs::WholeTreesAreRead::one_text, crate::proofs::OneReading::one_fault, crate::proofs::OneReading::text_or_fault))]
pub fn one_reading()
    ensures trees { (n : ℕ) (ts : List Token) (ss rs : List Syntax) → IsText n ts ss → IsText n ts rs → ss ≡ rs }
    ensures fault { (n : ℕ) (ts : List Token) (d e : Fault) → HasFault n ts d → HasFault n ts e → d ≡ e }
    ensures apart { (n : ℕ) (ts : List Token) (ss : List Syntax) (d : Fault) → IsText n ts ss → HasFault n ts d → ⊥ }
    ensures some { (n : ℕ) (ts : List Token) → ((ss : List Syntax) × IsText n ts ss) ⊎ ((d : Fault) × HasFault n ts d) }
{}

/// The law that a text reads as one list of data, or else has one fault at one place.
#[tactic(auto, using(crate::proofs::OneAnswer::same_fault))]
pub fn one_answer()
    ensures same_data { (text : List ℕ) (d e : Items) → Reads text d → Reads text e → d ≡ e }
    ensures same_fault { (text : List ℕ) (d e : ReadErr) → ReadFault text d → ReadFault text e → d ≡ e }
    ensures apart { (text : List ℕ) (d : Items) (e : ReadErr) → Reads text d → ReadFault text e → ⊥ }
    ensures some { (text : List ℕ) → ((d : Items) × Reads text d) ⊎ ((e : ReadErr) × ReadFault text e) }
{}

/// The law that a text is tokens as R4RS writes them exactly where these are its first tokens, each as long
/// as it can be, and nothing but them stands in it.
pub fn same_texts()
    ensures { (text : List ℕ) (ts : List Token) → IsSpelled text ts ↔ (lexed text ≡ record { tokens = ts; ending = Clean }) }
{}

/// The law that data which a text reads as are printed as a text that reads as the same data, places aside.
/// Together with `write_text`, which prints this text, it says that nothing is lost by printing.
pub fn printed_data()
    ensures { (text : List ℕ) (is : Items) → Reads text is → ReadsAgain is }
{}

/// The law that where the tokens of a text stop before its end, the text before is these tokens, and no token
/// of the grammar begins there: a number that is out of range does, or a string that is never closed, or
/// neither, just as the ending says.
pub fn no_token()
    ensures { (text : List ℕ) (p : Pos) → stop_of (lexed text).ending ≡ Some p → Stops (record { line = 1; col = 1 }) text (lexed text) p }
{}
