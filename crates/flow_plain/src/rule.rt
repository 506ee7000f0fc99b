ghost use Rattle.std.specs.Prelude.{◌≡◌, ◌≢◌, ℕ, ◌+◌, ◌*◌, ◌<◌, ◌≤◌, ◌↔◌, length, IsTrue};
ghost use Rattle.std.specs.Int.{bit_at};
ghost use Rattle.bit_rows.specs.Members.{IsMember};
ghost use Rattle.flow_form.specs.Least.{GivesAtom, TestHolds};
ghost use Rattle.flow_form.specs.Shape.{In, size_of, stride_of};
ghost use Rattle.flow_form.specs.Valid.{GiveNames, RuleNames, TestNames};

use bit_rows::{contains, next_member};
use flow_form::{Constraints, Give, Rule, Test, row_of};

/// Whether a row has a member other than `atom`.
fn has_other(row: &[u64], atom: u32) -> bool
    requires short { length row.now ≤ 128 }
    requires there { atom < 8192 }
    ensures { IsTrue result ↔ ((other : ℕ) × (other ≢ atom) × IsMember row.now other) }
{
    match next_member(row, 0) {
        Some(first) if first == atom => next_member(row, atom + 1).is_some(),
        first => first.is_some(),
    }
}

/// Whether a test holds in the set of the words.
pub(crate) fn test_holds(c: &Constraints, words: &[u64], test: Option<Test>) -> bool
    requires size { length words.now ≡ size_of c.now }
    requires named { TestNames c.now.rows c.now.atoms test }
    ensures { IsTrue result ↔ TestHolds (In c.now words.now) test }
{
    match test {
        None => true,
        Some(Test::Has { row, atom }) => contains(row_of(c, words, row), atom),
        Some(Test::Other { row, atom }) => has_other(row_of(c, words, row), atom),
    }
}

/// Whether both tests of a rule hold in the set of the words.
pub(crate) fn rule_holds(c: &Constraints, words: &[u64], rule: &Rule) -> bool
    requires size { length words.now ≡ size_of c.now }
    requires named { RuleNames c.now.rows c.now.atoms rule.now }
    ensures { IsTrue result ↔ (TestHolds (In c.now words.now) rule.now.first × TestHolds (In c.now words.now) rule.now.second) }
{
    test_holds(c, words, rule.first) && test_holds(c, words, rule.second)
}

/// What is given in a set of words, of the 64 atoms that lie in word `at` of a row.
pub(crate) fn given_word(c: &Constraints, words: &[u64], give: Give, at: u32) -> u64
    requires size { length words.now ≡ size_of c.now }
    requires named { GiveNames c.now.rows c.now.atoms give }
    requires there { at < stride_of c.now }
    ensures { (bit : ℕ) → bit < 64 → (bit_at result bit ≡ 1) ↔ GivesAtom (In c.now words.now) give (64 * at + bit) }
{
    match give {
        Give::Atom(atom) if atom / 64 == at => 1 << (atom % 64),
        Give::Atom(_) => 0,
        Give::Row(row) => row_of(c, words, row)[at as usize],
    }
}
