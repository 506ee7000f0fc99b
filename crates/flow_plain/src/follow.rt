ghost use Rattle.std.specs.Prelude.{◌≡◌, ℕ, ◌+◌, ◌*◌, ◌/◌, ◌%◌, ◌<◌, ◌↔◌, length, IsTrue};
ghost use Rattle.std.specs.Int.{bit_at};
ghost use Rattle.flow_form.specs.Least.{Given, GivenByBlock, Gives, Within};
ghost use Rattle.flow_form.specs.Race.{MaskWithin, Seen};
ghost use Rattle.flow_form.specs.Shape.{In, size_of, stride_of};
ghost use Rattle.flow_form.specs.Valid.{RuleNames};
ghost use Rattle.flow_plain.specs.Rules.{GivesTo};

use crate::rule::{given_word, rule_holds};
use crate::seat::Seat;
use bit_rows::is_part;
use flow_form::{BLOCK, Constraints, Rule};

/// Whether each bit of a mask for a word follows by one rule from the set of `loaded`.
pub(crate) fn follows(c: &Constraints, loaded: &[u64], word: u32, mask: u64) -> bool
    requires size { length loaded.now ≡ size_of c.now }
    requires there { word < size_of c.now }
    ensures { IsTrue result ↔ MaskWithin c.now word mask (Given c.now.rules (In c.now loaded.now)) }
{
    is_part(mask, following(c, loaded, word))
}

/// The bits of a word that follow by one rule from the set of `words`.
fn following(c: &Constraints, words: &[u64], word: u32) -> u64
    requires size { length words.now ≡ size_of c.now }
    requires there { word < size_of c.now }
    ensures { (bit : ℕ) → bit < 64 → (bit_at result bit ≡ 1) ↔ Given c.now.rules (In c.now words.now) (word / stride_of c.now) (64 * (word % stride_of c.now) + bit) }
{
    let mut bits = 0;
    for rule in c.rules.as_slice() {
        bits |= given_in(c, words, rule, word);
    }
    bits
}

/// The bits of a word that one rule gives in the set of `words`.
fn given_in(c: &Constraints, words: &[u64], rule: &Rule, word: u32) -> u64
    requires size { length words.now ≡ size_of c.now }
    requires there { word < size_of c.now }
    requires named { RuleNames c.now.rows c.now.atoms rule.now }
    ensures { (bit : ℕ) → bit < 64 → (bit_at result bit ≡ 1) ↔ Gives (In c.now words.now) rule.now (word / stride_of c.now) (64 * (word % stride_of c.now) + bit) }
{
    let stride = c.stride();
    if rule.to == word / stride && rule_holds(c, words, rule) {
        given_word(c, words, rule.give, word % stride)
    } else {
        0
    }
}

/// Whether all that the rules of a block give in the set of `base` is among what a worker has loaded
/// or grown.
pub(crate) fn block_seen(c: &Constraints, base: &[u64], seat: &Seat, block: u32) -> bool
    requires size { length base.now ≡ size_of c.now }
    requires loaded { length seat.now.loaded ≡ size_of c.now }
    requires grown { length seat.now.grown ≡ size_of c.now }
    ensures { IsTrue result ↔ Within (GivenByBlock c.now.rules block (In c.now base.now)) (Seen c.now seat.now) }
{
    let rules = c.rules.as_slice();
    let first = block as usize * BLOCK;
    for index in first..rules.len().min(first + BLOCK) {
        if !rule_seen(c, base, seat, &rules[index]) {
            return false;
        }
    }
    true
}

/// Whether all that a rule gives in the set of `base` is among what a worker has loaded or grown.
fn rule_seen(c: &Constraints, base: &[u64], seat: &Seat, rule: &Rule) -> bool
    requires size { length base.now ≡ size_of c.now }
    requires loaded { length seat.now.loaded ≡ size_of c.now }
    requires grown { length seat.now.grown ≡ size_of c.now }
    requires named { RuleNames c.now.rows c.now.atoms rule.now }
    ensures { IsTrue result ↔ Within (Gives (In c.now base.now) rule.now) (Seen c.now seat.now) }
{
    !rule_holds(c, base, rule) || gift_seen(c, base, seat, rule)
}

/// Whether all that a rule gives, where its tests hold, is among what a worker has loaded or grown.
fn gift_seen(c: &Constraints, base: &[u64], seat: &Seat, rule: &Rule) -> bool
    requires size { length base.now ≡ size_of c.now }
    requires loaded { length seat.now.loaded ≡ size_of c.now }
    requires grown { length seat.now.grown ≡ size_of c.now }
    requires named { RuleNames c.now.rows c.now.atoms rule.now }
    ensures { IsTrue result ↔ Within (GivesTo c.now base.now rule.now) (Seen c.now seat.now) }
{
    let stride = c.stride();
    for at in 0..stride {
        let place = (rule.to * stride + at) as usize;
        let seen = seat.loaded()[place] | seat.grown()[place];
        if !is_part(given_word(c, base, rule.give, at), seen) {
            return false;
        }
    }
    true
}
