ghost use Rattle.std.specs.Prelude.{◌≡◌, ◌⊎◌, ℕ, ◌↔◌, length, replicate, IfOk};
ghost use Rattle.flow_form.specs.Least.{Given, IsChain, Least, SameSet};
ghost use Rattle.flow_form.specs.Shape.{HoldsLeast, In, size_of};
ghost use Rattle.flow_form.specs.Valid.{RuleNames};
ghost use Rattle.flow_plain.specs.Rules.{GivesTo, TakesStep};

use crate::rule::{given_word, rule_holds};
use bit_rows::{union_into, within};
use flow_form::{Constraints, Rows, Rule};
use scheme_base::Numbers;
use std::alloc::{AllocError, Global};

/// The least solution of the constraints.
pub fn solve_plain(alloc: Global, c: &Constraints) -> Result<Rows, AllocError>
    ensures { IfOk result (HoldsLeast c.now) }
{
    Ok(solve(alloc, c)?.rows)
}

/// The number of plain steps from nothing that add a pair.
pub fn chain(alloc: Global, c: &Constraints) -> Result<u32, AllocError>
    ensures { IfOk result (IsChain c.now.rules) }
{
    Ok(solve(alloc, c)?.steps)
}

/// The least solution, and the number of plain steps that led to it.
#[derive(Drop)]
struct Solution {
    rows: Rows,
    steps: u32,
}

fn solve(alloc: Global, c: &Constraints) -> Result<Solution, AllocError>
    ensures { IfOk result (λ solution. HoldsLeast c.now solution.rows × IsChain c.now.rules solution.steps) }
{
    let size = c.size() as usize;
    let mut words = vec![in alloc; 0; size]?;
    let mut next = vec![in alloc; 0; size]?;
    let steps = take_steps(c, &mut words, &mut next);
    let rows = Rows {
        stride: c.stride(),
        words: Numbers::from_vec(words),
    };
    Ok(Solution { rows, steps })
}

/// Takes plain steps of `words`, which begin with no pair, until one adds nothing, and counts those
/// that add a pair. `next` has room for the words of the step after.
fn take_steps(c: &Constraints, words: &mut [u64], next: &mut [u64]) -> u32
    requires words { words.old ≡ replicate (size_of c.now) 0 }
    requires next { next.old ≡ replicate (size_of c.now) 0 }
    ensures least { SameSet (In c.now words.new) (Least c.now.rules) }
    ensures chain { IsChain c.now.rules result }
{
    let mut steps = 0;
    while step(c, words, next) {
        steps += 1;
    }
    steps
}

/// Takes a plain step of `words`, of which `next` is a copy, and says whether it added a pair.
fn step(c: &Constraints, words: &mut [u64], next: &mut [u64]) -> bool
    requires size { length words.old ≡ size_of c.now }
    requires next_size { length next.old ≡ size_of c.now }
    requires copy { SameSet (In c.now next.old) (In c.now words.old) }
    ensures { TakesStep c.now words.old words.new next.new result }
{
    apply_rules(c, words, next);
    if within(next, words) {
        return false;
    }
    union_into(words, next);
    true
}

/// Puts all that the rules give in the set of `words` into `next`.
fn apply_rules(c: &Constraints, words: &[u64], next: &mut [u64])
    requires size { length words.now ≡ size_of c.now }
    requires next_size { length next.old ≡ size_of c.now }
    ensures { (row atom : ℕ) → In c.now next.new row atom ↔ (In c.now next.old row atom ⊎ Given c.now.rules (In c.now words.now) row atom) }
{
    let rules = c.rules.as_slice();
    for rule in rules {
        if rule_holds(c, words, rule) {
            give(c, words, rule, next);
        }
    }
}

/// Puts all that a rule gives in the set of `words`, where its tests hold, into `next`.
fn give(c: &Constraints, words: &[u64], rule: &Rule, next: &mut [u64])
    requires size { length words.now ≡ size_of c.now }
    requires next_size { length next.old ≡ size_of c.now }
    requires named { RuleNames c.now.rows c.now.atoms rule.now }
    ensures { (row atom : ℕ) → In c.now next.new row atom ↔ (In c.now next.old row atom ⊎ GivesTo c.now words.now rule.now row atom) }
{
    let stride = c.stride();
    for at in 0..stride {
        next[(rule.to * stride + at) as usize] |= given_word(c, words, rule.give, at);
    }
}
