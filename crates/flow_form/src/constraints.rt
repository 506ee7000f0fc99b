ghost use Rattle.std.specs.Prelude.{◌≡◌, ◌≤◌, ◌^◌, ◌↔◌, IsTrue, length, MatchOption};
ghost use Rattle.flow_form.specs.Valid.{AllNamed, GiveNames, IsFewEnough, IsValid, IsValid-prop, RuleNames, TestNames, words_of_row};

use crate::{Give, Rule, Rules, Test};

/// The most rows.
pub const MOST_ROWS: u32 = 65_536;

/// The most atoms.
pub const MOST_ATOMS: u32 = 8_192;

/// The most words of all rows.
pub const MOST_WORDS: u32 = 4_194_304;

/// The most rules.
pub const MOST_RULES: usize = 8_388_608;

/// The rules of a block: blocks of consecutive rules are what the workers of a race divide.
pub const BLOCK: usize = 1_024;

/// The rows and atoms of a flow analysis, numbered from 0, and the rules on them.
///
/// A value has 1 to 65,536 rows, 1 to 8,192 atoms, at most 2^22 words of rows and 2^23 rules, and its
/// rules name only rows and atoms that it has.
#[derive(Debug, Drop)]
pub struct Constraints {
    pub rows: u32,
    pub atoms: u32,
    pub rules: Rules,
    pub ghost valid: { IsValid rows atoms rules } by { IsValid-prop rows atoms rules },
}

impl Constraints {
    ghost use Rattle.flow_form.specs.Shape.{blocks_of, IsMadeOf, size_of, stride_of};

    /// The constraints of these rows, atoms and rules, where there are few enough of each and the rules
    /// name what is there.
    pub fn new(rows: u32, atoms: u32, rules: Rules) -> Option<Constraints>
        ensures { MatchOption result (¬ IsValid rows atoms rules) (λ made. IsMadeOf made rows atoms rules) }
    {
        if !is_few_enough(rows, atoms, rules.len()) || !all_named(rows, atoms, rules.as_slice()) {
            return None;
        }
        Some(Constraints { rows, atoms, rules })
    }

    /// The words of one row.
    pub fn stride(&self) -> u32
        ensures value { result ≡ stride_of self.now }
        ensures few { result ≤ 128 }
    {
        self.atoms.div_ceil(64)
    }

    /// The words of all rows.
    pub fn size(&self) -> u32
        ensures value { result ≡ size_of self.now }
        ensures few { result ≤ 2 ^ 22 }
    {
        self.rows * self.stride()
    }

    /// The blocks of the rules.
    pub fn blocks(&self) -> u32
        ensures value { result ≡ blocks_of self.now }
        ensures few { result ≤ 2 ^ 13 }
    {
        self.rules.len().div_ceil(BLOCK) as u32
    }
}

/// Whether there are few enough rows, atoms, words and rules, and a row and an atom.
fn is_few_enough(rows: u32, atoms: u32, rules: usize) -> bool
    ensures { IsTrue result ↔ IsFewEnough rows atoms rules }
{
    (1..=MOST_ROWS).contains(&rows)
        && (1..=MOST_ATOMS).contains(&atoms)
        && rows * atoms.div_ceil(64) <= MOST_WORDS
        && rules <= MOST_RULES
}

/// Whether each rule names rows and atoms that are there.
fn all_named(rows: u32, atoms: u32, rules: &[Rule]) -> bool
    ensures { IsTrue result ↔ AllNamed rows atoms rules.now }
{
    for rule in rules {
        if !rule_named(rows, atoms, rule) {
            return false;
        }
    }
    true
}

fn rule_named(rows: u32, atoms: u32, rule: &Rule) -> bool
    ensures { IsTrue result ↔ RuleNames rows atoms rule.now }
{
    test_named(rows, atoms, rule.first)
        && test_named(rows, atoms, rule.second)
        && give_named(rows, atoms, rule.give)
        && rule.to < rows
}

fn test_named(rows: u32, atoms: u32, test: Option<Test>) -> bool
    ensures { IsTrue result ↔ TestNames rows atoms test }
{
    match test {
        None => true,
        Some(Test::Has { row, atom } | Test::Other { row, atom }) => row < rows && atom < atoms,
    }
}

fn give_named(rows: u32, atoms: u32, give: Give) -> bool
    ensures { IsTrue result ↔ GiveNames rows atoms give }
{
    match give {
        Give::Atom(atom) => atom < atoms,
        Give::Row(row) => row < rows,
    }
}
