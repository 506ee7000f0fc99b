//! What one rule reads and gives, word by word in the shared rows.
ghost use Rattle.std.specs.Prelude.{◌≡◌, ◌≢◌, ℕ, ◌+◌, ◌*◌, ◌/◌, ◌<◌, ◌↔◌, length};
ghost use Rattle.std.specs.Bool.{MatchBool};
ghost use Rattle.std.specs.Int.{bit_at};
ghost use Rattle.flow_form.specs.Least.{TestHolds, Within};
ghost use Rattle.flow_form.specs.Race.{Seen};
ghost use Rattle.flow_form.specs.Shape.{In, stride_of};
ghost use Rattle.flow_form.specs.Valid.{TestNames};
ghost use Rattle.flow_form.specs.declared.rule.Give.TheVariants.{Row};
ghost use Rattle.flow_plain.specs.Rules.{GivesTo};
ghost use Rattle.type_table.specs.Tables.{IsOf};
ghost use Rattle.flow_workers.specs.PassSteps.{GivenAt, HoldsIn, IsListed, Steps};

use crate::notes::Notes;
use crate::step::{load, set};
use flow_form::{Constraints, Give, Rule, Test};
use type_table::{Pass, TypeTable};

/// Whether a row has an atom.
fn has(c: &Constraints, table: &TypeTable, pass: &mut Pass, row: u32, atom: u32) -> bool
    requires opened { table.now.constraints ≡ c.now }
    requires of { IsOf pass.old table.now }
    requires row { row < c.now.rows }
    requires atom { atom < c.now.atoms }
    ensures steps { Steps c.now table.now pass.old pass.new }
    ensures tells { MatchBool result (In c.now pass.new.view.worker.loaded row atom) (¬ In c.now table.now.base row atom) }
{
    let word = load(c, table, pass, row * c.stride() + atom / 64);
    bit_is_set(word, atom % 64)
}

/// Whether a bit of a word is set.
fn bit_is_set(word: u64, bit: u32) -> bool
    requires { bit < 64 }
    ensures { MatchBool result (bit_at word bit ≡ 1) (bit_at word bit ≡ 0) }
{
    (word >> bit) & 1 == 1
}

/// Whether a row has another atom than this one.
fn has_other(c: &Constraints, table: &TypeTable, pass: &mut Pass, row: u32, atom: u32) -> bool
    requires opened { table.now.constraints ≡ c.now }
    requires of { IsOf pass.old table.now }
    requires row { row < c.now.rows }
    ensures steps { Steps c.now table.now pass.old pass.new }
    ensures tells { MatchBool result ((other : ℕ) × (other ≢ atom) × In c.now pass.new.view.worker.loaded row other) (¬ ((other : ℕ) × (other ≢ atom) × In c.now table.now.base row other)) }
{
    let stride = c.stride();
    for at in 0..stride {
        let word = load(c, table, pass, row * stride + at);
        if others_of(word, at, atom) != 0 {
            return true;
        }
    }
    false
}

/// The bits of word `at` of a row, but that of the atom.
fn others_of(word: u64, at: u32, atom: u32) -> u64
    ensures { (bit : ℕ) → bit < 64 → (bit_at result bit ≡ 1) ↔ ((64 * at + bit ≢ atom) × (bit_at word bit ≡ 1)) }
{
    if at == atom / 64 {
        word & !(1 << (atom % 64))
    } else {
        word
    }
}

/// Whether a test holds: where it does, it holds in what the pass has loaded, and where not, it does
/// not hold in the base.
fn test_holds(c: &Constraints, table: &TypeTable, pass: &mut Pass, test: Option<Test>) -> bool
    requires opened { table.now.constraints ≡ c.now }
    requires of { IsOf pass.old table.now }
    requires named { TestNames c.now.rows c.now.atoms test }
    ensures steps { Steps c.now table.now pass.old pass.new }
    ensures tells { MatchBool result (TestHolds (In c.now pass.new.view.worker.loaded) test) (¬ TestHolds (In c.now table.now.base) test) }
{
    match test {
        None => true,
        Some(Test::Has { row, atom }) => has(c, table, pass, row, atom),
        Some(Test::Other { row, atom }) => has_other(c, table, pass, row, atom),
    }
}

/// Does what a rule says: the pass has then seen all that the rule gives from the base.
///
/// Each test that holds is noted before anything is loaded that follows from it.
pub(crate) fn apply(
    c: &Constraints,
    table: &TypeTable,
    pass: &mut Pass,
    notes: &mut Notes,
    index: usize,
)
    requires opened { table.now.constraints ≡ c.now }
    requires of { IsOf pass.old table.now }
    requires there { index < length c.now.rules }
    ensures steps { Steps c.now table.now pass.old pass.new }
    ensures served { Within (GivenAt c.now.rules index (In c.now table.now.base)) (Seen c.now pass.new.view.worker) }
{
    let rule = &c.rules.as_slice()[index];
    if !test_holds(c, table, pass, rule.second) {
        return;
    }
    notes.second_holds(index);
    if test_holds(c, table, pass, rule.first) {
        notes.both_hold(index, rule.give);
        give(c, table, pass, notes, rule);
    }
}

/// Gives those words of the row that a rule gives in which something has grown, where its tests hold.
pub(crate) fn apply_words(
    c: &Constraints,
    table: &TypeTable,
    pass: &mut Pass,
    notes: &mut Notes,
    index: usize,
    grown: &[u64],
)
    requires opened { table.now.constraints ≡ c.now }
    requires of { IsOf pass.old table.now }
    requires there { index < length c.now.rules }
    ensures { Steps c.now table.now pass.old pass.new }
{
    let rule = &c.rules.as_slice()[index];
    if let Give::Row(row) = rule.give {
        if test_holds(c, table, pass, rule.second) && test_holds(c, table, pass, rule.first) {
            give_words(c, table, pass, notes, rule, row, grown);
        }
    }
}

/// Gives what a rule gives whose tests hold.
fn give(c: &Constraints, table: &TypeTable, pass: &mut Pass, notes: &mut Notes, rule: &Rule)
    requires opened { table.now.constraints ≡ c.now }
    requires of { IsOf pass.old table.now }
    requires listed { IsListed c.now rule.now }
    requires holds { HoldsIn (In c.now pass.old.view.worker.loaded) rule.now }
    ensures steps { Steps c.now table.now pass.old pass.new }
    ensures given { Within (GivesTo c.now table.now.base rule.now) (Seen c.now pass.new.view.worker) }
{
    match rule.give {
        Give::Atom(atom) => set(
            c,
            table,
            pass,
            notes,
            rule.to * c.stride() + atom / 64,
            1 << (atom % 64),
        ),
        Give::Row(row) => give_row(c, table, pass, notes, rule, row),
    }
}

/// Gives the atoms of a row, whole words at a time.
fn give_row(
    c: &Constraints,
    table: &TypeTable,
    pass: &mut Pass,
    notes: &mut Notes,
    rule: &Rule,
    row: u32,
)
    requires opened { table.now.constraints ≡ c.now }
    requires of { IsOf pass.old table.now }
    requires listed { IsListed c.now rule.now }
    requires holds { HoldsIn (In c.now pass.old.view.worker.loaded) rule.now }
    requires row { rule.now.give ≡ Row row }
    ensures steps { Steps c.now table.now pass.old pass.new }
    ensures given { Within (GivesTo c.now table.now.base rule.now) (Seen c.now pass.new.view.worker) }
{
    for at in 0..c.stride() {
        give_word(c, table, pass, notes, rule, row, at);
    }
}

/// Gives those words of a row in which something has grown.
fn give_words(
    c: &Constraints,
    table: &TypeTable,
    pass: &mut Pass,
    notes: &mut Notes,
    rule: &Rule,
    row: u32,
    grown: &[u64],
)
    requires opened { table.now.constraints ≡ c.now }
    requires of { IsOf pass.old table.now }
    requires listed { IsListed c.now rule.now }
    requires holds { HoldsIn (In c.now pass.old.view.worker.loaded) rule.now }
    requires row { rule.now.give ≡ Row row }
    ensures { Steps c.now table.now pass.old pass.new }
{
    let words = (c.stride() as usize).min(grown.len());
    for at in 0..words {
        if grown[at] != 0 {
            give_word(c, table, pass, notes, rule, row, at as u32);
        }
    }
}

/// Gives one word of a row.
fn give_word(
    c: &Constraints,
    table: &TypeTable,
    pass: &mut Pass,
    notes: &mut Notes,
    rule: &Rule,
    row: u32,
    at: u32,
)
    requires opened { table.now.constraints ≡ c.now }
    requires of { IsOf pass.old table.now }
    requires listed { IsListed c.now rule.now }
    requires holds { HoldsIn (In c.now pass.old.view.worker.loaded) rule.now }
    requires row { rule.now.give ≡ Row row }
    requires there { at < stride_of c.now }
    ensures steps { Steps c.now table.now pass.old pass.new }
    ensures given { (to atom : ℕ) → GivesTo c.now table.now.base rule.now to atom → atom / 64 ≡ at → Seen c.now pass.new.view.worker to atom }
{
    let stride = c.stride();
    let found = load(c, table, pass, row * stride + at);
    set(c, table, pass, notes, rule.to * stride + at, found);
}
