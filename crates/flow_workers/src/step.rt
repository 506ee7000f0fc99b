//! Single steps on a word, as the rules want them.
ghost use Rattle.std.specs.Prelude.{◌≡◌, ◌<◌};
ghost use Rattle.flow_form.specs.Least.{Given};
ghost use Rattle.flow_form.specs.Race.{MaskWithin, Seen};
ghost use Rattle.flow_form.specs.Shape.{In, size_of};
ghost use Rattle.type_table.specs.SharedWords.{HasPairs};
ghost use Rattle.type_table.specs.Tables.{IsOf};
ghost use Rattle.flow_workers.specs.PassSteps.{Steps};

use crate::notes::Notes;
use bit_rows::is_part;
use flow_form::Constraints;
use type_table::{Pass, TypeTable};

/// Loads a word: it has what the base has there.
pub(crate) fn load(c: &Constraints, table: &TypeTable, pass: &mut Pass, word: u32) -> u64
    requires opened { table.now.constraints ≡ c.now }
    requires of { IsOf pass.old table.now }
    requires there { word < size_of c.now }
    ensures steps { Steps c.now table.now pass.old pass.new }
    ensures base { HasPairs c.now word result (In c.now table.now.base) }
    ensures loaded { MaskWithin c.now word result (In c.now pass.new.view.worker.loaded) }
{
    let _ = c;
    table.load(pass, word)
}

/// Sets the bits of a mask in a word, unless they stand there, and notes those that nobody had set.
pub(crate) fn set(
    c: &Constraints,
    table: &TypeTable,
    pass: &mut Pass,
    notes: &mut Notes,
    word: u32,
    mask: u64,
)
    requires opened { table.now.constraints ≡ c.now }
    requires of { IsOf pass.old table.now }
    requires there { word < size_of c.now }
    requires follows { MaskWithin c.now word mask (Given c.now.rules (In c.now pass.old.view.worker.loaded)) }
    ensures steps { Steps c.now table.now pass.old pass.new }
    ensures seen { MaskWithin c.now word mask (Seen c.now pass.new.view.worker) }
{
    if mask == 0 {
        return;
    }
    let found = load(c, table, pass, word);
    if !is_part(mask, found) {
        let before = table.grow(pass, word, mask);
        notes.grew(word, mask & !before);
    }
}
