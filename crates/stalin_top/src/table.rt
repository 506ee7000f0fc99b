//! Printing a solved table from its rows, piece by piece: its text may have more than a gigabyte.
ghost use Rattle.std.specs.Prelude.{◌∷◌, ◌++◌, ◌*◌, ◌<◌, ◌^◌, List, [], decimal, length, ℕ};
ghost use Rattle.flow_form.specs.Shape.{HoldsLeast};
ghost use Rattle.stalin_outside.specs.Sending.{Prints};
ghost use Rattle.stalin_top.specs.TableText.{IsTableText, atoms_text, has_atom, line_text};

use bit_rows::next_member;
use flow_form::{Constraints, Rows, row_of};
use itoa::Buffer;
use stalin_outside::{Console, print, print_all};

/// Prints the least solution, up to the first call that fails; tells whether none did.
pub fn print_table<C: Console>(console: &mut C, c: &Constraints, rows: &Rows) -> bool
    requires { HoldsLeast c.now rows.now }
    ensures { (text : List ℕ) × IsTableText c.now text × Prints text result (C.told console.old) (C.told console.new) }
{
    let words = rows.words.as_slice();
    for row in 0..c.rows {
        if !print_line(console, row, row_of(c, words, row)) {
            return false;
        }
    }
    true
}

/// Prints the line of a row.
fn print_line<C: Console>(console: &mut C, number: u32, row: &[u64]) -> bool
    requires { 64 * length row.now < 2 ^ 32 }
    ensures { Prints (line_text number (has_atom row.now) (64 * length row.now)) result (C.told console.old) (C.told console.new) }
{
    if !print_number(console, number) {
        return false;
    }
    if !print_atoms(console, row) {
        return false;
    }
    print(console, b"\n")
}

/// Prints the number of a row and a colon.
fn print_number<C: Console>(console: &mut C, number: u32) -> bool
    ensures { Prints (decimal number ++ 58 ∷ []) result (C.told console.old) (C.told console.new) }
{
    let mut buffer = Buffer::new();
    let digits = buffer.format(number).as_bytes();
    print_all(console, &[digits, b":"])
}

/// Prints the numbers of a row's atoms, each after a space.
fn print_atoms<C: Console>(console: &mut C, row: &[u64]) -> bool
    requires { 64 * length row.now < 2 ^ 32 }
    ensures { Prints (atoms_text (has_atom row.now) (64 * length row.now)) result (C.told console.old) (C.told console.new) }
{
    let mut from = 0;
    'atoms: while let Some(atom) = next_member(row, from) {
        if !print_atom(console, atom) {
            return false;
        }
        from = atom + 1;
    }
    true
}

/// Prints a space and the number of an atom.
fn print_atom<C: Console>(console: &mut C, atom: u32) -> bool
    ensures { Prints (32 ∷ decimal atom) result (C.told console.old) (C.told console.new) }
{
    let mut buffer = Buffer::new();
    let digits = buffer.format(atom).as_bytes();
    print_all(console, &[b" ", digits])
}
