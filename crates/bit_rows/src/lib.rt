//! Sets of small numbers as rows of bits.
//!
//! A row is a slice of words of 64 bits, and `specs/Members` says which numbers are its members. The
//! flow analysis keeps the atoms that reach a variable in such a row. Each call is exactly one
//! operation on sets, works word by word, and takes no memory.
#![tactic(auto)]

ghost use Rattle.std.specs.Prelude.{◌≡◌, ℕ, ◌*◌, ◌^◌, ◌<◌, ◌≤◌, ◌⊎◌, ◌↔◌, length, IsTrue, MatchOption};
ghost use Rattle.std.specs.Int.{bit_at};
ghost use Rattle.bit_rows.specs.Members.{IsLowestBit, IsMember, IsNextMember, IsSubset};

/// The words in which a member's number is one that a `u32` holds.
const NUMBERED_WORDS: usize = 0x400_0000;

/// Whether `atom` is a member of `row`.
pub fn contains(row: &[u64], atom: u32) -> bool
    requires { atom < 64 * length row.now }
    ensures { IsTrue result ↔ IsMember row.now atom }
{
    let word = row[atom as usize / 64];
    (word >> (atom % 64)) & 1 == 1
}

/// Puts a number into a row.
pub fn insert(row: &mut [u64], atom: u32)
    requires { atom < 64 * length row.old }
    ensures { (k : ℕ) → IsMember row.new k ↔ (IsMember row.old k ⊎ (k ≡ atom)) }
{
    row[atom as usize / 64] |= 1 << (atom % 64);
}

/// Puts each member of `from` into `to`.
pub fn union_into(to: &mut [u64], from: &[u64])
    requires { length to.old ≡ length from.now }
    ensures { (atom : ℕ) → IsMember to.new atom ↔ (IsMember to.old atom ⊎ IsMember from.now atom) }
{
    for at in 0..to.len() {
        to[at] |= from[at];
    }
}

/// Whether each member of `a` is a member of `b`.
pub fn within(a: &[u64], b: &[u64]) -> bool
    requires { length a.now ≡ length b.now }
    ensures { IsTrue result ↔ IsSubset a.now b.now }
{
    for at in 0..a.len() {
        if !is_part(a[at], b[at]) {
            return false;
        }
    }
    true
}

/// Whether each bit that is set in `a` is set in `b`.
pub fn is_part(a: u64, b: u64) -> bool
    ensures { IsTrue result ↔ ((bit : ℕ) → bit < 64 → bit_at a bit ≡ 1 → bit_at b bit ≡ 1) }
{
    a & !b == 0
}

/// The least member of `row` that is not below `from`, of those that a `u32` numbers.
pub fn next_member(row: &[u64], from: u32) -> Option<u32>
    ensures { MatchOption result ((atom : ℕ) → from ≤ atom → atom < 2 ^ 32 → ¬ IsMember row.now atom) (λ atom. IsNextMember row.now from atom) }
{
    let mut skipped = from % 64;
    for at in from as usize / 64..row.len().min(NUMBERED_WORDS) {
        if let Some(bit) = lowest_bit(row[at], skipped) {
            return Some(at as u32 * 64 + bit);
        }
        skipped = 0;
    }
    None
}

/// The lowest bit that is set in `word` and not below `from`.
fn lowest_bit(word: u64, from: u32) -> Option<u32>
    requires { from < 64 }
    ensures { MatchOption result ((bit : ℕ) → from ≤ bit → bit_at word bit ≡ 0) (λ bit. IsLowestBit word from bit) }
{
    let rest = word >> from;
    if rest == 0 {
        None
    } else {
        Some(from + rest.trailing_zeros())
    }
}
