//! How many pairs of a row and an atom a solution has.

pub(crate) fn count_ones(words: &[u64]) -> u64 {
    let mut ones: u64 = 0;
    for word in words {
        ones = ones.saturating_add(u64::from(word.count_ones()));
    }
    ones
}
