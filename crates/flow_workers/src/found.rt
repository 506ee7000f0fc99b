//! What workers have found of the rules, side by side: which tests hold, and which rules give a row.
//!
//! A worker notes that tests hold before it loads what they lead it to, and looks for the notes of others after it
//! has grown something: of two workers at least one sees what the other did. Like the index, the notes are under
//! no clause.

use flow_form::{Constraints, Give};
use std::alloc::{AllocError, Global};
use std::sync::atomic::{AtomicU32, AtomicU64, Ordering};

/// How often a worker tries to be the last in a list, while others are.
const TRIES: u32 = 1_000;

/// Bits that workers set side by side.
#[derive(Drop)]
pub(crate) struct Bits {
    words: Vec<AtomicU64>,
}

impl Bits {
    /// So many bits, none of which is set.
    pub(crate) fn new(alloc: Global, bits: usize) -> Result<Bits, AllocError> {
        let count = bits.div_ceil(64);
        let mut words = Vec::with_capacity(alloc, count)?;
        for _ in 0..count {
            words.push(AtomicU64::new(0))?;
        }
        Ok(Bits { words })
    }

    /// No bits.
    pub(crate) fn none(alloc: Global) -> Bits {
        Bits {
            words: Vec::new(alloc),
        }
    }

    /// The bits of a word.
    pub(crate) fn word(&self, at: usize) -> u64 {
        match self.words.as_slice().get(at) {
            Some(word) => word.load(Ordering::SeqCst),
            None => 0,
        }
    }

    fn has(&self, bit: usize) -> bool {
        (self.word(bit / 64) >> (bit % 64)) & 1 == 1
    }

    /// Sets a bit, and says whether it was not set before.
    pub(crate) fn set(&self, bit: usize) -> bool {
        if self.has(bit) {
            return false;
        }
        match self.words.as_slice().get(bit / 64) {
            Some(word) => {
                let before = word.fetch_or(1 << (bit % 64), Ordering::SeqCst);
                (before >> (bit % 64)) & 1 == 0
            }
            None => false,
        }
    }

    /// Takes a bit away, and says whether it was set.
    fn take(&self, bit: usize) -> bool {
        match self.words.as_slice().get(bit / 64) {
            Some(word) => {
                let before = word.fetch_and(!(1 << (bit % 64)), Ordering::SeqCst);
                (before >> (bit % 64)) & 1 == 1
            }
            None => false,
        }
    }

    /// Takes away the next bit that is set, from one on.
    pub(crate) fn take_from(&self, first: usize) -> Option<usize> {
        let mut kept = u64::MAX << (first % 64);
        for at in first / 64..self.words.len() {
            if let Some(bit) = self.take_of(at, kept) {
                return Some(bit);
            }
            kept = u64::MAX;
        }
        None
    }

    /// Takes away the first of those bits of a word that a mask keeps.
    fn take_of(&self, at: usize, kept: u64) -> Option<usize> {
        for _ in 0..64 {
            let word = self.word(at) & kept;
            if word == 0 {
                return None;
            }
            let bit = at
                .wrapping_mul(64)
                .wrapping_add(word.trailing_zeros() as usize);
            if self.take(bit) {
                return Some(bit);
            }
        }
        None
    }
}

/// For each row the rules that give it and whose tests hold: the last that was found, and for each rule the one
/// that was found before it. Rules are counted from 1, and 0 is none.
#[derive(Drop)]
struct Givers {
    last: Vec<AtomicU32>,
    before: Vec<AtomicU32>,
}

fn zeros(alloc: Global, count: usize) -> Result<Vec<AtomicU32>, AllocError> {
    let mut all = Vec::with_capacity(alloc, count)?;
    for _ in 0..count {
        all.push(AtomicU32::new(0))?;
    }
    Ok(all)
}

impl Givers {
    fn add(&self, row: u32, rule: usize) {
        let last = self.last.as_slice().get(row as usize);
        let before = self.before.as_slice().get(rule);
        if let (Some(last), Some(before), Ok(number)) = (last, before, u32::try_from(rule)) {
            put_last(last, before, number.wrapping_add(1));
        }
    }
}

/// Puts a rule at the end of a list.
fn put_last(last: &AtomicU32, before: &AtomicU32, number: u32) {
    for _ in 0..TRIES {
        let found = last.load(Ordering::SeqCst);
        before.store(found, Ordering::SeqCst);
        let put = last.compare_exchange(found, number, Ordering::SeqCst, Ordering::SeqCst);
        if put.is_ok() {
            return;
        }
    }
}

/// The rule of a number that counts from 1.
fn counted(list: &[AtomicU32], at: usize) -> Option<usize> {
    let number = list.get(at)?.load(Ordering::SeqCst);
    Some(number.checked_sub(1)? as usize)
}

/// What is found of each rule.
#[derive(Drop)]
pub(crate) struct Found {
    second_holds: Bits,
    both_hold: Bits,
    givers: Givers,
}

impl Found {
    pub(crate) fn new(alloc: Global, c: &Constraints) -> Result<Found, AllocError> {
        let rules = c.rules.len();
        let givers = Givers {
            last: zeros(alloc, c.rows as usize)?,
            before: zeros(alloc, rules)?,
        };
        Ok(Found {
            second_holds: Bits::new(alloc, rules)?,
            both_hold: Bits::new(alloc, rules)?,
            givers,
        })
    }

    pub(crate) fn none(alloc: Global) -> Found {
        Found {
            second_holds: Bits::none(alloc),
            both_hold: Bits::none(alloc),
            givers: Givers {
                last: Vec::new(alloc),
                before: Vec::new(alloc),
            },
        }
    }

    /// Notes that the second test of a rule holds.
    pub(crate) fn note_second(&self, rule: usize) {
        self.second_holds.set(rule);
    }

    /// Notes that both tests of a rule hold, and that it gives what it gives.
    pub(crate) fn note_both(&self, rule: usize, give: Give) {
        if self.both_hold.set(rule) {
            if let Give::Row(row) = give {
                self.givers.add(row, rule);
            }
        }
    }

    /// Whether a rule may now give something for the first time, since its second test, or its first one, has come
    /// to hold.
    pub(crate) fn may_begin(&self, rule: usize, second: bool) -> bool {
        (second || self.second_holds.has(rule)) && !self.both_hold.has(rule)
    }

    /// The last rule that was found to give a row.
    pub(crate) fn giver(&self, row: u32) -> Option<usize> {
        counted(self.givers.last.as_slice(), row as usize)
    }

    /// The one that was found before a rule.
    pub(crate) fn giver_before(&self, rule: usize) -> Option<usize> {
        counted(self.givers.before.as_slice(), rule)
    }
}
