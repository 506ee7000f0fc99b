//! A plain solver by a work list, in one thread, to compare the workers with: a row that has grown is put on the
//! list, and the rules that read it are applied again.

use flow_form::{Constraints, Give, Rule, Test};
use std::alloc::{AllocError, Global};

/// The rules that read each row: those of row `r` begin at place `starts[r]` of the list, and end where those of
/// the next row begin.
#[derive(Drop)]
struct Readers {
    starts: Vec<u32>,
    rules: Vec<u32>,
}

/// The rows so far, and those that have grown and wait.
#[derive(Drop)]
struct State {
    stride: usize,
    words: Vec<u64>,
    waiting: Vec<u32>,
    waits: Vec<bool>,
}

/// The words of the least solution.
pub(crate) fn solve(alloc: Global, c: &Constraints) -> Result<Vec<u64>, AllocError> {
    let readers = make_readers(alloc, c)?;
    let mut state = State {
        stride: c.stride() as usize,
        words: vec![in alloc; 0; c.size() as usize]?,
        waiting: Vec::new(alloc),
        waits: vec![in alloc; false; c.rows as usize]?,
    };
    for rule in c.rules.as_slice() {
        apply(&mut state, rule)?;
    }
    for _ in 0..u64::MAX {
        let Some(row) = state.waiting.pop() else {
            break;
        };
        if let Some(waits) = state.waits.get_mut(row as usize) {
            *waits = false;
        }
        for index in readers_of(&readers, row as usize) {
            apply_at(c, &mut state, *index as usize)?;
        }
    }
    Ok(state.words)
}

fn apply_at(c: &Constraints, state: &mut State, index: usize) -> Result<(), AllocError> {
    match c.rules.as_slice().get(index) {
        Some(rule) => apply(state, rule),
        None => Ok(()),
    }
}

/// Puts what a rule gives into its row, and the row on the list where it has grown.
fn apply(state: &mut State, rule: &Rule) -> Result<(), AllocError> {
    if !holds(state, rule.first) || !holds(state, rule.second) {
        return Ok(());
    }
    let mut grew = false;
    match rule.give {
        Give::Atom(atom) => {
            let place = place_of(state, rule.to, atom as usize / 64);
            grew = set(state, place, 1 << (atom % 64));
        }
        Give::Row(row) => {
            for at in 0..state.stride {
                let given = word_of(state, row, at);
                let place = place_of(state, rule.to, at);
                grew = set(state, place, given) || grew;
            }
        }
    }
    if grew { wait(state, rule.to) } else { Ok(()) }
}

fn wait(state: &mut State, row: u32) -> Result<(), AllocError> {
    if let Some(waits) = state.waits.get_mut(row as usize) {
        if !*waits {
            *waits = true;
            state.waiting.push(row)?;
        }
    }
    Ok(())
}

fn holds(state: &State, test: Option<Test>) -> bool {
    match test {
        None => true,
        Some(Test::Has { row, atom }) => {
            word_of(state, row, atom as usize / 64) & (1 << (atom % 64)) != 0
        }
        Some(Test::Other { row, atom }) => has_other(state, row, atom),
    }
}

fn has_other(state: &State, row: u32, atom: u32) -> bool {
    for at in 0..state.stride {
        let word = word_of(state, row, at);
        let others = if at == atom as usize / 64 {
            word & !(1 << (atom % 64))
        } else {
            word
        };
        if others != 0 {
            return true;
        }
    }
    false
}

fn place_of(state: &State, row: u32, at: usize) -> usize {
    (row as usize).wrapping_mul(state.stride).wrapping_add(at)
}

fn word_of(state: &State, row: u32, at: usize) -> u64 {
    match state.words.as_slice().get(place_of(state, row, at)) {
        Some(word) => *word,
        None => 0,
    }
}

/// Sets bits in a word, and says whether that changed it.
fn set(state: &mut State, place: usize, bits: u64) -> bool {
    match state.words.get_mut(place) {
        Some(word) => {
            let grew = bits & !*word != 0;
            *word |= bits;
            grew
        }
        None => false,
    }
}

/// The rows that a rule reads.
fn reads(rule: &Rule) -> [Option<u32>; 3] {
    let given = match rule.give {
        Give::Atom(_) => None,
        Give::Row(row) => Some(row),
    };
    [tested(rule.first), tested(rule.second), given]
}

fn tested(test: Option<Test>) -> Option<u32> {
    match test {
        None => None,
        Some(Test::Has { row, atom: _ } | Test::Other { row, atom: _ }) => Some(row),
    }
}

fn readers_of(readers: &Readers, row: usize) -> &[u32] {
    let rules = readers.rules.as_slice();
    let start = start_of(readers, row).min(rules.len());
    let end = start_of(readers, row.saturating_add(1)).min(rules.len());
    &rules[start.min(end)..end]
}

fn start_of(readers: &Readers, row: usize) -> usize {
    match readers.starts.as_slice().get(row) {
        Some(start) => *start as usize,
        None => readers.rules.len(),
    }
}

/// Counts the rules that read each row, and puts them in their places from the last to the first.
fn make_readers(alloc: Global, c: &Constraints) -> Result<Readers, AllocError> {
    let mut starts: Vec<u32> = vec![in alloc; 0; c.rows as usize]?;
    for rule in c.rules.as_slice() {
        for row in reads(rule) {
            count(&mut starts, row);
        }
    }
    let mut sum: u32 = 0;
    for start in starts.iter_mut() {
        sum = sum.wrapping_add(*start);
        *start = sum;
    }
    let mut rules = vec![in alloc; 0; sum as usize]?;
    for index in 0..c.rules.len() {
        for row in reads(&c.rules.as_slice()[index]) {
            place(&mut starts, &mut rules, row, index);
        }
    }
    Ok(Readers { starts, rules })
}

fn count(starts: &mut Vec<u32>, row: Option<u32>) {
    if let Some(row) = row {
        if let Some(start) = starts.get_mut(row as usize) {
            *start = start.wrapping_add(1);
        }
    }
}

fn place(starts: &mut Vec<u32>, rules: &mut Vec<u32>, row: Option<u32>, index: usize) {
    if let (Some(row), Ok(index)) = (row, u32::try_from(index)) {
        if let Some(start) = starts.get_mut(row as usize) {
            *start = start.wrapping_sub(1);
            if let Some(rule) = rules.get_mut(*start as usize) {
                *rule = index;
            }
        }
    }
}
