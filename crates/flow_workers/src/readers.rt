//! Which rules read a thing, so that a worker can follow what it has grown.
//!
//! The index and the notes beside it are under no clause: a rule that they leave out, or name in vain, costs time
//! and nothing else. Whoever follows them takes the steps of `rule`, each with its own contract, and whether a
//! round was the last one is found from the rows alone.
ghost use Rattle.std.specs.Prelude.{◌<◌};
ghost use Rattle.std.specs.Thread.{IsSync};

use crate::found::{Bits, Found};
use crate::waiting::Waiting;
use flow_form::{Constraints, MOST_ATOMS, Rule, Test};
use std::alloc::{AllocError, AllocGlobal, Global};
use std::thread::{Threads, join};

/// What a rule tests of a row, numbered: whether it has an atom, or whether it has another than some one.
#[derive(Clone, Copy, PartialEq, Eq)]
pub(crate) struct Thing {
    number: u32,
}

impl Thing {
    pub(crate) fn atom(row: u32, atom: u32) -> Thing {
        Thing {
            number: row.wrapping_mul(MOST_ATOMS + 1).wrapping_add(atom),
        }
    }

    pub(crate) fn others(row: u32) -> Thing {
        Thing::atom(row, MOST_ATOMS)
    }

    fn tested(test: Option<Test>) -> Option<Thing> {
        match test {
            None => None,
            Some(Test::Has { row, atom }) => Some(Thing::atom(row, atom)),
            Some(Test::Other { row, atom: _ }) => Some(Thing::others(row)),
        }
    }
}

/// Rules one after another that test the same thing, all with their first test or all with their second.
#[derive(Clone, Copy)]
pub(crate) struct Run {
    pub thing: Thing,
    pub first: u32,
    pub end: u32,
    pub second: bool,
}

/// The runs of one part of the rules. The things are spread over as many places as there are runs: the runs of a
/// place begin at its start, and end where those of the next begin.
#[derive(Drop)]
struct Part {
    starts: Vec<u32>,
    runs: Vec<Run>,
}

impl Part {
    /// The runs that test a thing, and perhaps a few that test others.
    fn of(&self, thing: Thing) -> &[Run] {
        let place = self.place(thing);
        let start = self.start(place).min(self.runs.len());
        let end = self.start(place.saturating_add(1)).min(self.runs.len());
        &self.runs.as_slice()[start.min(end)..end]
    }

    fn place(&self, thing: Thing) -> usize {
        thing.number as usize % self.starts.len().max(1)
    }

    fn start(&self, place: usize) -> usize {
        match self.starts.as_slice().get(place) {
            Some(start) => *start as usize,
            None => self.runs.len(),
        }
    }

    fn count(&mut self, run: Run) {
        let place = self.place(run.thing);
        if let Some(start) = self.starts.get_mut(place) {
            *start = start.wrapping_add(1);
        }
    }

    /// Makes of the counts the ends of the places.
    fn add_up(&mut self) {
        let mut sum: u32 = 0;
        for start in self.starts.iter_mut() {
            sum = sum.wrapping_add(*start);
            *start = sum;
        }
    }

    /// Puts a run before the last one that was put at its place.
    fn put(&mut self, run: Run) {
        let place = self.place(run.thing);
        if let Some(start) = self.starts.get_mut(place) {
            *start = start.wrapping_sub(1);
            if let Some(room) = self.runs.get_mut(*start as usize) {
                *room = run;
            }
        }
    }
}

/// The runs of the rules from one to before another, as they are listed, those of second tests behind the others.
/// What they test is noted.
fn runs_of(
    alloc: Global,
    c: &Constraints,
    tested: &Bits,
    first: usize,
    end: usize,
) -> Result<Vec<Run>, AllocError> {
    let rules = c.rules.as_slice();
    let mut runs = Vec::new(alloc);
    let mut seconds = Vec::new(alloc);
    for index in first..end.min(rules.len()) {
        let rule: &Rule = &rules[index];
        note_tested(c, tested, rule.first);
        note_tested(c, tested, rule.second);
        extend(&mut runs, rule.first, index, false)?;
        extend(&mut seconds, rule.second, index, true)?;
    }
    runs.extend_from_slice(seconds.as_slice())?;
    Ok(runs)
}

/// Notes the atom of a row that is tested for.
fn note_tested(c: &Constraints, tested: &Bits, test: Option<Test>) {
    if let Some(Test::Has { row, atom }) = test {
        tested.set(
            word_of(c, row, 0)
                .wrapping_mul(64)
                .wrapping_add(atom as usize),
        );
    }
}

/// The place of a word of a row.
fn word_of(c: &Constraints, row: u32, at: usize) -> usize {
    (row.wrapping_mul(c.stride()) as usize).wrapping_add(at)
}

/// Puts a rule's test at the end of the runs.
fn extend(
    runs: &mut Vec<Run>,
    test: Option<Test>,
    rule: usize,
    second: bool,
) -> Result<(), AllocError> {
    let (Some(thing), Ok(rule)) = (Thing::tested(test), u32::try_from(rule)) else {
        return Ok(());
    };
    let end = rule.wrapping_add(1);
    if let Some(last) = runs.last_mut() {
        if last.thing == thing && last.end == rule {
            last.end = end;
            return Ok(());
        }
    }
    runs.push(Run {
        thing,
        first: rule,
        end,
        second,
    })?;
    Ok(())
}

fn part_of(
    alloc: Global,
    c: &Constraints,
    tested: &Bits,
    first: usize,
    end: usize,
) -> Result<Part, AllocError> {
    let listed = runs_of(alloc, c, tested, first, end)?;
    let mut part = Part {
        starts: vec![in alloc; 0; listed.len()]?,
        runs: listed.as_slice().to_vec(alloc)?,
    };
    for run in listed.as_slice() {
        part.count(*run);
    }
    part.add_up();
    for run in listed.as_slice() {
        part.put(*run);
    }
    Ok(part)
}

/// The parts of the rules from one on, found by so many threads, each of which lets the next one go before it begins:
/// a part for each, in no order that matters.
fn parts_of<R: Threads + Sync>(
    rt: &R,
    alloc: Global,
    c: &Constraints,
    tested: &Bits,
    first: usize,
    threads: u32,
) -> Result<Vec<Part>, AllocError> {
    let left = c.rules.len().saturating_sub(first);
    let end = first.saturating_add(left / threads.max(1) as usize);
    if threads <= 1 {
        let mut all = Vec::new(alloc);
        all.push(part_of(alloc, c, tested, first, end)?)?;
        return Ok(all);
    }
    let others = threads - 1;
    let (one, parts) = join(
        rt,
        || -> Result<Part, AllocError> { part_of(alloc, c, tested, first, end) },
        || -> Result<Vec<Part>, AllocError>
            requires { IsSync R.row × (0 < others) }
        { parts_of(rt, alloc, c, tested, end, others) },
    );
    let mut all = parts?;
    all.push(one?)?;
    Ok(all)
}

/// Empty lists of what is found of the rules, and of what waits.
fn empty_lists(alloc: Global, c: &Constraints) -> Result<(Found, Waiting), AllocError> {
    Ok((Found::new(alloc, c)?, Waiting::new(alloc, c)?))
}

/// The parts of all rules by so many threads, and the empty lists, which one more makes where there are several.
fn parts_and_lists<R: Threads + Sync>(
    rt: &R,
    alloc: Global,
    c: &Constraints,
    tested: &Bits,
    threads: u32,
) -> (
    Result<Vec<Part>, AllocError>,
    Result<(Found, Waiting), AllocError>,
) {
    if threads <= 1 {
        let parts = parts_of(rt, alloc, c, tested, 0, 1);
        return (parts, empty_lists(alloc, c));
    }
    join(
        rt,
        || -> Result<Vec<Part>, AllocError>
            requires { IsSync R.row }
        { parts_of(rt, alloc, c, tested, 0, threads) },
        || -> Result<(Found, Waiting), AllocError> { empty_lists(alloc, c) },
    )
}

/// The runs of all rules by what they test, what the workers have found of each rule so far, and the rows that wait
/// to be followed.
#[derive(Drop)]
pub(crate) struct Readers {
    parts: Vec<Part>,
    /// A bit for each atom of each row, set where a rule tests whether the row has the atom.
    tested: Bits,
    pub found: Found,
    pub waiting: Waiting,
}

impl Readers {
    /// Of all rules, by so many threads.
    pub(crate) fn new<R: AllocGlobal + Threads + Sync>(
        rt: &R,
        c: &Constraints,
        threads: u32,
    ) -> Result<Readers, AllocError> {
        let alloc = rt.alloc();
        let tested = Bits::new(alloc, c.size() as usize * 64)?;
        let (parts, empty) = parts_and_lists(rt, alloc, c, &tested, threads);
        let (found, waiting) = empty?;
        Ok(Readers {
            parts: parts?,
            tested,
            found,
            waiting,
        })
    }

    /// Of no rules.
    pub(crate) fn none(alloc: Global) -> Readers {
        Readers {
            parts: Vec::new(alloc),
            tested: Bits::none(alloc),
            found: Found::none(alloc),
            waiting: Waiting::none(alloc),
        }
    }

    pub(crate) fn parts(&self) -> usize {
        self.parts.len()
    }

    /// Those bits of a word of a row that a rule tests.
    pub(crate) fn tested(&self, c: &Constraints, row: u32, at: usize, bits: u64) -> u64 {
        if bits == 0 {
            return 0;
        }
        bits & self.tested.word(word_of(c, row, at))
    }

    /// The runs of a part that test a thing, and perhaps a few that test others.
    pub(crate) fn of(&self, part: usize, thing: Thing) -> &[Run] {
        match self.parts.as_slice().get(part) {
            Some(part) => part.of(thing),
            None => &[],
        }
    }
}
