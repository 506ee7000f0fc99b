ghost use Rattle.std.specs.Prelude.{◌≡◌, ◌≤◌, ◌↔◌, IfErr, IfOk, IsOk, IsTrue, OnErr, OnOk};
ghost use Rattle.flow_form.specs.declared.event.Event.TheVariants.{Claim, Done, Load, Or};
ghost use Rattle.flow_form.specs.Race.{CanClaim, CanFinish, CanLoad, CanOr, Legal, after, start};
ghost use Rattle.flow_form.specs.Shape.{HasShape};

use crate::follow::{block_seen, follows};
use crate::seat::Seat;
use flow_form::{Constraints, Event, Rows, Rules};
use std::alloc::{AllocError, Global};
use std::marker::Model;

/// The most workers of a race.
pub const MOST_WORKERS: u32 = 32;

/// An event that the race does not allow as it stands.
#[derive(Clone, Copy, Debug, PartialEq, Eq)]
pub struct IllegalEvent {
    pub event: Event,
}

/// A race of a fixed number of workers, which contracts see as a state of the race machine.
#[derive(Drop)]
pub struct Race {
    constraints: Constraints,
    base: Vec<u64>,
    words: Vec<u64>,
    claims: u64,
    seats: Vec<Seat>,
}

impl Model for Race {
    ghost use Rattle.flow_form.specs.Race.{State};
    ghost use Rattle.flow_plain.specs.Machine.{IsSized, state_of};
    ghost use Rattle.flow_form.specs.contracts.constraints.Constraints as system;
    ghost use Rattle.std.specs.Coded.{codes};

    ghost Value = { State };

    ghost coded = { Prim.hlevel (codes, system.the_row.coded) };

    ghost view = { λ race. state_of race.constraints race.base.items race.words.items race.claims race.seats.items };

    ghost invariant = { λ race. IsSized race.constraints race.base.items race.words.items race.seats.items };
}

impl Race {
    /// A race of these workers, each with nothing, whose words are as in the base. It keeps copies of
    /// its own of the constraints and the base.
    pub fn start(
        alloc: Global,
        c: &Constraints,
        base: &Rows,
        workers: u32,
    ) -> Result<Race, AllocError>
        requires some { 1 ≤ workers }
        requires few { workers ≤ MOST_WORKERS }
        requires shape { HasShape c.now base.now }
        ensures { IfOk result (λ race. race ≡ start c.now base.now.words workers) }
    {
        let constraints = Constraints {
            rows: c.rows,
            atoms: c.atoms,
            rules: Rules::from_slice(alloc, c.rules.as_slice())?,
        };
        let mut seats = Vec::new(alloc);
        for _ in 0..workers {
            seats.push(Seat::new(alloc, c)?)?;
        }
        Ok(Race {
            constraints,
            base: base.words.as_slice().to_vec(alloc)?,
            words: base.words.as_slice().to_vec(alloc)?,
            claims: 0,
            seats,
        })
    }

    /// Does an event, where the race allows it as it stands; else nothing is changed.
    pub fn step(&mut self, event: Event) -> Result<(), IllegalEvent>
        ensures legal { IsOk result ↔ Legal self.old event }
        ensures ok { OnOk result (self.new ≡ after self.old event) }
        ensures unchanged { OnErr result (self.new ≡ self.old) }
        ensures told { IfErr result (λ illegal. illegal.event ≡ event) }
    {
        if !self.allows(event) {
            return Err(IllegalEvent { event });
        }
        match event {
            Event::Load { worker, word } => self.load(worker, word),
            Event::Or { worker, word, mask } => self.grow(worker, word, mask),
            Event::Claim { .. } => self.claims = self.claims.wrapping_add(1),
            Event::Done { worker, block } => self.finish(worker, block),
        }
        Ok(())
    }

    fn allows(&self, event: Event) -> bool
        ensures { IsTrue result ↔ Legal self.now event }
    {
        match event {
            Event::Load { worker, word } => self.allows_load(worker, word),
            Event::Or { worker, word, mask } => self.allows_or(worker, word, mask),
            Event::Claim { worker } => self.allows_claim(worker),
            Event::Done { worker, block } => self.allows_done(worker, block),
        }
    }

    fn allows_load(&self, worker: u32, word: u32) -> bool
        ensures { IsTrue result ↔ CanLoad self.now worker word }
    {
        self.allows_claim(worker) && (word as usize) < self.words.len()
    }

    fn allows_or(&self, worker: u32, word: u32, mask: u64) -> bool
        ensures { IsTrue result ↔ CanOr self.now worker word mask }
    {
        match self.seats.get(worker as usize) {
            None => false,
            Some(seat) => {
                (word as usize) < self.words.len()
                    && follows(&self.constraints, seat.loaded(), word, mask)
            }
        }
    }

    fn allows_claim(&self, worker: u32) -> bool
        ensures { IsTrue result ↔ CanClaim self.now worker }
    {
        (worker as usize) < self.seats.len()
    }

    fn allows_done(&self, worker: u32, block: u32) -> bool
        ensures { IsTrue result ↔ CanFinish self.now worker block }
    {
        match self.seats.get(worker as usize) {
            None => false,
            Some(seat) => {
                block < self.constraints.blocks()
                    && block_seen(&self.constraints, self.base.as_slice(), seat, block)
            }
        }
    }

    fn load(&mut self, worker: u32, word: u32)
        requires { CanLoad self.old worker word }
        ensures { self.new ≡ after self.old (Load worker word) }
    {
        let bits = self.words[word as usize];
        let seat = &mut self.seats[worker as usize];
        seat.load(word, bits);
    }

    fn grow(&mut self, worker: u32, word: u32, mask: u64)
        requires { CanOr self.old worker word mask }
        ensures { self.new ≡ after self.old (Or worker word mask) }
    {
        let found = self.words[word as usize];
        self.words[word as usize] = found | mask;
        let seat = &mut self.seats[worker as usize];
        seat.grow(word, mask | found);
    }

    fn finish(&mut self, worker: u32, block: u32)
        requires { CanFinish self.old worker block }
        ensures { self.new ≡ after self.old (Done worker block) }
    {
        let seat = &mut self.seats[worker as usize];
        seat.finish(block);
    }
}
