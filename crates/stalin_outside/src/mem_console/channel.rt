ghost use Rattle.std.specs.Prelude.{◌≡◌, ◌≤◌, ◌<◌, [], ◌∷◌, false, true, length, IfOk, OnOk, OnErr};
ghost use Rattle.std.specs.Bool.{OnTrue};
ghost use Rattle.stalin_outside.specs.Calls.{after_call};
ghost use Rattle.stalin_outside.specs.Causes.{HasCause};
ghost use Rattle.stalin_outside.specs.Console.{Adds, answer_of_write};
ghost use Rattle.stalin_outside.specs.Stream.{answered, call_fails, is_failure, out_answer, all_answers, written};

use crate::calls::Calls;
use crate::console::{Answer, Out};
use scheme_base::Numbers;
use std::alloc::{AllocError, Global};
use std::marker::Model;

/// A stream of bytes with the answers of its calls, whose room is taken when it is made: no later push
/// finds none.
///
/// Calls fail where they are listed, and all fail once there is no room for their answers.
#[derive(Drop)]
pub struct Channel {
    bytes: Vec<u8>,
    answers: Vec<Answer>,
    room: usize,
    later: u64,
    calls: Calls,
}

impl Model for Channel {
    ghost use Rattle.std.specs.Prelude.{◌≤◌, ◌<◌, ◌≡◌, vec_capacity, length, reverse};
    ghost use Rattle.stalin_outside.specs.Stream.{Stream};

    ghost Value = { Stream };

    ghost view = { λ channel. record {
      bytes = channel.bytes.items;
      answers = reverse channel.answers.items;
      room = channel.room;
      later = channel.later;
      calls = channel.calls;
    } };

    ghost invariant = { λ channel. (channel.room ≤ vec_capacity channel.bytes)
        × (channel.room ≤ vec_capacity channel.answers)
        × (length channel.bytes.items ≤ length channel.answers.items)
        × (length channel.answers.items < channel.room → channel.later ≡ 0) };
}

impl Channel {
    /// An empty stream with room for so many answers, of whose calls the listed ones fail.
    pub fn new(alloc: Global, room: usize, failing: &[u64]) -> Result<Channel, AllocError>
        ensures { IfOk result (λ channel. channel ≡ record {
          bytes = [];
          answers = [];
          room = room;
          later = 0;
          calls = record { failing = failing.now; made = 0; failed = 0 };
        }) }
    {
        Ok(Channel {
            bytes: Vec::with_capacity(alloc, room)?,
            answers: Vec::with_capacity(alloc, room)?,
            room,
            later: 0,
            calls: Calls::new(Numbers::from_slice(alloc, failing)?),
        })
    }

    /// Lists the calls that are to fail, in the place of those listed before.
    pub fn fail_at(&mut self, alloc: Global, calls: &[u64]) -> Result<(), AllocError>
        ensures ok { OnOk result (self.new ≡ record self.old { calls = record self.old.calls { failing = calls.now } }) }
        ensures err { OnErr result (self.new ≡ self.old) }
    {
        self.calls.failing = Numbers::from_slice(alloc, calls)?;
        Ok(())
    }

    pub fn bytes(&self) -> &[u8]
        ensures { result.now ≡ self.now.bytes }
    {
        &self.bytes
    }

    /// Counts a call, and tells whether it fails; its answer is then kept.
    pub fn refuses(&mut self) -> bool
        ensures answer { result ≡ call_fails self.old }
        ensures failed { OnTrue result (self.new ≡ answered Answer.Failed self.old) }
        ensures begun { result ≡ false → self.new ≡ record self.old { calls = after_call false self.old.calls } }
        ensures answers { OnTrue result (Adds Answer.Failed (all_answers self.old) (all_answers self.new)) }
        ensures cause { HasCause self.old.calls.failed self.new.calls.failed (result ≡ true) }
    {
        let listed = self.calls.count();
        if self.answers.len() >= self.room {
            self.calls.fault();
            self.later = self.later.saturating_add(1);
            return true;
        }
        if listed {
            self.calls.fault();
            let _ = self.answers.push(Answer::Failed);
        }
        listed
    }

    /// Keeps the answer of a call that did not fail.
    pub fn keep(&mut self, answer: Answer)
        requires { length self.old.answers < self.old.room }
        ensures state { self.new ≡ record self.old { answers = answer ∷ self.old.answers } }
        ensures answers { Adds answer (all_answers self.old) (all_answers self.new) }
    {
        let _ = self.answers.push(answer);
    }

    /// Writes a byte.
    pub fn write(&mut self, byte: u8) -> Out
        ensures answer { result ≡ out_answer (call_fails self.old) }
        ensures state { self.new ≡ written byte result self.old }
        ensures answers { Adds (answer_of_write byte result) (all_answers self.old) (all_answers self.new) }
        ensures cause { HasCause self.old.calls.failed self.new.calls.failed (result ≡ Out.Failed) }
    {
        if self.refuses() {
            return Out::Failed;
        }
        let _ = self.answers.push(Answer::Took(byte));
        let _ = self.bytes.push(byte);
        Out::Took
    }
}
