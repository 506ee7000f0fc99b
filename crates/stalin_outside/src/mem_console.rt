ghost use Rattle.std.specs.Prelude.{◌≡◌, [], Some, IfOk, OnOk, OnErr};

use crate::console::{Answer, Console, In, Out};
use channel::Channel;
use scheme_base::Bytes;
use std::alloc::{AllocError, Global};

mod channel;

/// A console in memory, of which chosen calls fail.
///
/// The room for its answers and for what is written is taken when it is made. Every call for whose answer
/// there is no room fails too; the console then only counts such calls, and tells its answers as long as
/// that number tells how many they are. Its calls take no memory.
#[derive(Drop)]
pub struct MemConsole {
    text: Bytes,
    place: usize,
    channel: Channel,
    errors: Channel,
}

impl MemConsole {
    /// A console with this input and with room for `room` answers of `input` and `out` together and for as
    /// many of `err`. The calls of `input` and `out` whose numbers are listed fail; they are counted
    /// together from 1.
    pub fn new(
        alloc: Global,
        input: &[u8],
        room: usize,
        failing: &[u64],
    ) -> Result<MemConsole, AllocError>
        ensures { IfOk result (λ console. console ≡ record {
          text = input.now;
          place = 0;
          channel = record {
            bytes = [];
            answers = [];
            room = room;
            later = 0;
            calls = record { failing = failing.now; made = 0; failed = 0 };
          };
          errors = record {
            bytes = [];
            answers = [];
            room = room;
            later = 0;
            calls = record { failing = []; made = 0; failed = 0 };
          };
        }) }
    {
        Ok(MemConsole {
            text: Bytes::from_slice(alloc, input)?,
            place: 0,
            channel: Channel::new(alloc, room, failing)?,
            errors: Channel::new(alloc, room, &[])?,
        })
    }

    /// Lists the calls of `err` that are to fail, in the place of those listed before; they are counted by
    /// themselves from 1, since the console was made.
    pub fn fail_errors_at(&mut self, alloc: Global, calls: &[u64]) -> Result<(), AllocError>
        ensures ok { OnOk result (self.new ≡ record self.old {
          errors =
              record self.old.errors { calls = record self.old.errors.calls { failing = calls.now } };
        }) }
        ensures err { OnErr result (self.new ≡ self.old) }
    {
        self.errors.fail_at(alloc, calls)
    }

    /// What `out` has written.
    pub fn output(&self) -> &[u8]
        ensures { result.now ≡ self.now.channel.bytes }
    {
        self.channel.bytes()
    }

    /// What `err` has written.
    pub fn errors(&self) -> &[u8]
        ensures { result.now ≡ self.now.errors.bytes }
    {
        self.errors.bytes()
    }
}

impl Console for MemConsole {
    ghost use Rattle.stalin_outside.specs.Causes.{HasCause};
    ghost use Rattle.stalin_outside.specs.Console.{Takes, Adds, answer_of_input, answer_of_write};
    ghost use Rattle.stalin_outside.specs.Stream.{answered, call_fails, out_answer, all_answers, written};
    ghost use Rattle.stalin_outside.specs.MemConsole.{in_answer, input_left};

    ghost told = { λ console. record {
      input = Some (input_left console);
      output = Some console.channel.bytes;
      errors = Some console.errors.bytes;
      answers = all_answers console.channel;
      err_answers = all_answers console.errors;
      faults = console.channel.calls.failed;
      err_faults = console.errors.calls.failed;
    } };

    fn input(&mut self) -> In
        ensures exact { result ≡ in_answer (call_fails self.old.channel) (input_left self.old) }
        ensures taken { Takes result (Some (input_left self.old)) (Some (input_left self.new)) }
        ensures channel { self.new.channel ≡ answered (answer_of_input result) self.old.channel }
        ensures errors { self.new.errors ≡ self.old.errors }
        ensures answers { Adds (answer_of_input result) (all_answers self.old.channel) (all_answers self.new.channel) }
        ensures cause { HasCause self.old.channel.calls.failed self.new.channel.calls.failed (result ≡ In.Failed) }
    {
        if self.channel.refuses() {
            return In::Failed;
        }
        match self.text.as_slice().get(self.place) {
            Some(byte) => {
                self.place += 1;
                self.channel.keep(Answer::Byte(*byte));
                In::Byte(*byte)
            }
            None => {
                self.channel.keep(Answer::End);
                In::End
            }
        }
    }

    fn out(&mut self, byte: u8) -> Out
        ensures exact { result ≡ out_answer (call_fails self.old.channel) }
        ensures channel { self.new.channel ≡ written byte result self.old.channel }
        ensures others { self.new ≡ record self.old { channel = self.new.channel } }
        ensures answers { Adds (answer_of_write byte result) (all_answers self.old.channel) (all_answers self.new.channel) }
        ensures cause { HasCause self.old.channel.calls.failed self.new.channel.calls.failed (result ≡ Out.Failed) }
    {
        self.channel.write(byte)
    }

    fn err(&mut self, byte: u8) -> Out
        ensures exact { result ≡ out_answer (call_fails self.old.errors) }
        ensures errors { self.new.errors ≡ written byte result self.old.errors }
        ensures others { self.new ≡ record self.old { errors = self.new.errors } }
        ensures answers { Adds (answer_of_write byte result) (all_answers self.old.errors) (all_answers self.new.errors) }
        ensures cause { HasCause self.old.errors.calls.failed self.new.errors.calls.failed (result ≡ Out.Failed) }
    {
        self.errors.write(byte)
    }
}
