ghost use Rattle.std.specs.Prelude.{◌≡◌, ◌≤◌, IfOk};
ghost use Rattle.stalin_outside.specs.Streams.{ReadByte, WroteByte};

use crate::console::{Console, In, Out};
use crate::retry::{read_some, write_some};
use std::alloc::AllocError;
use std::io::{Read, Write};

/// A console over three streams, as those of the process. It tells no content; each call says what its
/// stream tells of itself.
///
/// Each call reads or writes one byte of its stream at once.
#[derive(Drop)]
pub struct StdConsole<I: Read + Drop, O: Write + Drop, E: Write + Drop> {
    input: I,
    output: O,
    errors: E,
    faults: u64,
    err_faults: u64,
}

impl<I: Read + Drop, O: Write + Drop, E: Write + Drop> StdConsole<I, O, E> {
    /// A console over these streams. It takes no memory, and so always answers.
    pub fn new(input: I, output: O, errors: E) -> Result<StdConsole<I, O, E>, AllocError>
        ensures faults { IfOk result (λ console. console.faults ≡ 0) }
        ensures err_faults { IfOk result (λ console. console.err_faults ≡ 0) }
    {
        Ok(StdConsole {
            input,
            output,
            errors,
            faults: 0,
            err_faults: 0,
        })
    }
}

/// Writes a byte, and tells whether the stream took it.
fn put<W: Write>(writer: &mut W, byte: u8) -> Out
    ensures { WroteByte byte (W.contents writer.old) (W.contents writer.new) result }
{
    match write_some(writer, &[byte]) {
        Some(count) if count > 0 => Out::Took,
        _ => Out::Failed,
    }
}

impl<I: Read + Drop, O: Write + Drop, E: Write + Drop> Console for StdConsole<I, O, E> {
    ghost use Rattle.std.specs.Prelude.{None};
    ghost use Rattle.stalin_outside.specs.Causes.{HasCause};

    ghost told = { λ console. record {
      input = None;
      output = None;
      errors = None;
      answers = None;
      err_answers = None;
      faults = console.faults;
      err_faults = console.err_faults;
    } };

    fn input(&mut self) -> In
        ensures byte { ReadByte (I.remaining self.old.input) (I.remaining self.new.input) result }
        ensures others { self.new ≡ record self.old { input = self.new.input; faults = self.new.faults } }
        ensures cause { HasCause self.old.faults self.new.faults (result ≡ In.Failed) }
    {
        let mut byte = [0u8];
        match read_some(&mut self.input, &mut byte) {
            Some(0) => In::End,
            Some(_) => In::Byte(byte[0]),
            None => {
                self.faults = self.faults.saturating_add(1);
                In::Failed
            }
        }
    }

    fn out(&mut self, byte: u8) -> Out
        ensures byte { WroteByte byte (O.contents self.old.output) (O.contents self.new.output) result }
        ensures others { self.new ≡ record self.old { output = self.new.output; faults = self.new.faults } }
        ensures cause { HasCause self.old.faults self.new.faults (result ≡ Out.Failed) }
    {
        let answer = put(&mut self.output, byte);
        if answer == Out::Failed {
            self.faults = self.faults.saturating_add(1);
        }
        answer
    }

    fn err(&mut self, byte: u8) -> Out
        ensures byte { WroteByte byte (E.contents self.old.errors) (E.contents self.new.errors) result }
        ensures others { self.new ≡ record self.old { errors = self.new.errors; err_faults = self.new.err_faults } }
        ensures cause { HasCause self.old.err_faults self.new.err_faults (result ≡ Out.Failed) }
    {
        let answer = put(&mut self.errors, byte);
        if answer == Out::Failed {
            self.err_faults = self.err_faults.saturating_add(1);
        }
        answer
    }
}
