ghost use Rattle.stalin_outside.specs.Console.{IsRead, IsWrite, IsSend};

/// What a read of the input answers.
#[derive(Clone, Copy, Debug, PartialEq, Eq)]
pub enum In {
    /// The next byte, which is taken.
    Byte(u8),
    /// Nothing is left.
    End,
    /// A fault; nothing is taken.
    Failed,
}

/// What a write of a byte answers.
#[derive(Clone, Copy, Debug, PartialEq, Eq)]
pub enum Out {
    Took,
    /// A fault; nothing is written.
    Failed,
}

/// What a call of a console has answered, as the console keeps it.
#[derive(Clone, Copy, Debug, PartialEq, Eq)]
pub enum Answer {
    Byte(u8),
    End,
    /// A write of this byte that did not fail.
    Took(u8),
    Failed,
}

/// An input, an output and an output for errors, each a stream of bytes.
///
/// Two numbers count faults: one those of `input` and `out` together, the other those of `err`. The
/// answers stand in two lists likewise.
pub trait Console {
    ghost use Rattle.stalin_outside.specs.Console.{Told};

    /// What the console tells of itself.
    ghost told: { Self → Told };

    /// Takes the next byte of the input.
    fn input(&mut self) -> In
        ensures { IsRead result (told self.old) (told self.new) };

    /// Writes a byte to the output.
    fn out(&mut self, byte: u8) -> Out
        ensures { IsWrite byte result (told self.old) (told self.new) };

    /// Writes a byte to the output for errors.
    fn err(&mut self, byte: u8) -> Out
        ensures { IsSend byte result (told self.old) (told self.new) };
}
