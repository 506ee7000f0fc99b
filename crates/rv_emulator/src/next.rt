//! What an instruction comes to, and what ends a run.
ghost use Rattle.std.specs.Prelude.{◌≡◌};
ghost use Rattle.rv_emulator.specs.Held.{answer_in};

/// Where the next instruction stands.
#[derive(Clone, Copy, Debug, PartialEq, Eq)]
pub enum Turn {
    /// Behind the one that was done.
    On,
    /// Here.
    Jump(u64),
    /// Here where the branch is taken, and else behind it. Both are told, so that no run waits for the test.
    Branch { taken: bool, to: u64 },
}

/// What an instruction comes to.
#[derive(Clone, Copy, Debug, PartialEq, Eq)]
pub enum Next {
    /// It is done.
    Go(Turn),
    /// It has no step, for a reason of this number (`rv_form`'s `specs/Machine`).
    Trap(u8),
    /// It is a system call, which is still to be made.
    Call,
}

/// The place of the next instruction, and its number among the words that were read once, or one past them.
#[derive(Clone, Copy)]
pub struct Spot {
    pub pc: u64,
    pub at: usize,
}

/// How far a run has come: the place of its next instruction, and how many steps are left.
#[derive(Clone, Copy)]
pub struct Went {
    pub pc: u64,
    pub left: u64,
}

/// How a machine has stopped.
#[derive(Clone, Copy, Debug, PartialEq, Eq)]
pub enum End {
    /// It has exited.
    Exited { status: u8 },
    /// It has no step from `pc` on.
    Trapped { kind: u8, pc: u64 },
}

/// What a run of a machine comes to.
#[derive(Clone, Copy, Debug, PartialEq, Eq)]
pub enum RunEnd {
    /// It has exited with this status.
    Ended { status: u8 },
    /// It has done so many steps, and can do another.
    Spent { steps: u64 },
    /// It has no step from `pc` on, for a reason of this number: 1 no such word, 2 no such place of an
    /// instruction, 3 a load from a place that may not be read, 4 a store to one that may not be
    /// written, 5 another system call number, 6 a breakpoint.
    Trapped { kind: u8, pc: u64 },
}

/// What a machine answers that has used up so many steps, or has stopped.
pub fn answer(end: Option<End>, steps: u64) -> RunEnd
    ensures { result ≡ answer_in steps end }
{
    match end {
        None => RunEnd::Spent { steps },
        Some(End::Exited { status }) => RunEnd::Ended { status },
        Some(End::Trapped { kind, pc }) => RunEnd::Trapped { kind, pc },
    }
}
