ghost use Rattle.std.specs.Prelude.{◌≡◌};
ghost use Rattle.scheme_base.specs.Stops.{number_of};

use crate::Limit;

/// The kinds of error with which a run stops.
#[derive(Clone, Copy, Debug, PartialEq, Eq)]
pub enum ErrKind {
    /// An operand has a type that the operation refuses, or the list of an `%apply` is no list.
    WrongType,
    /// An index, a length or a character's code is out of range.
    Index,
    /// A top-level variable is read or assigned before its definition.
    Unbound,
    /// What is called is no procedure.
    NotProcedure,
    /// A procedure does not take that many operands.
    Count,
    /// A result is not from -2^61 to 2^61 - 1.
    Overflow,
    /// A division by 0.
    ZeroDivisor,
    /// A variable of a `letrec` is read before it has a value.
    Undefined,
    /// A part of a literal, or the name of a literal symbol, is written to.
    LiteralWritten,
}

impl ErrKind {
    /// The number that a run's report shows, from 1.
    pub fn number(self) -> u8
        ensures { result ≡ number_of self }
    {
        match self {
            ErrKind::WrongType => 1,
            ErrKind::Index => 2,
            ErrKind::Unbound => 3,
            ErrKind::NotProcedure => 4,
            ErrKind::Count => 5,
            ErrKind::Overflow => 6,
            ErrKind::ZeroDivisor => 7,
            ErrKind::Undefined => 8,
            ErrKind::LiteralWritten => 9,
        }
    }
}

/// Why a step of the compiler refuses a program that is right in itself.
#[derive(Clone, Copy, Debug, PartialEq, Eq)]
pub enum LimitErr {
    Limit(Limit),
    NoMemory,
}
