ghost use Rattle.std.specs.Prelude.{◌≡◌};
ghost use Rattle.rv_asm.specs.Routines.{number_of, first_of, place_of_mark, operation_number, allocates, refuses};

use const_data::Label;
use scheme_base::{ErrKind, Mark, Op};

/// A routine that compiled code jumps to or calls.
///
/// An operation, `call` and `callcc` have a form without checks for calls of which it is known that no
/// check refuses. What makes an object has a form that makes it with the running activation and a form
/// that makes it for good. `checked` means nothing for an operation that refuses no type, `mark` nothing
/// for one that makes no object.
#[derive(Clone, Copy, Debug, PartialEq, Eq)]
pub enum Routine {
    /// The start of the image: sets the registers and enters the program.
    Start,
    /// The end of a run.
    Finish,
    /// The end of a run by an error; register 16 has the position.
    Error(ErrKind),
    /// The end of a run whose heap is full.
    Storage,
    /// The end of a run by a failed read or write.
    Io,
    /// Room for an object of as many bytes as register 10 says.
    New(Mark),
    /// Turns the running frame into a record for good.
    Save,
    /// Makes the record in register 8 the running frame.
    Restore,
    /// A list of the argument words from the number in register 12 up to that in register 11.
    Rest(Mark),
    /// A copy of the list in register 13.
    Copy(Mark),
    /// A call of register 10 with as many argument words as register 11 says.
    Call {
        checked: bool,
    },
    /// A call of register 10 with the items of the list in register 13.
    Apply,
    /// A call of register 10 with the continuation whose record register 8 has.
    CallCC {
        checked: bool,
    },
    /// A primitive operation on registers 10, 11 and 12.
    Operation {
        op: Op,
        checked: bool,
        mark: Option<Mark>,
    },
}

impl Routine {
    ghost use Rattle.rv_asm.specs.Routines.{label_of};

    /// The number of the routine in the order of the routines' text, from 0.
    pub fn number(self) -> u32
        ensures { result ≡ number_of self }
    {
        match self {
            Routine::Start => 0,
            Routine::Finish => 1,
            Routine::Error(kind) => 1 + u32::from(kind.number()),
            Routine::Storage => 11,
            Routine::Io => 12,
            Routine::New(mark) => 13 + place_of(mark),
            Routine::Save => 15,
            Routine::Restore => 16,
            Routine::Rest(mark) => 17 + place_of(mark),
            Routine::Copy(mark) => 19 + place_of(mark),
            Routine::Call { checked: true } => 21,
            Routine::Call { checked: false } => 22,
            Routine::Apply => 23,
            Routine::CallCC { checked: true } => 24,
            Routine::CallCC { checked: false } => 25,
            Routine::Operation { op, checked, mark } => operation_number(op, checked, mark),
        }
    }

    /// The label of the routine's first instruction.
    pub fn label(self) -> Label
        ensures { result ≡ label_of self }
    {
        Label::Routine(self.number())
    }
}

/// Where a form with this mark stands among its like.
fn place_of(mark: Mark) -> u32
    ensures { result ≡ place_of_mark mark }
{
    match mark {
        Mark::Local => 0,
        Mark::Global => 1,
    }
}

fn operation_number(op: Op, checked: bool, mark: Option<Mark>) -> u32
    ensures { result ≡ operation_number op checked mark }
{
    let marked = match mark {
        Some(mark) if allocates(op) => place_of(mark),
        _ => 0,
    };
    let checks = if checked || !refuses(op) {
        0
    } else if allocates(op) {
        2
    } else {
        1
    };
    first_number(op) + checks + marked
}

/// Whether the operation makes an object.
fn allocates(op: Op) -> bool
    ensures { result ≡ allocates op }
{
    match op {
        Op::Cons | Op::MakeSymbol | Op::MakeString | Op::MakeVector => true,
        _ => false,
    }
}

/// Whether some operand of the operation is of a kind, so that other types are refused.
fn refuses(op: Op) -> bool
    ensures { result ≡ refuses op }
{
    match op {
        Op::Eqv
        | Op::IsPair
        | Op::IsSymbol
        | Op::IsString
        | Op::IsVector
        | Op::IsProcedure
        | Op::IsInteger
        | Op::IsChar
        | Op::IsBoolean
        | Op::IsNull
        | Op::IsEof
        | Op::Cons
        | Op::ReadChar
        | Op::PeekChar
        | Op::Apply
        | Op::CallCC => false,
        _ => true,
    }
}

/// The number of an operation's first form. `%apply` and `%call/cc` are the routines `apply` and `callcc`.
fn first_number(op: Op) -> u32
    ensures { result ≡ first_of op }
{
    match op {
        Op::Eqv => 26,
        Op::IsPair => 27,
        Op::IsSymbol => 28,
        Op::IsString => 29,
        Op::IsVector => 30,
        Op::IsProcedure => 31,
        Op::IsInteger => 32,
        Op::IsChar => 33,
        Op::IsBoolean => 34,
        Op::IsNull => 35,
        Op::IsEof => 36,
        Op::Cons => 37,
        Op::Car => 39,
        Op::Cdr => 41,
        Op::SetCar => 43,
        Op::SetCdr => 45,
        Op::Add => 47,
        Op::Subtract => 49,
        Op::Multiply => 51,
        Op::Quotient => 53,
        Op::Remainder => 55,
        Op::Modulo => 57,
        Op::Equals => 59,
        Op::Less => 61,
        Op::CharToInteger => 63,
        Op::IntegerToChar => 65,
        Op::SymbolName => 67,
        Op::MakeSymbol => 69,
        Op::MakeString => 73,
        Op::MakeVector => 77,
        Op::StringLength => 81,
        Op::VectorLength => 83,
        Op::StringRef => 85,
        Op::VectorRef => 87,
        Op::StringSet => 89,
        Op::VectorSet => 91,
        Op::ReadChar => 93,
        Op::PeekChar => 94,
        Op::WriteChar => 95,
        Op::Apply => 23,
        Op::CallCC => 24,
    }
}
