ghost use Rattle.std.specs.Prelude.{◌≡◌, length};
ghost use Rattle.scheme_base.specs.Operands.{name_of, operands_of};

/// The primitive operations, which the library's procedures are made of. `specs/Operands` has the kinds of
/// their operands, `specs/Operations` what each does.
#[derive(Clone, Copy, Debug, PartialEq, Eq)]
pub enum Op {
    Eqv,
    IsPair,
    IsSymbol,
    IsString,
    IsVector,
    IsProcedure,
    IsInteger,
    IsChar,
    IsBoolean,
    IsNull,
    IsEof,
    Cons,
    Car,
    Cdr,
    SetCar,
    SetCdr,
    Add,
    Subtract,
    Multiply,
    Quotient,
    Remainder,
    Modulo,
    Equals,
    Less,
    CharToInteger,
    IntegerToChar,
    SymbolName,
    MakeSymbol,
    MakeString,
    MakeVector,
    StringLength,
    VectorLength,
    StringRef,
    VectorRef,
    StringSet,
    VectorSet,
    ReadChar,
    PeekChar,
    WriteChar,
    Apply,
    CallCC,
}

/// All operations, in their order.
pub const OPERATIONS: [Op; 41] = [
    Op::Eqv,
    Op::IsPair,
    Op::IsSymbol,
    Op::IsString,
    Op::IsVector,
    Op::IsProcedure,
    Op::IsInteger,
    Op::IsChar,
    Op::IsBoolean,
    Op::IsNull,
    Op::IsEof,
    Op::Cons,
    Op::Car,
    Op::Cdr,
    Op::SetCar,
    Op::SetCdr,
    Op::Add,
    Op::Subtract,
    Op::Multiply,
    Op::Quotient,
    Op::Remainder,
    Op::Modulo,
    Op::Equals,
    Op::Less,
    Op::CharToInteger,
    Op::IntegerToChar,
    Op::SymbolName,
    Op::MakeSymbol,
    Op::MakeString,
    Op::MakeVector,
    Op::StringLength,
    Op::VectorLength,
    Op::StringRef,
    Op::VectorRef,
    Op::StringSet,
    Op::VectorSet,
    Op::ReadChar,
    Op::PeekChar,
    Op::WriteChar,
    Op::Apply,
    Op::CallCC,
];

impl Op {
    /// The name in the library's text. No name of a program begins so.
    pub fn name(self) -> &'static str
        ensures { result.now ≡ name_of self }
    {
        match self {
            Op::Eqv => "%eqv?",
            Op::IsPair => "%pair?",
            Op::IsSymbol => "%symbol?",
            Op::IsString => "%string?",
            Op::IsVector => "%vector?",
            Op::IsProcedure => "%procedure?",
            Op::IsInteger => "%integer?",
            Op::IsChar => "%char?",
            Op::IsBoolean => "%boolean?",
            Op::IsNull => "%null?",
            Op::IsEof => "%eof?",
            Op::Cons => "%cons",
            Op::Car => "%car",
            Op::Cdr => "%cdr",
            Op::SetCar => "%set-car!",
            Op::SetCdr => "%set-cdr!",
            Op::Add => "%+",
            Op::Subtract => "%-",
            Op::Multiply => "%*",
            Op::Quotient => "%quotient",
            Op::Remainder => "%remainder",
            Op::Modulo => "%modulo",
            Op::Equals => "%=",
            Op::Less => "%<",
            Op::CharToInteger => "%char->integer",
            Op::IntegerToChar => "%integer->char",
            Op::SymbolName => "%symbol-name",
            Op::MakeSymbol => "%make-symbol",
            Op::MakeString => "%make-string",
            Op::MakeVector => "%make-vector",
            Op::StringLength => "%string-length",
            Op::VectorLength => "%vector-length",
            Op::StringRef => "%string-ref",
            Op::VectorRef => "%vector-ref",
            Op::StringSet => "%string-set!",
            Op::VectorSet => "%vector-set!",
            Op::ReadChar => "%read-char",
            Op::PeekChar => "%peek-char",
            Op::WriteChar => "%write-char",
            Op::Apply => "%apply",
            Op::CallCC => "%call/cc",
        }
    }

    /// How many operands it takes.
    pub fn operands(self) -> usize
        ensures { result ≡ length (operands_of self) }
    {
        match self {
            Op::ReadChar | Op::PeekChar => 0,
            Op::Eqv
            | Op::Cons
            | Op::SetCar
            | Op::SetCdr
            | Op::Add
            | Op::Subtract
            | Op::Multiply
            | Op::Quotient
            | Op::Remainder
            | Op::Modulo
            | Op::Equals
            | Op::Less
            | Op::MakeString
            | Op::MakeVector
            | Op::StringRef
            | Op::VectorRef
            | Op::Apply => 2,
            Op::StringSet | Op::VectorSet => 3,
            _ => 1,
        }
    }
}
