//! What operations take as operands.

ghost use Rattle.std.specs.Prelude.{◌≡◌, map};
ghost use Rattle.std.specs.Option.{option_copied};
ghost use Rattle.scheme_base.specs.Operands.{operands_of};
ghost use Rattle.plan_facts.specs.Represented.{suits};
ghost use Rattle.repr_choice.specs.Wanted.{kind_of};

use flow_constraints::Kind;
use scheme_base::Op;

/// The atom of all integers.
pub(crate) const INTEGER: u32 = 1;
/// The atom of all characters.
const CHARACTER: u32 = 2;
/// The atom of the symbols of the text.
const SYMBOL: u32 = 8;
/// The atom of their names.
const NAME: u32 = 9;

/// What an operation takes as an operand.
#[derive(Clone, Copy)]
pub(crate) enum Wanted {
    Any,
    Integer,
    Character,
    Pair,
    Text,
    Vector,
    Symbol,
}

/// What an operation takes, from left to right.
pub(crate) fn operands_wanted(op: Op) -> &'static [Wanted]
    ensures { map kind_of result.now ≡ operands_of op }
{
    match op {
        Op::IsPair
        | Op::IsSymbol
        | Op::IsString
        | Op::IsVector
        | Op::IsProcedure
        | Op::IsInteger
        | Op::IsChar
        | Op::IsBoolean
        | Op::IsNull
        | Op::IsEof
        | Op::CallCC => &[Wanted::Any],
        Op::Eqv | Op::Cons | Op::Apply => &[Wanted::Any, Wanted::Any],
        Op::Car | Op::Cdr => &[Wanted::Pair],
        Op::SetCar | Op::SetCdr => &[Wanted::Pair, Wanted::Any],
        Op::Add
        | Op::Subtract
        | Op::Multiply
        | Op::Quotient
        | Op::Remainder
        | Op::Modulo
        | Op::Equals
        | Op::Less => &[Wanted::Integer, Wanted::Integer],
        Op::CharToInteger | Op::WriteChar => &[Wanted::Character],
        Op::IntegerToChar => &[Wanted::Integer],
        Op::SymbolName => &[Wanted::Symbol],
        Op::MakeSymbol | Op::StringLength => &[Wanted::Text],
        Op::MakeString => &[Wanted::Integer, Wanted::Character],
        Op::MakeVector => &[Wanted::Integer, Wanted::Any],
        Op::VectorLength => &[Wanted::Vector],
        Op::StringRef => &[Wanted::Text, Wanted::Integer],
        Op::VectorRef => &[Wanted::Vector, Wanted::Integer],
        Op::StringSet => &[Wanted::Text, Wanted::Integer, Wanted::Character],
        Op::VectorSet => &[Wanted::Vector, Wanted::Integer, Wanted::Any],
        Op::ReadChar | Op::PeekChar => &[],
    }
}

/// Whether an operand of this kind takes what an atom stands for.
pub(crate) fn suits(wanted: Wanted, atom: u32, kind: Option<&Kind>) -> bool
    ensures { result ≡ suits (kind_of wanted) atom (option_copied kind.entry) }
{
    match wanted {
        Wanted::Any => true,
        Wanted::Integer => atom == INTEGER,
        Wanted::Character => atom == CHARACTER,
        Wanted::Pair => matches!(kind, Some(Kind::Pair { .. })),
        Wanted::Text => matches!(kind, Some(Kind::Text { .. })) || atom == NAME,
        Wanted::Vector => matches!(kind, Some(Kind::Vector { .. })),
        Wanted::Symbol => matches!(kind, Some(Kind::Symbol { .. })) || atom == SYMBOL,
    }
}
