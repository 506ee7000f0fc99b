//! The text: each routine with its code, in the order of their numbers.
ghost use Rattle.std.specs.Prelude.{◌≡◌, ◌++◌, IfOk, OnOk};
ghost use Rattle.rv_asm.specs.Layout.{AreSound};
ghost use Rattle.image_support.specs.Text.{text, text_of, labels_in, routine_labels, code_of, error_code, operation_code};

use crate::forms::form;
use crate::{calls, characters, ends, memory, numbers, pairs, predicates, sequences};
use rv_asm::{Asm, AsmItem, Routine};
use scheme_base::{ErrKind, List, Mark, Op};
use std::alloc::{AllocError, Global};

/// A form of an operation's routine.
macro_rules! operation {
    ($op:ident) => { Routine::Operation { op: Op::$op, checked: true, mark: None } };
    ($op:ident bare) => { Routine::Operation { op: Op::$op, checked: false, mark: None } };
    ($op:ident $mark:ident) => { Routine::Operation { op: Op::$op, checked: true, mark: Some(Mark::$mark) } };
    ($op:ident bare $mark:ident) => { Routine::Operation { op: Op::$op, checked: false, mark: Some(Mark::$mark) } };
}

/// The routines in the order of their numbers.
pub const ROUTINES: &[Routine] = &[
    Routine::Start,
    Routine::Finish,
    Routine::Error(ErrKind::WrongType),
    Routine::Error(ErrKind::Index),
    Routine::Error(ErrKind::Unbound),
    Routine::Error(ErrKind::NotProcedure),
    Routine::Error(ErrKind::Count),
    Routine::Error(ErrKind::Overflow),
    Routine::Error(ErrKind::ZeroDivisor),
    Routine::Error(ErrKind::Undefined),
    Routine::Error(ErrKind::LiteralWritten),
    Routine::Storage,
    Routine::Io,
    Routine::New(Mark::Local),
    Routine::New(Mark::Global),
    Routine::Save,
    Routine::Restore,
    Routine::Rest(Mark::Local),
    Routine::Rest(Mark::Global),
    Routine::Copy(Mark::Local),
    Routine::Copy(Mark::Global),
    Routine::Call { checked: true },
    Routine::Call { checked: false },
    Routine::Apply,
    Routine::CallCC { checked: true },
    Routine::CallCC { checked: false },
    operation!(Eqv),
    operation!(IsPair),
    operation!(IsSymbol),
    operation!(IsString),
    operation!(IsVector),
    operation!(IsProcedure),
    operation!(IsInteger),
    operation!(IsChar),
    operation!(IsBoolean),
    operation!(IsNull),
    operation!(IsEof),
    operation!(Cons Local),
    operation!(Cons Global),
    operation!(Car),
    operation!(Car bare),
    operation!(Cdr),
    operation!(Cdr bare),
    operation!(SetCar),
    operation!(SetCar bare),
    operation!(SetCdr),
    operation!(SetCdr bare),
    operation!(Add),
    operation!(Add bare),
    operation!(Subtract),
    operation!(Subtract bare),
    operation!(Multiply),
    operation!(Multiply bare),
    operation!(Quotient),
    operation!(Quotient bare),
    operation!(Remainder),
    operation!(Remainder bare),
    operation!(Modulo),
    operation!(Modulo bare),
    operation!(Equals),
    operation!(Equals bare),
    operation!(Less),
    operation!(Less bare),
    operation!(CharToInteger),
    operation!(CharToInteger bare),
    operation!(IntegerToChar),
    operation!(IntegerToChar bare),
    operation!(SymbolName),
    operation!(SymbolName bare),
    operation!(MakeSymbol Local),
    operation!(MakeSymbol Global),
    operation!(MakeSymbol bare Local),
    operation!(MakeSymbol bare Global),
    operation!(MakeString Local),
    operation!(MakeString Global),
    operation!(MakeString bare Local),
    operation!(MakeString bare Global),
    operation!(MakeVector Local),
    operation!(MakeVector Global),
    operation!(MakeVector bare Local),
    operation!(MakeVector bare Global),
    operation!(StringLength),
    operation!(StringLength bare),
    operation!(VectorLength),
    operation!(VectorLength bare),
    operation!(StringRef),
    operation!(StringRef bare),
    operation!(VectorRef),
    operation!(VectorRef bare),
    operation!(StringSet),
    operation!(StringSet bare),
    operation!(VectorSet),
    operation!(VectorSet bare),
    operation!(ReadChar),
    operation!(PeekChar),
    operation!(WriteChar),
    operation!(WriteChar bare),
];

/// The text of the routines, which begins with the start of the image.
pub fn support(alloc: Global) -> Result<Asm, AllocError>
    ensures text { IfOk result (λ asm. asm ≡ text) }
    ensures sound { AreSound text }
    ensures labels { labels_in text ≡ routine_labels 97 0 }
{
    let mut asm = List::new(alloc);
    push_routines(&mut asm, ROUTINES)?;
    Ok(asm)
}

/// Puts routines at the end, each behind its label.
fn push_routines(asm: &mut Asm, routines: &[Routine]) -> Result<(), AllocError>
    ensures { OnOk result (asm.new ≡ asm.old ++ text_of routines.now) }
{
    for routine in routines {
        asm.push(AsmItem::Here(routine.label()))?;
        asm.extend_from_slice(code_of(*routine))?;
    }
    Ok(())
}

/// The code of a routine.
fn code_of(routine: Routine) -> &'static [AsmItem]
    ensures { result.now ≡ code_of routine }
{
    match routine {
        Routine::Start => ends::START,
        Routine::Finish => ends::FINISH,
        Routine::Error(kind) => error_code(kind),
        Routine::Storage => ends::STORAGE,
        Routine::Io => ends::IO,
        Routine::New(Mark::Local) => memory::NEW_LOCAL,
        Routine::New(Mark::Global) => memory::NEW_GLOBAL,
        Routine::Save => memory::SAVE,
        Routine::Restore => memory::RESTORE,
        Routine::Rest(Mark::Local) => memory::REST_LOCAL,
        Routine::Rest(Mark::Global) => memory::REST_GLOBAL,
        Routine::Copy(Mark::Local) => memory::COPY_LOCAL,
        Routine::Copy(Mark::Global) => memory::COPY_GLOBAL,
        Routine::Call { checked } => form(calls::CALLS, checked),
        Routine::Apply => form(calls::APPLIES, true),
        Routine::CallCC { checked } => form(calls::CAPTURES, checked),
        Routine::Operation { op, checked, mark } => operation_code(op, mark, checked),
    }
}

/// The code of the end by an error.
fn error_code(kind: ErrKind) -> &'static [AsmItem]
    ensures { result.now ≡ error_code kind }
{
    match kind {
        ErrKind::WrongType => ends::ERROR_1,
        ErrKind::Index => ends::ERROR_2,
        ErrKind::Unbound => ends::ERROR_3,
        ErrKind::NotProcedure => ends::ERROR_4,
        ErrKind::Count => ends::ERROR_5,
        ErrKind::Overflow => ends::ERROR_6,
        ErrKind::ZeroDivisor => ends::ERROR_7,
        ErrKind::Undefined => ends::ERROR_8,
        ErrKind::LiteralWritten => ends::ERROR_9,
    }
}

/// The code of an operation, by where it makes its object.
fn operation_code(op: Op, mark: Option<Mark>, checked: bool) -> &'static [AsmItem]
    ensures { result.now ≡ operation_code op mark checked }
{
    match (op, mark) {
        (Op::Eqv, _) => form(predicates::EQV, checked),
        (Op::IsPair, _) => form(predicates::IS_PAIR, checked),
        (Op::IsSymbol, _) => form(predicates::IS_SYMBOL, checked),
        (Op::IsString, _) => form(predicates::IS_STRING, checked),
        (Op::IsVector, _) => form(predicates::IS_VECTOR, checked),
        (Op::IsProcedure, _) => form(predicates::IS_PROCEDURE, checked),
        (Op::IsInteger, _) => form(predicates::IS_INTEGER, checked),
        (Op::IsChar, _) => form(predicates::IS_CHAR, checked),
        (Op::IsBoolean, _) => form(predicates::IS_BOOLEAN, checked),
        (Op::IsNull, _) => form(predicates::IS_NULL, checked),
        (Op::IsEof, _) => form(predicates::IS_EOF, checked),
        (Op::Cons, Some(Mark::Global)) => form(pairs::CONS_GLOBAL, checked),
        (Op::Cons, _) => form(pairs::CONS_LOCAL, checked),
        (Op::Car, _) => form(pairs::CAR, checked),
        (Op::Cdr, _) => form(pairs::CDR, checked),
        (Op::SetCar, _) => form(pairs::SET_CAR, checked),
        (Op::SetCdr, _) => form(pairs::SET_CDR, checked),
        (Op::Add, _) => form(numbers::ADD, checked),
        (Op::Subtract, _) => form(numbers::SUBTRACT, checked),
        (Op::Multiply, _) => form(numbers::MULTIPLY, checked),
        (Op::Quotient, _) => form(numbers::QUOTIENT, checked),
        (Op::Remainder, _) => form(numbers::REMAINDER, checked),
        (Op::Modulo, _) => form(numbers::MODULO, checked),
        (Op::Equals, _) => form(numbers::EQUALS, checked),
        (Op::Less, _) => form(numbers::LESS, checked),
        (Op::CharToInteger, _) => form(characters::CHAR_TO_INTEGER, checked),
        (Op::IntegerToChar, _) => form(characters::INTEGER_TO_CHAR, checked),
        (Op::SymbolName, _) => form(sequences::SYMBOL_NAME, checked),
        (Op::MakeSymbol, Some(Mark::Global)) => form(sequences::MAKE_SYMBOL_GLOBAL, checked),
        (Op::MakeSymbol, _) => form(sequences::MAKE_SYMBOL_LOCAL, checked),
        (Op::MakeString, Some(Mark::Global)) => form(sequences::MAKE_STRING_GLOBAL, checked),
        (Op::MakeString, _) => form(sequences::MAKE_STRING_LOCAL, checked),
        (Op::MakeVector, Some(Mark::Global)) => form(sequences::MAKE_VECTOR_GLOBAL, checked),
        (Op::MakeVector, _) => form(sequences::MAKE_VECTOR_LOCAL, checked),
        (Op::StringLength, _) => form(sequences::STRING_LENGTH, checked),
        (Op::VectorLength, _) => form(sequences::VECTOR_LENGTH, checked),
        (Op::StringRef, _) => form(sequences::STRING_REF, checked),
        (Op::VectorRef, _) => form(sequences::VECTOR_REF, checked),
        (Op::StringSet, _) => form(sequences::STRING_SET, checked),
        (Op::VectorSet, _) => form(sequences::VECTOR_SET, checked),
        (Op::ReadChar, _) => form(characters::READ_CHAR, checked),
        (Op::PeekChar, _) => form(characters::PEEK_CHAR, checked),
        (Op::WriteChar, _) => form(characters::WRITE_CHAR, checked),
        (Op::Apply, _) => form(calls::APPLIES, checked),
        (Op::CallCC, _) => form(calls::CAPTURES, checked),
    }
}
