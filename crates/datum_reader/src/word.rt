ghost use Rattle.std.specs.Prelude.{◌≡◌};
ghost use Rattle.datum_form.specs.declared.token.Atom.TheVariants.{Character};
ghost use Rattle.datum_form.specs.declared.token.Token.TheVariants.{Atomic};
ghost use Rattle.datum_form.specs.declared.piece.Word.TheVariants.{IsToken};
ghost use Rattle.datum_form.specs.Words.{is_initial, is_subsequent, all_subsequent, is_ordinary, is_name, name_word, number, number_or_name, small_word, character_word};

use crate::number::{Numeral, number};
use datum_form::{Atom, Token, Word};
use scheme_base::{Bytes, Pos};

fn is_initial(byte: u8) -> bool
    ensures { result ≡ is_initial byte }
{
    byte.is_ascii_lowercase() || b"!$%&*/:<=>?~_^".contains(&byte)
}

fn is_subsequent(byte: u8) -> bool
    ensures { result ≡ is_subsequent byte }
{
    is_initial(byte) || byte.is_ascii_digit() || b".+-".contains(&byte)
}

fn all_subsequent(text: &[u8]) -> bool
    ensures { result ≡ all_subsequent text.now }
{
    let mut rest = text;
    while let Some((first, others)) = rest.split_first() {
        if !is_subsequent(*first) {
            return false;
        }
        rest = others;
    }
    true
}

fn is_ordinary(text: &[u8]) -> bool
    ensures { result ≡ is_ordinary text.now }
{
    match text.split_first() {
        Some((first, others)) => is_initial(*first) && all_subsequent(others),
        None => false,
    }
}

fn is_name(text: &[u8]) -> bool
    ensures { result ≡ is_name text.now }
{
    is_ordinary(text)
        || text == b"+".as_slice()
        || text == b"-".as_slice()
        || text == b"...".as_slice()
}

fn name_word(pos: Pos, text: Bytes) -> Word
    ensures { result ≡ name_word pos text }
{
    if is_name(text.as_slice()) {
        Word::IsToken(Token::Atomic(pos, Atom::Symbol(text)))
    } else {
        Word::NoWord
    }
}

fn number_or_name(pos: Pos, text: Bytes) -> Word
    ensures { result ≡ number_or_name pos text (number text) }
{
    match number(text.as_slice()) {
        Numeral::Value(value) => Word::IsToken(Token::Atomic(pos, Atom::Integer(value))),
        Numeral::OutOfRange => Word::OutOfRange,
        Numeral::NoNumber => name_word(pos, text),
    }
}

/// What a run is that begins no character, by its bytes in small letters.
pub(crate) fn small_word(pos: Pos, text: Bytes) -> Word
    ensures { result ≡ small_word pos text }
{
    if text.as_slice() == b".".as_slice() {
        Word::IsToken(Token::Dot(pos))
    } else if text.as_slice() == b"#t".as_slice() {
        Word::IsToken(Token::Atomic(pos, Atom::Boolean(true)))
    } else if text.as_slice() == b"#f".as_slice() {
        Word::IsToken(Token::Atomic(pos, Atom::Boolean(false)))
    } else {
        number_or_name(pos, text)
    }
}

fn character(pos: Pos, byte: u8) -> Word
    ensures { result ≡ IsToken (Atomic pos (Character byte)) }
{
    Word::IsToken(Token::Atomic(pos, Atom::Character(byte)))
}

/// What a run is that begins with `#\`.
pub(crate) fn character_word(pos: Pos, text: &[u8]) -> Word
    ensures { result ≡ character_word pos text.now }
{
    if text.len() == 3 {
        character(pos, text[2])
    } else if text.eq_ignore_ascii_case(b"#\\space") {
        character(pos, b' ')
    } else if text.eq_ignore_ascii_case(b"#\\newline") {
        character(pos, b'\n')
    } else {
        Word::NoWord
    }
}
