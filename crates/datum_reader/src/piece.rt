ghost use Rattle.std.specs.Prelude.{◌≡◌, ◌<◌, ◌≤◌, ◌+◌, ℕ, length, take, drop, IfOk, false};
ghost use Rattle.std.specs.Str.{str_to_ascii_lowercase};
ghost use Rattle.datum_form.specs.Text.{is_delimiter, run_length, line_length, word_piece, string_piece, character_piece, run_piece, mark_piece, token_piece, piece, quoted};
ghost use Rattle.datum_form.specs.Words.{small_word};
ghost use Rattle.datum_reader.specs.Lexing.{fits};

use crate::string::{Quoted, read_string};
use crate::word::{character_word, small_word};
use datum_form::{Atom, Mark, Piece, Token, Word};
use scheme_base::{List, Pos};
use std::alloc::{AllocError, Global};

fn is_delimiter(byte: u8) -> bool
    ensures { result ≡ is_delimiter byte }
{
    byte.is_ascii_whitespace() || byte == b'(' || byte == b')' || byte == b'"' || byte == b';'
}

/// How many bytes stand before the first delimiter.
fn run_length(text: &[u8]) -> usize
    ensures value { result ≡ run_length text.now }
    ensures within { result ≤ length text.now }
{
    text.iter().take_while(|byte| !is_delimiter(**byte)).count()
}

/// How many bytes stand before the first line end.
fn line_length(text: &[u8]) -> usize
    ensures value { result ≡ line_length text.now }
    ensures within { result ≤ length text.now }
{
    text.iter().take_while(|byte| **byte != b'\n').count()
}

/// The piece that a run of this many bytes is.
fn word_piece(word: Word, length: usize) -> Piece
    ensures value { result ≡ word_piece word length }
    ensures within { (room : ℕ) → length ≤ room → fits result room }
{
    match word {
        Word::IsToken(token) => Piece::Found(token, length),
        Word::OutOfRange => Piece::BadNumber,
        Word::NoWord => Piece::BadToken,
    }
}

fn string_piece(alloc: Global, pos: Pos, text: &[u8]) -> Result<Piece, AllocError>
    requires { 0 < length text.now }
    ensures value { IfOk result (λ found. found ≡ string_piece pos (quoted false (drop 1 text.now))) }
    ensures within { IfOk result (λ found. fits found (length text.now)) }
{
    let found = read_string(alloc, &text[1..])?;
    Ok(match found {
        Quoted::Closed(bytes, length) => Piece::Found(
            Token::Atomic(pos, Atom::String(bytes)),
            length + 1,
        ),
        Quoted::BadEscape => Piece::BadToken,
        Quoted::NeverClosed => Piece::OpenString,
    })
}

fn character_piece(pos: Pos, text: &[u8]) -> Piece
    ensures value { result ≡ character_piece pos text.now }
    ensures within { fits result (length text.now) }
{
    let Some(others) = text.get(3..) else {
        return Piece::BadToken;
    };
    let length = 3 + run_length(others);
    word_piece(character_word(pos, &text[..length]), length)
}

/// The piece of a run that is no character.
fn small_piece(alloc: Global, pos: Pos, text: &[u8]) -> Result<Piece, AllocError>
    ensures value { IfOk result (λ found. found ≡ word_piece (small_word pos (str_to_ascii_lowercase (take (run_length text.now) text.now))) (run_length text.now)) }
    ensures within { IfOk result (λ found. fits found (length text.now)) }
{
    let length = run_length(text);
    let run = text[..length].to_ascii_lowercase(alloc)?;
    Ok(word_piece(small_word(pos, List::from_vec(run)), length))
}

fn run_piece(alloc: Global, pos: Pos, text: &[u8]) -> Result<Piece, AllocError>
    ensures value { IfOk result (λ found. found ≡ run_piece pos text.now) }
    ensures within { IfOk result (λ found. fits found (length text.now)) }
{
    if text.starts_with(b"#\\") {
        Ok(character_piece(pos, text))
    } else {
        small_piece(alloc, pos, text)
    }
}

fn mark_piece(alloc: Global, pos: Pos, text: &[u8]) -> Result<Piece, AllocError>
    ensures value { IfOk result (λ found. found ≡ mark_piece pos text.now) }
    ensures within { IfOk result (λ found. fits found (length text.now)) }
{
    if text.starts_with(b"'") {
        Ok(Piece::Found(Token::Marking(pos, Mark::Quote), 1))
    } else if text.starts_with(b"`") {
        Ok(Piece::Found(Token::Marking(pos, Mark::Quasiquote), 1))
    } else if text.starts_with(b",@") {
        Ok(Piece::Found(Token::Marking(pos, Mark::Splice), 2))
    } else if text.starts_with(b",") {
        Ok(Piece::Found(Token::Marking(pos, Mark::Unquote), 1))
    } else {
        run_piece(alloc, pos, text)
    }
}

fn token_piece(alloc: Global, pos: Pos, text: &[u8]) -> Result<Piece, AllocError>
    ensures value { IfOk result (λ found. found ≡ token_piece pos text.now) }
    ensures within { IfOk result (λ found. fits found (length text.now)) }
{
    if text.starts_with(b"(") {
        Ok(Piece::Found(Token::Open(pos), 1))
    } else if text.starts_with(b"#(") {
        Ok(Piece::Found(Token::OpenVector(pos), 2))
    } else if text.starts_with(b")") {
        Ok(Piece::Found(Token::Close(pos), 1))
    } else if text.starts_with(b"\"") {
        string_piece(alloc, pos, text)
    } else {
        mark_piece(alloc, pos, text)
    }
}

/// The first piece of a text that is not empty.
pub(crate) fn first_piece(alloc: Global, pos: Pos, text: &[u8]) -> Result<Piece, AllocError>
    requires { 0 < length text.now }
    ensures value { IfOk result (λ found. found ≡ piece pos text.now) }
    ensures within { IfOk result (λ found. fits found (length text.now)) }
{
    if text[0].is_ascii_whitespace() {
        Ok(Piece::Blank(1))
    } else if text.starts_with(b";") {
        Ok(Piece::Blank(line_length(text)))
    } else {
        token_piece(alloc, pos, text)
    }
}
