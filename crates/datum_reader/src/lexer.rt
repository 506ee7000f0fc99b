ghost use Rattle.std.specs.Prelude.{◌≡◌, ◌+◌, ◌^◌, ◌<◌, ◌≤◌, length, take, drop, IfOk};
ghost use Rattle.scheme_base.specs.Positions.{position_after};
ghost use Rattle.datum_reader.specs.Lexing.{Scans, Shorter};

use crate::piece::first_piece;
use datum_form::{Piece, Token};
use scheme_base::Pos;
use std::alloc::{AllocError, Global};

/// What is left of a text, and its place.
#[derive(Clone, Copy, Debug)]
pub(crate) struct Spot<'a> {
    pub(crate) rest: &'a [u8],
    pub(crate) pos: Pos,
}

/// What a text begins with, after its blanks.
#[derive(Debug, Drop)]
pub(crate) enum Next<'a> {
    /// A token, and what follows it.
    Token(Token, Spot<'a>),
    /// Nothing.
    End,
    /// What is no token at this place.
    BadToken(Pos),
    BadNumber(Pos),
    OpenString(Pos),
}

/// What is left after so many bytes.
fn past(spot: Spot<'_>, count: usize) -> Spot<'_>
    requires line { spot.pos.line + length spot.rest.now < 2 ^ 32 }
    requires col { spot.pos.col + length spot.rest.now < 2 ^ 32 }
    requires within { count ≤ length spot.rest.now }
    ensures rest { result.rest.now ≡ drop count spot.entry.rest.now }
    ensures pos { result.pos ≡ position_after spot.entry.pos (take count spot.entry.rest.now) }
    ensures line { result.pos.line + length result.rest.now ≤ spot.entry.pos.line + length spot.entry.rest.now }
    ensures col { result.pos.col + length result.rest.now ≤ spot.entry.pos.col + length spot.entry.rest.now }
{
    let (front, rest) = spot.rest.split_at(count);
    Spot {
        rest,
        pos: spot.pos.after(front),
    }
}

/// The first token of what is left of a text.
pub(crate) fn next_token(alloc: Global, start: Spot<'_>) -> Result<Next<'_>, AllocError>
    requires line { start.pos.line + length start.rest.now < 2 ^ 32 }
    requires col { start.pos.col + length start.rest.now < 2 ^ 32 }
    ensures value { IfOk result (λ next. Scans start.entry next) }
    ensures shorter { IfOk result (λ next. Shorter start.entry next) }
{
    let mut spot = start;
    while !spot.rest.is_empty() {
        match first_piece(alloc, spot.pos, spot.rest)? {
            Piece::Blank(count) => spot = past(spot, count),
            Piece::Found(token, count) => {
                return Ok(Next::Token(token, past(spot, count)));
            }
            Piece::BadToken => return Ok(Next::BadToken(spot.pos)),
            Piece::BadNumber => return Ok(Next::BadNumber(spot.pos)),
            Piece::OpenString => return Ok(Next::OpenString(spot.pos)),
        }
    }
    Ok(Next::End)
}
