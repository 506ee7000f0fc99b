use crate::token::Token;

/// What a run of bytes is.
#[derive(Debug, Drop)]
pub enum Word {
    /// A token at the run's place.
    IsToken(Token),
    /// A number that is not from -2^61 to 2^61 - 1.
    OutOfRange,
    NoWord,
}

/// A text's first piece.
#[derive(Debug, Drop)]
pub enum Piece {
    /// A whitespace byte or a comment: how many bytes.
    Blank(usize),
    /// A token, and how many bytes it has.
    Found(Token, usize),
    BadToken,
    /// A number that is not from -2^61 to 2^61 - 1.
    BadNumber,
    /// A string that is not closed.
    OpenString,
}
