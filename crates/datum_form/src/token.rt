ghost use Rattle.std.specs.Prelude.{◌≡◌};
ghost use Rattle.datum_form.specs.Data.{mark_name};
ghost use Rattle.datum_form.specs.Stands.{kind_of};
ghost use Rattle.datum_form.specs.Syntax.{place_of};

use crate::datums::Kind;
use scheme_base::{Bytes, Pos};

/// `'`, `` ` ``, `,` and `,@` of ⟨abbrev prefix⟩, R4RS 7.1.2.
#[derive(Clone, Copy, Debug)]
pub enum Mark {
    Quote,
    Quasiquote,
    Unquote,
    Splice,
}

impl Mark {
    /// The name that a mark stands for, R4RS 4.1.2 and 4.2.6.
    pub fn name(self) -> &'static [u8]
        ensures { result.now ≡ mark_name self }
    {
        match self {
            Mark::Quote => b"quote".as_slice(),
            Mark::Quasiquote => b"quasiquote".as_slice(),
            Mark::Unquote => b"unquote".as_slice(),
            Mark::Splice => b"unquote-splicing".as_slice(),
        }
    }
}

/// A datum without parts: ⟨number⟩, ⟨boolean⟩, ⟨character⟩, ⟨string⟩ or ⟨symbol⟩, R4RS 7.1.2.
#[derive(Debug, Drop)]
pub enum Atom {
    /// An integer from -2^61 to 2^61 - 1, where it was read from a text.
    Integer(i64),
    Boolean(bool),
    /// A character, by its byte.
    Character(u8),
    /// A string, by its bytes.
    String(Bytes),
    /// A symbol, by its name in small letters.
    Symbol(Bytes),
}

impl Atom {
    /// The kind of this datum's node.
    pub fn kind(self) -> Kind
        ensures { result ≡ kind_of self }
    {
        match self {
            Atom::Integer(value) => Kind::Integer(value),
            Atom::Boolean(value) => Kind::Boolean(value),
            Atom::Character(byte) => Kind::Char(byte),
            Atom::String(bytes) => Kind::Text(bytes),
            Atom::Symbol(bytes) => Kind::Name(bytes),
        }
    }
}

/// A token at its place: `(`, `#(`, `)`, `.`, a mark, or what is a datum by itself.
#[derive(Debug, Drop)]
pub enum Token {
    Open(Pos),
    OpenVector(Pos),
    Close(Pos),
    Dot(Pos),
    Marking(Pos, Mark),
    Atomic(Pos, Atom),
}

impl Token {
    /// The place of the token's first byte.
    pub fn pos(&self) -> Pos
        ensures { result ≡ place_of self.now }
    {
        match self {
            Token::Open(pos) => *pos,
            Token::OpenVector(pos) => *pos,
            Token::Close(pos) => *pos,
            Token::Dot(pos) => *pos,
            Token::Marking(pos, _) => *pos,
            Token::Atomic(pos, _) => *pos,
        }
    }
}
