use crate::{Bytes, Ids, List};

/// A constant or a part of one. Parts are named by their numbers in the list of literals, counted from 0.
/// `specs/Literals` says which object each is, and which lists are valid.
#[derive(Debug, Drop)]
pub enum Lit {
    /// An integer from -2^61 to 2^61 - 1.
    Integer(i64),
    Boolean(bool),
    /// A character, by its byte.
    Char(u8),
    Nil,
    /// The value of what has no other value.
    Unspecified,
    /// What a variable of a `letrec` holds before it has a value.
    Undefined,
    /// A symbol, by its name's bytes.
    Symbol(Bytes),
    /// A string, by its bytes.
    Text(Bytes),
    /// A pair of the literals of these numbers.
    Pair(u32, u32),
    Vector(Ids),
}

/// The literals of a program.
pub type Lits = List<Lit>;
