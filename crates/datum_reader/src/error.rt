use scheme_base::Pos;

/// Why a text is not read: its first fault, and the place.
#[derive(Debug, Drop)]
pub enum ReadErr {
    /// The text ends inside a list, a vector or a string, or after a mark: the innermost one that is
    /// still open.
    Unclosed { pos: Pos },
    /// A `)`, a `.` or a datum that cannot stand here.
    Stray { pos: Pos },
    /// What is no token, by its first byte.
    BadToken { pos: Pos },
    /// A number that is not from -2^61 to 2^61 - 1, by its first byte.
    NumberRange { pos: Pos },
    /// The first opener of a list or vector, or mark, that is the 1001st of those round it.
    TooDeep { pos: Pos },
    /// More than 2^20 bytes, whatever they are: how many.
    TooLong { len: u64 },
    NoMemory,
}
