/// Where an object is made: with the activation that makes it, and gone with it, or for good.
#[derive(Clone, Copy, Debug, PartialEq, Eq)]
pub enum Mark {
    Local,
    Global,
}

/// A value that is known without a run, so that no slot need hold it.
#[derive(Clone, Copy, Debug, PartialEq, Eq)]
pub enum Stated {
    False,
    True,
    Nil,
    Unspecified,
    Eof,
    /// The one closure of the procedure of this number.
    Closure(u32),
}
