ghost use Rattle.std.specs.Prelude.{◌≡◌};
ghost use Rattle.scheme_base.specs.Limit.{name_of};

/// What a limit counts.
#[derive(Clone, Copy, Debug, PartialEq, Eq)]
pub enum LimitKind {
    /// Bytes of a source text.
    Source,
    /// Lists, vectors and marks round a datum.
    Nesting,
    /// Expressions round an expression of the core.
    Depth,
    /// Rows of the type table.
    Rows,
    /// Atoms of the type table.
    Atoms,
    /// Words of the type table.
    Table,
    /// Rules of the flow analysis.
    Rules,
    /// Bytes of an image's text and data.
    Image,
    /// Bytes of an image file that is to be emulated.
    File,
}

impl LimitKind {
    /// The limit's name as the command prints it, in lower case.
    pub fn name(self) -> &'static str
        ensures { result.now ≡ name_of self }
    {
        match self {
            LimitKind::Source => "source",
            LimitKind::Nesting => "nesting",
            LimitKind::Depth => "depth",
            LimitKind::Rows => "rows",
            LimitKind::Atoms => "atoms",
            LimitKind::Table => "table",
            LimitKind::Rules => "rules",
            LimitKind::Image => "image",
            LimitKind::File => "file",
        }
    }
}

/// A limit that something passes, with the count that passes it.
#[derive(Clone, Copy, Debug, PartialEq, Eq)]
pub struct Limit {
    pub which: LimitKind,
    pub count: u64,
}
