//! Broken forms.

ghost use Rattle.std.specs.Prelude.{◌≡◌};
ghost use Rattle.scheme_expand.specs.Faults.{is_before};
ghost use Rattle.scheme_expand.specs.Noted.{fault_of};

use scheme_base::Pos;

/// A broken form: its place, and the number of the rule that it breaks.
#[derive(Clone, Copy, Debug)]
pub(crate) struct Fault {
    pub(crate) pos: Pos,
    pub(crate) rule: Rule,
}

/// What forms have to be.
#[derive(Clone, Copy, Debug, PartialEq, Eq)]
pub(crate) enum Rule {
    /// A keyword is no variable.
    Keyword = 1,
    /// `quote` and `quasiquote` have one operand.
    Quote = 2,
    /// Formals are a name, or a list of names, perhaps with a name as its tail.
    Formals = 3,
    /// A body has an expression, and no definition after one.
    Body = 4,
    /// `if` has two or three operands; `set!` has a name and an expression.
    IfOrSet = 5,
    /// `cond` has clauses, and each is one.
    Cond = 6,
    /// `case` has a key and clauses, and each is one.
    Case = 7,
    /// Bindings are lists of a name and an expression.
    Bindings = 8,
    /// `do` has bindings and a test clause.
    Do = 9,
    /// `begin` has an expression, and a form has no tail.
    Begin = 10,
    /// A definition has one of its two forms, and stands where one may.
    Define = 11,
    /// Names that are bound together differ.
    Twice = 12,
    /// An expression is not the empty list.
    Empty = 13,
    /// `unquote` and `unquote-splicing` stand in a quasiquote.
    Unquote = 14,
    /// A vector is quoted.
    Vector = 15,
    /// `delay` is not used.
    Delay = 16,
}

impl Fault {
    /// Whether this fault is the one to be named: it stands first, or at one place its rule does.
    pub(crate) fn is_before(self, other: Fault) -> bool
        ensures { result ≡ is_before (fault_of self) (fault_of other) }
    {
        let (mine, others) = (self.pos, other.pos);
        if mine.line != others.line {
            return mine.line < others.line;
        }
        if mine.col != others.col {
            return mine.col < others.col;
        }
        (self.rule as u32) < (other.rule as u32)
    }
}
