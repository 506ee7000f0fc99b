use scheme_base::List;

/// What a rule asks of the rows.
#[derive(Clone, Copy, Debug, PartialEq, Eq)]
pub enum Test {
    /// The row has the atom.
    Has { row: u32, atom: u32 },
    /// The row has an atom other than this one.
    Other { row: u32, atom: u32 },
}

/// What a rule gives: one atom, or each atom of a row.
#[derive(Clone, Copy, Debug, PartialEq, Eq)]
pub enum Give {
    Atom(u32),
    Row(u32),
}

/// Where both tests hold, the row `to` has what the rule gives. A test that is not there holds.
#[derive(Clone, Copy, Debug, PartialEq, Eq)]
pub struct Rule {
    pub first: Option<Test>,
    pub second: Option<Test>,
    pub give: Give,
    pub to: u32,
}

/// A list of rules.
pub type Rules = List<Rule>;
