use scheme_base::Pos;

/// Why data are no program.
#[derive(Debug, Drop)]
pub enum FormErr {
    /// The form at this place breaks the rule of this number.
    Broken { pos: Pos, rule: u32 },
    NoMemory,
}
