use scheme_base::{Ids, List, Mark, Stated, Uses};

/// A list of sites, which rises: what makes objects in a program, numbered as `specs/Code` says.
pub type Sites = Ids;

/// Where the objects of each site are made.
pub type Marks = List<Mark>;

/// Procedures that may be captured in a continuation, and the variables of the calls that leave a record
/// of their frame. Both lists rise.
#[derive(Debug, Drop)]
pub struct ProcSet {
    pub procs: Ids,
    pub recording: Ids,
}

/// A variable that needs no slot, since its value is known.
#[derive(Debug, Drop)]
pub struct Fiction {
    pub var: u32,
    pub value: Stated,
}

/// Variables that need no slot.
pub type Fictions = List<Fiction>;

/// Where variables are held: per procedure the variables that its closures keep; the variables that need
/// no slot; those of the program's own block that have a cell for good. `compared` has the procedures
/// whose closures are told apart. Each list rises.
#[derive(Debug, Drop)]
pub struct Slots {
    pub kept: Uses,
    pub fictitious: Fictions,
    pub global: Ids,
    pub compared: Ids,
}

/// How a variable's value is held: not at all, as a bare integer, or as a word that tells its type.
#[derive(Clone, Copy, Debug, PartialEq, Eq)]
pub enum Repr {
    Nothing,
    Raw,
    Tagged,
}

/// Whether a step can be reached, and whether its checks of types and counts stand.
#[derive(Clone, Copy, Debug, PartialEq, Eq)]
pub struct StepUse {
    pub reached: bool,
    pub checked: bool,
}

/// Representations, by variable.
pub type ReprList = List<Repr>;

/// What is reached, by block.
pub type Flags = List<bool>;

/// The use of each step, in the order of the walk.
pub type StepUses = List<StepUse>;

/// How values are held, and what is reached. `specs/Code` says how blocks and steps are numbered.
#[derive(Debug, Drop)]
pub struct Reprs {
    pub vars: ReprList,
    pub blocks: Flags,
    pub steps: StepUses,
}

/// How a program's storage is laid out.
#[derive(Debug, Drop)]
pub struct Plan {
    pub capturing: ProcSet,
    pub slots: Slots,
    pub marks: Marks,
    pub reprs: Reprs,
}
