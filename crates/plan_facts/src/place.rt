//! The steps of a program as a plan asks of them.

use flow_constraints::Counts;
use scheme_base::{Ids, List, Op};

/// What a step does.
#[derive(Debug, Drop)]
pub enum Action {
    /// A primitive operation.
    Prim { op: Op, operands: Ids },
    /// A procedure call.
    Call { operator: u32, operands: Ids },
    /// A call with the items of a list.
    Apply { operator: u32, list: u32 },
    /// A call with the continuation of the step.
    CallCC { operator: u32 },
    /// Closures of these procedures.
    Make { procs: Ids },
    /// An assignment of what is in a box.
    SetBox { boxed: u32, from: u32 },
    /// A new box, with what these variables are bound to, if there is one.
    NewBox { reads: Ids },
    /// Anything else, which reads these variables.
    Other { reads: Ids },
}

/// A step and where it stands: in a block of a procedure, as the step and the site of these numbers, in tail position
/// or not. `var` is the variable that it binds, the first one of a `Fix`.
#[derive(Debug, Drop)]
pub struct Place {
    pub proc: u32,
    pub block: u32,
    pub step: u32,
    pub site: u32,
    pub tail: bool,
    pub var: u32,
    pub action: Action,
}

/// Steps, in their order.
pub type PlaceList = List<Place>;

/// The steps of a program, and how many steps, sites and blocks it has.
#[derive(Debug, Drop)]
pub struct Places {
    pub steps: PlaceList,
    pub totals: Counts,
}
