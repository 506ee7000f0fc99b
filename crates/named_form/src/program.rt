use scheme_base::{Ids, List, Lits, Op, Pos};
use sqlite_items::Items;

/// What a step does. Numbers name local variables, top-level variables, procedures and literals, each
/// counted from 0.
#[derive(Debug, Drop)]
#[cycle(named)]
pub enum Act {
    /// A literal (R4RS 4.1.2).
    Const { lit: u32 },
    /// The binding of a parameter of a lambda expression that is called directly.
    Copy { from: u32 },
    /// A primitive operation other than `%apply` and `%call/cc`.
    Prim { op: Op, operands: Ids },
    /// A procedure call (R4RS 4.1.3).
    Call { operator: u32, operands: Ids },
    /// `%apply`: a call with the items of a list (R4RS 6.9).
    Apply { operator: u32, list: u32 },
    /// `%call/cc`: a call with the continuation of the step (R4RS 6.9).
    CallCC { operator: u32 },
    /// A conditional (R4RS 4.1.5).
    If { test: u32, yes: Block, no: Block },
    /// A closure of a procedure (R4RS 4.1.4).
    Closure { proc: u32 },
    /// Closures that know each other, one for each variable of the step (R4RS 4.2.2).
    Fix { procs: Ids },
    /// The box of an assigned variable, made right after its binding.
    MakeBox { from: u32 },
    /// The box of a variable that has no value yet.
    MakeHole,
    /// The value of an assigned variable; `checked` tells that it may have none yet.
    Unbox { boxed: u32, checked: bool },
    /// An assignment (R4RS 4.1.6).
    SetBox { boxed: u32, from: u32 },
    /// The value of a top-level variable; `checked` tells that it may be undefined yet.
    TopGet { top: u32, checked: bool },
    /// An assignment of a top-level variable; `checked` tells that it may be undefined yet.
    TopSet { top: u32, from: u32, checked: bool },
    /// A definition (R4RS 5.2), which is a form of the program.
    TopDefine { top: u32, from: u32 },
}

/// One step: the new variables that it binds, one but for a `Fix`, and the position that its errors name.
#[derive(Debug, Drop)]
#[cycle(named)]
pub struct Step {
    pub vars: Ids,
    pub act: Act,
    pub pos: Pos,
}

/// Steps in their order, and the variable whose value is the block's. The program's own block has none.
#[derive(Debug, Drop)]
#[cycle(named)]
pub struct Block {
    pub steps: Items<Step>,
    pub value: Option<u32>,
}

/// The steps of a block.
pub type Steps = Items<Step>;

/// A procedure. `rest` is bound to the list of the operands past the parameters.
#[derive(Debug, Drop)]
pub struct Proc {
    pub params: Ids,
    pub rest: Option<u32>,
    pub body: Block,
    pub pos: Pos,
}

/// The procedures of a program, by their numbers.
pub type Procs = List<Proc>;

/// A program in named form: procedure 0 is the program itself, `tops` is the number of its top-level
/// variables.
#[derive(Debug, Drop)]
pub struct Named {
    pub procs: Procs,
    pub tops: u32,
    pub lits: Lits,
}
