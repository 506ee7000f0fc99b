//! The types of programs in flat form.

use scheme_base::{List, Lits, Mark, Op, Pos, Stated};
use sqlite_items::Items;

/// Where a value is found or put.
#[derive(Clone, Copy, Debug, PartialEq, Eq)]
pub enum At {
    /// A slot of the frame. Slot 0 has the closure, so variables have slots from 1 on.
    Slot(u32),
    /// A cell for good. The cells of the top-level variables are the first ones.
    Cell(u32),
    /// A value that the frame's closure keeps, by its number among those of its procedure, from 0 on.
    Kept(u32),
    /// No place: the value is known. What is put here is put nowhere.
    Stated(Stated),
}

/// A place, and whether it has a bare integer in place of a word that tells its type.
#[derive(Clone, Copy, Debug, PartialEq, Eq)]
pub struct Place {
    pub at: At,
    pub raw: bool,
}

/// Places, in the order in which their values are given or taken.
pub type Places = List<Place>;

/// What a call does with the frame of its caller.
#[derive(Clone, Copy, Debug, PartialEq, Eq)]
pub enum Mode {
    /// The frame stays on the stack, and the callee's comes after it.
    Stack,
    /// A tail call: the frame goes, and the callee's takes its place.
    StackTail,
    /// The frame is moved into a continuation record.
    Record,
    /// A tail call of a procedure that captures, whose caller's frame is in a record.
    RecordTail,
    /// A jump to a part of the same procedure, in the same frame.
    Enter { part: u32 },
}

/// A closure that a step makes: its procedure, the places of the values that it keeps, in their order, and
/// where it is made. The one closure of a procedure that keeps nothing and is not told apart is made by no
/// step and has no mark.
#[derive(Debug, Drop)]
pub struct Made {
    pub proc: u32,
    pub kept: Places,
    pub mark: Option<Mark>,
}

/// Closures, in the order of their step.
pub type Mades = List<Made>;

/// What a step does.
#[derive(Debug, Drop)]
#[cycle(flat)]
pub enum FlatAct {
    /// A literal (R4RS 4.1.2), by its number.
    Const {
        lit: u32,
    },
    /// A value that is there.
    Copy {
        from: Place,
    },
    /// A primitive operation other than `%apply` and `%call/cc`; it has a mark where it makes an object.
    Prim {
        op: Op,
        operands: Places,
        mark: Option<Mark>,
    },
    /// A procedure call (R4RS 4.1.3).
    Call {
        operator: Place,
        operands: Places,
        mode: Mode,
    },
    /// `%apply`: a call with the items of a list (R4RS 6.9).
    Apply {
        operator: Place,
        list: Place,
        mode: Mode,
    },
    /// `%call/cc`: a call with the continuation of the step (R4RS 6.9).
    CallCC {
        operator: Place,
        mode: Mode,
    },
    /// A conditional (R4RS 4.1.5). An arm that is never reached is not there; `tail` tells that the step is
    /// in tail position.
    If {
        test: Place,
        tail: bool,
        yes: Option<FlatBlock>,
        no: Option<FlatBlock>,
    },
    /// A closure (R4RS 4.1.4).
    Closure {
        made: Made,
    },
    /// Closures that know each other, one for each place of the step (R4RS 4.2.2).
    Fix {
        made: Mades,
    },
    /// The box of an assigned variable.
    MakeBox {
        from: Place,
        mark: Mark,
    },
    /// The box of a variable that has no value yet.
    MakeHole {
        mark: Mark,
    },
    /// The value of an assigned variable; `checked` tells that it may have none yet.
    Unbox {
        boxed: Place,
        checked: bool,
    },
    /// An assignment (R4RS 4.1.6).
    SetBox {
        boxed: Place,
        from: Place,
    },
    /// The value of a top-level variable; `checked` tells that it may be undefined yet.
    TopGet {
        top: u32,
        checked: bool,
    },
    /// An assignment of a top-level variable; `checked` tells that it may be undefined yet.
    TopSet {
        top: u32,
        from: Place,
        checked: bool,
    },
    /// A definition (R4RS 5.2).
    TopDefine {
        top: u32,
        from: Place,
    },
}

/// One step: the places that it writes, one but for a `Fix`, and the position that its errors name.
/// `reached` tells that a run may come here, `checked` that its checks of types and counts stand.
#[derive(Debug, Drop)]
#[cycle(flat)]
pub struct FlatStep {
    pub to: Places,
    pub act: FlatAct,
    pub pos: Pos,
    pub reached: bool,
    pub checked: bool,
}

/// Steps in their order, and the place of the block's value. The program's own block has none.
#[derive(Debug, Drop)]
#[cycle(flat)]
pub struct FlatBlock {
    pub steps: Items<FlatStep>,
    pub value: Option<Place>,
}

/// The steps of a block.
pub type FlatSteps = Items<FlatStep>;

/// A body that a procedure may be entered or continued in: where its operands go, and those past its
/// parameters, as a list that is made as `rest_mark` says.
#[derive(Debug, Drop)]
pub struct FlatPart {
    pub params: Places,
    pub rest: Option<Place>,
    pub rest_mark: Mark,
    pub body: FlatBlock,
}

/// The parts of a procedure. It is entered in the first one.
pub type FlatParts = List<FlatPart>;

/// A procedure. Each of its frames has `slots` slots, that of the closure among them. It takes from `least`
/// to `greatest` operands, and any number from `least` on where there is no greatest. One that is never
/// reached has no parts.
#[derive(Debug, Drop)]
pub struct FlatProc {
    pub reached: bool,
    pub capturing: bool,
    pub slots: u32,
    pub least: u32,
    pub greatest: Option<u32>,
    pub parts: FlatParts,
}

/// The procedures of a program, by their numbers.
pub type FlatProcs = List<FlatProc>;

/// How many cells there are: of top-level variables, and of variables of the program's own block that have
/// one place for good.
#[derive(Clone, Copy, Debug, PartialEq, Eq)]
pub struct Cells {
    pub tops: u32,
    pub globals: u32,
}

/// A program in flat form: procedure 0 is the program itself.
#[derive(Debug, Drop)]
pub struct Flat {
    pub procs: FlatProcs,
    pub cells: Cells,
    pub lits: Lits,
}
