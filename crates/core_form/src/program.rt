use scheme_base::{Bytes, Ids, List, Lits, Op, Pos};

/// A variable of a program, by its name. `lib` tells the library's top-level variables from the program's.
#[derive(Debug, Drop)]
pub struct Var {
    pub name: Bytes,
    pub lib: bool,
}

/// A variable of a renamed program: a local one by its number, a top-level one by its name.
#[derive(Debug, Drop)]
pub enum VarRef {
    Local(u32),
    Top(Var),
}

/// What an expression is, over variables V. Parts are numbers of expressions, and a constant is the number
/// of a literal, both counted from 0.
#[derive(Debug, Drop)]
pub enum What<V> {
    /// A literal (R4RS 4.1.2).
    Const(u32),
    /// A variable (R4RS 4.1.1).
    Ref(V),
    /// A procedure (R4RS 4.1.4). `rest` is bound to the list of the operands past the parameters.
    Lambda {
        params: List<V>,
        rest: Option<V>,
        body: u32,
    },
    /// A conditional with both arms (R4RS 4.1.5).
    If {
        test: u32,
        yes: u32,
        no: u32,
    },
    /// An assignment (R4RS 4.1.6).
    Set {
        var: V,
        value: u32,
    },
    /// A procedure call (R4RS 4.1.3).
    Call {
        operator: u32,
        operands: Ids,
    },
    /// A primitive operation.
    Prim {
        op: Op,
        operands: Ids,
    },
    /// A sequence (R4RS 4.2.3).
    Seq {
        items: Ids,
    },
    /// Procedures that know each other, as a `letrec` of lambda expressions (R4RS 4.2.2).
    Fix {
        vars: List<V>,
        lambdas: Ids,
        body: u32,
    },
    /// A definition (R4RS 5.2), which is a form of the program.
    Define {
        var: V,
        value: u32,
    },
}

/// An expression, with the position that its errors name.
#[derive(Debug, Drop)]
pub struct Node<V> {
    pub what: What<V>,
    pub pos: Pos,
}

/// A program: its expressions, the numbers of its forms in their order, and its literals.
#[derive(Debug, Drop)]
pub struct Program<V> {
    pub exprs: List<Node<V>>,
    pub forms: Ids,
    pub lits: Lits,
}

/// A list of variables.
pub type Vars = List<Var>;

/// An expression of a core.
pub type Expr = Node<Var>;

/// The expressions of a core.
pub type Exprs = List<Expr>;

/// A program in core forms, whose variables have names.
pub type Core = Program<Var>;

/// An expression of a renamed core.
pub type RenExpr = Node<VarRef>;

/// The expressions of a renamed core.
pub type RenExprs = List<RenExpr>;

/// A core in which each local variable is a number.
pub type Renamed = Program<VarRef>;
