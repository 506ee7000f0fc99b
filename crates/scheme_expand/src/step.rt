//! What is still to be done to expand a form.

use crate::words::Known;
use draft_form::Variable;
use quasi_expand::Part;
use scheme_base::Pos;

/// A step. Steps that read data come to one expression each, which is put on the expander's stack; the
/// others take what they are made of from there. `level` is the number of variables that are bound round
/// what is meant.
#[derive(Clone, Copy, Debug)]
pub(crate) enum Step<'a> {
    /// An expression.
    Expr(u32),
    /// Several, one after another.
    Exprs(&'a [u32]),
    /// What a definition, which is a good one, binds its name to.
    Defined(u32),
    Unspecified(Pos),
    Reference(Pos, Variable),
    /// Leaves the variables from a level on.
    Leave(u32),
    /// As many expressions in order.
    Sequence(Pos, usize),
    /// An operator and as many operands.
    Call(Pos, usize),
    /// As many operands of a call that is known.
    Known(Pos, Known, usize),
    /// A test, and what is then and else.
    If(Pos),
    /// The same, from the last to the first.
    Branch(Pos),
    /// The operands of an `and` that stand before the expression which is made.
    Conjuncts(Pos, &'a [u32]),
    /// What stands after an operand of an `and`, and the operand.
    Both(Pos),
    /// The same of an `or`.
    Alternatives(Pos, &'a [u32], u32),
    Either(Pos, u32),
    /// The clauses of a `cond` that stand before the expression which is made.
    Clauses(Pos, &'a [u32], u32),
    /// What stands after a clause with `=>`, the call of its receiver, and its test.
    Receive(Pos, u32),
    /// The clauses of a `case` whose key is the fresh variable of a level.
    Cases(Pos, &'a [u32], u32),
    /// Whether that key is one of these data.
    IsAmong(Pos, &'a [u32], u32),
    Assign(Pos, Variable),
    Define(Pos, Variable),
    /// A body; the variables from a level on are the parameters, the last a rest parameter if there is one.
    Lambda(Pos, u32, bool),
    /// A body and the value of its one variable.
    Bind(Pos, Variable),
    /// A body, and the values of the variables from a level on, which are all lambda expressions or not.
    Letrec(Pos, u32, bool),
    /// A body, and the procedure that the fresh variable of a level is in it.
    Loop(Pos, u32),
    /// A step of a template.
    Template(Pos, Part),
}
