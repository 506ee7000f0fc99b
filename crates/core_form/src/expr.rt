ghost use Rattle.std.specs.Prelude.{◌≡◌, ◌++◌, List, ℕ, OnOk};
ghost use Rattle.core_form.specs.declared.piece.Piece.TheVariants.{Expr, List as Listed, Rest};
ghost use Rattle.core_form.specs.Pieces.{PieceText, Writes};

use crate::piece::Piece;
use crate::vars::{write_rest, write_var, write_vars};
use crate::{Core, What};
use std::alloc::AllocError;

/// Writes how an expression begins, and leaves its parts.
pub(crate) fn write_expr<'a>(
    core: &'a Core,
    expr: u32,
    stack: &mut Vec<Piece<'a>>,
    text: &mut Vec<u8>,
) -> Result<(), AllocError>
    requires { (t : List ℕ) × PieceText core.now (Expr expr) t }
    ensures { OnOk result (Writes core.now (Expr expr) stack.old.items stack.new.items text.old.items text.new.items) }
{
    match &core.exprs.as_slice()[expr as usize].what {
        What::Const(lit) => {
            text.extend_from_slice(b"(const ")?;
            stack.extend_from_slice(&[Piece::Close, Piece::Literal(*lit)])?;
        }
        What::Ref(var) => {
            text.extend_from_slice(b"(ref ")?;
            write_var(var, text)?;
            text.push(b')')?;
        }
        What::Lambda { params, rest, body } => {
            text.extend_from_slice(b"(lambda ")?;
            write_vars(params.as_slice(), text)?;
            text.push(b' ')?;
            write_rest(rest, text)?;
            stack.extend_from_slice(&[Piece::Close, Piece::Next(*body)])?;
        }
        What::If { test, yes, no } => {
            text.extend_from_slice(b"(if")?;
            stack.extend_from_slice(&[
                Piece::Close,
                Piece::Next(*no),
                Piece::Next(*yes),
                Piece::Next(*test),
            ])?;
        }
        What::Set { var, value } => {
            text.extend_from_slice(b"(set ")?;
            write_var(var, text)?;
            stack.extend_from_slice(&[Piece::Close, Piece::Next(*value)])?;
        }
        What::Call { operator, operands } => {
            text.extend_from_slice(b"(call")?;
            stack.extend_from_slice(&[
                Piece::Close,
                Piece::List(operands.as_slice()),
                Piece::Next(*operator),
            ])?;
        }
        What::Prim { op, operands } => {
            text.extend_from_slice(b"(prim ")?;
            text.extend_from_slice(op.name().as_bytes())?;
            stack.extend_from_slice(&[Piece::Close, Piece::List(operands.as_slice())])?;
        }
        What::Seq { items } => {
            text.extend_from_slice(b"(seq")?;
            stack.extend_from_slice(&[Piece::Close, Piece::List(items.as_slice())])?;
        }
        What::Fix {
            vars,
            lambdas,
            body,
        } => {
            text.extend_from_slice(b"(fix ")?;
            write_vars(vars.as_slice(), text)?;
            stack.extend_from_slice(&[
                Piece::Close,
                Piece::Next(*body),
                Piece::List(lambdas.as_slice()),
            ])?;
        }
        What::Define { var, value } => {
            text.extend_from_slice(b"(define ")?;
            write_var(var, text)?;
            stack.extend_from_slice(&[Piece::Close, Piece::Next(*value)])?;
        }
    }
    Ok(())
}

/// Writes how expressions in parentheses begin, after a space.
pub(crate) fn write_list<'a>(
    core: &'a Core,
    exprs: &'a [u32],
    stack: &mut Vec<Piece<'a>>,
    text: &mut Vec<u8>,
) -> Result<(), AllocError>
    ensures { OnOk result (Writes core.now (Listed exprs.entry) stack.old.items stack.new.items text.old.items text.new.items) }
{
    match exprs.split_first() {
        None => text.extend_from_slice(b" ()")?,
        Some((first, others)) => {
            text.extend_from_slice(b" (")?;
            stack.extend_from_slice(&[Piece::Rest(others), Piece::Expr(*first)])?;
        }
    }
    Ok(())
}

/// Writes a space before the next expression of a list, or the list's end.
pub(crate) fn write_others<'a>(
    core: &'a Core,
    exprs: &'a [u32],
    stack: &mut Vec<Piece<'a>>,
    text: &mut Vec<u8>,
) -> Result<(), AllocError>
    ensures { OnOk result (Writes core.now (Rest exprs.entry) stack.old.items stack.new.items text.old.items text.new.items) }
{
    match exprs.split_first() {
        None => text.push(b')')?,
        Some((first, others)) => {
            text.push(b' ')?;
            stack.extend_from_slice(&[Piece::Rest(others), Piece::Expr(*first)])?;
        }
    }
    Ok(())
}
