ghost use Rattle.std.specs.Prelude.{◌≡◌, ◌++◌, List, ℕ, OnOk, IfOk};
ghost use Rattle.core_form.specs.Text.{IsCoreText, HasText};
ghost use Rattle.core_form.specs.Pieces.{ExprText, PieceText, Writes};

use crate::Core;
use crate::expr::{write_expr, write_list, write_others};
use crate::literal::{write_literal, write_more, write_tail};
use crate::piece::Piece;
use std::alloc::{AllocError, Global};

/// The text of a core: a form a line, without positions. An expression is in parentheses its variant's
/// name in small letters and its parts, with single spaces; a literal is written as data are.
pub fn core_text(alloc: Global, core: &Core) -> Result<Vec<u8>, AllocError>
    requires { HasText core.now }
    ensures { IfOk result (λ text. IsCoreText core.now text.items) }
{
    let mut text = Vec::new(alloc);
    let mut forms = core.forms.as_slice();
    while let Some((form, others)) = forms.split_first() {
        write_form(alloc, core, *form, &mut text)?;
        text.push(b'\n')?;
        forms = others;
    }
    Ok(text)
}

/// Writes the text of one form, its pieces waiting on a stack.
fn write_form(alloc: Global, core: &Core, form: u32, text: &mut Vec<u8>) -> Result<(), AllocError>
    requires { (t : List ℕ) × ExprText core.now form t }
    ensures { OnOk result ((t : List ℕ) → ExprText core.now form t → text.new.items ≡ text.old.items ++ t) }
{
    let mut stack = Vec::new(alloc);
    stack.push(Piece::Expr(form))?;
    while let Some(piece) = stack.pop() {
        write_piece(core, piece, &mut stack, text)?;
    }
    Ok(())
}

/// Writes how a piece begins, and leaves what follows.
fn write_piece<'a>(
    core: &'a Core,
    piece: Piece<'a>,
    stack: &mut Vec<Piece<'a>>,
    text: &mut Vec<u8>,
) -> Result<(), AllocError>
    requires { (t : List ℕ) × PieceText core.now piece t }
    ensures { OnOk result (Writes core.now piece.entry stack.old.items stack.new.items text.old.items text.new.items) }
{
    match piece {
        Piece::Expr(expr) => write_expr(core, expr, stack, text),
        Piece::Next(expr) => {
            text.push(b' ')?;
            stack.push(Piece::Expr(expr))?;
            Ok(())
        }
        Piece::List(exprs) => write_list(core, exprs, stack, text),
        Piece::Rest(exprs) => write_others(core, exprs, stack, text),
        Piece::Literal(lit) => write_literal(core, lit, stack, text),
        Piece::Tail(lit) => write_tail(core, lit, stack, text),
        Piece::More(lits) => write_more(core, lits, stack, text),
        Piece::Close => {
            text.push(b')')?;
            Ok(())
        }
    }
}
