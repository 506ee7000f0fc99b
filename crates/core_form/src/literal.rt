ghost use Rattle.std.specs.Prelude.{List, ℕ, OnOk, ◌≡◌, ◌++◌};
ghost use Rattle.core_form.specs.declared.piece.Piece.TheVariants.{Literal, Tail, More};
ghost use Rattle.core_form.specs.Pieces.{PieceText, Writes, plain_text};

use crate::Core;
use crate::piece::Piece;
use scheme_base::{Lit, write_boolean, write_character, write_integer, write_string};
use std::alloc::AllocError;

/// Writes how a literal begins, and leaves its parts.
pub(crate) fn write_literal<'a>(
    core: &'a Core,
    lit: u32,
    stack: &mut Vec<Piece<'a>>,
    text: &mut Vec<u8>,
) -> Result<(), AllocError>
    requires { (t : List ℕ) × PieceText core.now (Literal lit) t }
    ensures { OnOk result (Writes core.now (Literal lit) stack.old.items stack.new.items text.old.items text.new.items) }
{
    match &core.lits.as_slice()[lit as usize] {
        Lit::Pair(car, cdr) => {
            text.push(b'(')?;
            stack.extend_from_slice(&[Piece::Tail(*cdr), Piece::Literal(*car)])?;
        }
        Lit::Vector(items) => {
            text.extend_from_slice(b"#(")?;
            match items.as_slice().split_first() {
                None => text.push(b')')?,
                Some((first, others)) => {
                    stack.extend_from_slice(&[Piece::More(others), Piece::Literal(*first)])?
                }
            }
        }
        plain => write_plain(plain, text)?,
    }
    Ok(())
}

/// Writes a literal that has no parts, and nothing of one that has some.
fn write_plain(lit: &Lit, text: &mut Vec<u8>) -> Result<(), AllocError>
    ensures { OnOk result (text.new.items ≡ text.old.items ++ plain_text lit.now) }
{
    match lit {
        Lit::Integer(value) => write_integer(*value, text)?,
        Lit::Boolean(value) => write_boolean(*value, text)?,
        Lit::Char(byte) => write_character(*byte, text)?,
        Lit::Nil => text.extend_from_slice(b"()")?,
        Lit::Unspecified => text.extend_from_slice(b"#<unspecified>")?,
        Lit::Undefined => text.extend_from_slice(b"#<undefined>")?,
        Lit::Symbol(name) => text.extend_from_slice(name.as_slice())?,
        Lit::Text(bytes) => write_string(bytes.as_slice(), text)?,
        Lit::Pair(_, _) | Lit::Vector(_) => {}
    }
    Ok(())
}

/// Writes what follows an item of a literal list: the next item, the end, or a dot and a last datum.
pub(crate) fn write_tail<'a>(
    core: &'a Core,
    lit: u32,
    stack: &mut Vec<Piece<'a>>,
    text: &mut Vec<u8>,
) -> Result<(), AllocError>
    requires { (t : List ℕ) × PieceText core.now (Tail lit) t }
    ensures { OnOk result (Writes core.now (Tail lit) stack.old.items stack.new.items text.old.items text.new.items) }
{
    match &core.lits.as_slice()[lit as usize] {
        Lit::Nil => text.push(b')')?,
        Lit::Pair(car, cdr) => {
            text.push(b' ')?;
            stack.extend_from_slice(&[Piece::Tail(*cdr), Piece::Literal(*car)])?;
        }
        _ => {
            text.extend_from_slice(b" . ")?;
            stack.extend_from_slice(&[Piece::Close, Piece::Literal(lit)])?;
        }
    }
    Ok(())
}

/// Writes a space before the next item of a literal vector, or its end.
pub(crate) fn write_more<'a>(
    core: &'a Core,
    lits: &'a [u32],
    stack: &mut Vec<Piece<'a>>,
    text: &mut Vec<u8>,
) -> Result<(), AllocError>
    ensures { OnOk result (Writes core.now (More lits.entry) stack.old.items stack.new.items text.old.items text.new.items) }
{
    match lits.split_first() {
        None => text.push(b')')?,
        Some((first, others)) => {
            text.push(b' ')?;
            stack.extend_from_slice(&[Piece::More(others), Piece::Literal(*first)])?;
        }
    }
    Ok(())
}
