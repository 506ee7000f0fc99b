ghost use Rattle.std.specs.Prelude.{◌≡◌, ◌++◌, ◌∷◌, [], codes, List as Seq, ℕ, Option, Some, None, OnOk, IfOk};
ghost use Rattle.datum_form.specs.declared.datums.Node.{Node};
ghost use Rattle.datum_form.specs.Data.{Datum, Items};
ghost use Rattle.datum_form.specs.Stands.{Stands, StandAll, Holds};
ghost use Rattle.datum_form.specs.Print.{text_of, items_text, more_text, lines_of};
ghost use Rattle.datum_form.specs.Pending.{Prints, Pending, Left, IsKind};

use crate::datums::{Datums, Kind, Nodes};
use scheme_base::{write_boolean, write_character, write_integer, write_string};
use std::alloc::{AllocError, Global};

/// What is still to be printed.
#[derive(Clone, Copy, Debug)]
pub(crate) enum Part {
    /// A datum, by the number of its node.
    Datum(u32),
    /// A space and a datum.
    Next(u32),
    /// A dot between spaces and a datum.
    Tail(u32),
    /// A closing parenthesis.
    Close,
}

/// The data as a text: with single spaces and without abbreviations, numbers in decimal, the space and the
/// line end as `#\space` and `#\newline`, each datum that stands in no other on a line of its own.
///
/// What is still to be printed stands in a list, so that neither a long list nor a deep one takes stack.
pub fn write_text(alloc: Global, datums: &Datums) -> Result<Vec<u8>, AllocError>
    ensures { IfOk result (λ text. (is : Items) → Holds datums.now is → text.items ≡ lines_of is) }
{
    let mut text = Vec::new(alloc);
    let mut rest = datums.tops.as_slice();
    while let Some((first, others)) = rest.split_first() {
        write_datum(alloc, &datums.nodes, *first, &mut text)?;
        text.push(b'\n')?;
        rest = others;
    }
    Ok(text)
}

/// Prints a datum. Each turn prints at least one byte, so that the turns end no sooner than memory does.
fn write_datum(alloc: Global, nodes: &Nodes, top: u32, text: &mut Vec<u8>) -> Result<(), AllocError>
    ensures { OnOk result ((d : Datum) → Stands nodes.now top d → text.new.items ≡ text.old.items ++ text_of d) }
{
    let mut parts = Vec::new(alloc);
    parts.push(Part::Datum(top))?;
    for _turn in 0..usize::MAX {
        let Some(part) = parts.pop() else {
            return Ok(());
        };
        write_part(nodes, part, text, &mut parts)?;
    }
    Err(AllocError)
}

/// Prints a part up to the first datum in it that has parts of its own.
fn write_part(
    nodes: &Nodes,
    part: Part,
    text: &mut Vec<u8>,
    parts: &mut Vec<Part>,
) -> Result<(), AllocError>
    ensures { OnOk result ((bytes rest : Seq ℕ) → Prints nodes.now part bytes → Pending nodes.now parts.old.items rest → Left nodes.now text.new.items parts.new.items (text.old.items ++ (bytes ++ rest))) }
{
    match part {
        Part::Datum(id) => write_node(nodes, id, text, parts)?,
        Part::Next(id) => {
            text.push(b' ')?;
            write_node(nodes, id, text, parts)?;
        }
        Part::Tail(id) => {
            text.extend_from_slice(b" . ")?;
            write_node(nodes, id, text, parts)?;
        }
        Part::Close => text.push(b')')?,
    }
    Ok(())
}

/// Prints the beginning of a node. A number that names no node prints nothing.
fn write_node(
    nodes: &Nodes,
    id: u32,
    text: &mut Vec<u8>,
    parts: &mut Vec<Part>,
) -> Result<(), AllocError>
    ensures { OnOk result ((d : Datum) (rest : Seq ℕ) → Stands nodes.now id d → Pending nodes.now parts.old.items rest → Left nodes.now text.new.items parts.new.items (text.old.items ++ (text_of d ++ rest))) }
{
    let Some(node) = nodes.get(id as usize) else {
        return Ok(());
    };
    write_kind(&node.kind, text, parts)?;
    Ok(())
}

fn write_kind(kind: &Kind, text: &mut Vec<u8>, parts: &mut Vec<Part>) -> Result<(), AllocError>
    ensures { OnOk result ((nodes : Seq Node) (d : Datum) (rest : Seq ℕ) → IsKind nodes kind.now d → Pending nodes parts.old.items rest → Left nodes text.new.items parts.new.items (text.old.items ++ (text_of d ++ rest))) }
{
    match kind {
        Kind::Integer(value) => write_integer(*value, text)?,
        Kind::Boolean(value) => write_boolean(*value, text)?,
        Kind::Char(byte) => write_character(*byte, text)?,
        Kind::Text(bytes) => write_string(bytes.as_slice(), text)?,
        Kind::Name(bytes) => text.extend_from_slice(bytes.as_slice())?,
        Kind::List { items, tail } => {
            text.push(b'(')?;
            push_tail(*tail, parts)?;
            push_items(items.as_slice(), parts)?;
        }
        Kind::Vector { items } => {
            text.extend_from_slice(b"#(")?;
            parts.push(Part::Close)?;
            push_items(items.as_slice(), parts)?;
        }
    }
    Ok(())
}

/// Puts what ends a list before the other parts.
fn push_tail(tail: Option<u32>, parts: &mut Vec<Part>) -> Result<(), AllocError>
    ensures none { OnOk result (tail ≡ None → parts.new.items ≡ parts.old.items ++ Part.Close ∷ []) }
    ensures some { OnOk result ((id : ℕ) → tail ≡ Some id → parts.new.items ≡ parts.old.items ++ Part.Close ∷ Part.Tail id ∷ []) }
{
    parts.push(Part::Close)?;
    if let Some(id) = tail {
        parts.push(Part::Tail(id))?;
    }
    Ok(())
}

/// Puts items before the other parts.
fn push_items(ids: &[u32], parts: &mut Vec<Part>) -> Result<(), AllocError>
    ensures { OnOk result ((nodes : Seq Node) (is : Items) (rest : Seq ℕ) → StandAll nodes ids.now is → Pending nodes parts.old.items rest → Pending nodes parts.new.items (items_text is ++ rest)) }
{
    let Some((first, others)) = ids.split_first() else {
        return Ok(());
    };
    push_others(others, parts)?;
    parts.push(Part::Datum(*first))?;
    Ok(())
}

/// Puts items, with a space before each, before the other parts.
fn push_others(ids: &[u32], parts: &mut Vec<Part>) -> Result<(), AllocError>
    ensures { OnOk result ((nodes : Seq Node) (is : Items) (rest : Seq ℕ) → StandAll nodes ids.now is → Pending nodes parts.old.items rest → Pending nodes parts.new.items (more_text is ++ rest)) }
{
    let mut rest = ids;
    while let Some((last, others)) = rest.split_last() {
        parts.push(Part::Next(*last))?;
        rest = others;
    }
    Ok(())
}
