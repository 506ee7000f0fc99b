//! Rows from their data.

use crate::row::{Ends, Row, Step, Value};
use datum_form::{Kind, Nodes};
use rv_asm::Routine;
use scheme_base::{Bytes, ErrKind, List, Mark, OPERATIONS};
use std::alloc::Global;
use std::io;

/// All errors.
const ERRORS: [ErrKind; 9] = [
    ErrKind::WrongType,
    ErrKind::Index,
    ErrKind::Unbound,
    ErrKind::NotProcedure,
    ErrKind::Count,
    ErrKind::Overflow,
    ErrKind::ZeroDivisor,
    ErrKind::Undefined,
    ErrKind::LiteralWritten,
];

/// Data that are no row.
fn no_row() -> io::Error {
    io::Error::from(io::ErrorKind::InvalidData)
}

/// The line on which a datum begins.
pub(crate) fn line_of(nodes: &Nodes, id: u32) -> u32 {
    match nodes.get(id as usize) {
        Some(node) => node.pos.line,
        None => 0,
    }
}

pub(crate) fn row_of(alloc: Global, nodes: &Nodes, id: u32) -> io::Result<Row> {
    let mut row = Row::new(alloc);
    for part in items(nodes, id)? {
        add_part(alloc, nodes, *part, &mut row)?;
    }
    Ok(row)
}

/// Adds what one list of a row says.
fn add_part(alloc: Global, nodes: &Nodes, id: u32, row: &mut Row) -> io::Result<()> {
    let Some((head, rest)) = items(nodes, id)?.split_first() else {
        return Err(no_row());
    };
    let head = name(nodes, *head)?;
    if head == b"heap".as_slice() {
        row.heap = count(nodes, rest)?;
    } else if head == b"input".as_slice() {
        row.input = bytes(alloc, nodes, rest)?;
    } else if head == b"failing".as_slice() {
        row.failing.push(count(nodes, rest)?)?;
    } else if head == b"output".as_slice() {
        row.output = bytes(alloc, nodes, rest)?;
    } else if let Some(ends) = ends(alloc, nodes, head, rest)? {
        row.ends = ends;
    } else {
        row.steps.push(step(alloc, nodes, head, rest)?)?;
    }
    Ok(())
}

/// How the row ends, if it is said here.
fn ends(alloc: Global, nodes: &Nodes, head: &[u8], rest: &[u32]) -> io::Result<Option<Ends>> {
    if head == b"shows".as_slice() {
        Ok(Some(Ends::Shows(values(alloc, nodes, rest)?)))
    } else if head == b"called".as_slice() {
        Ok(Some(Ends::Called(values(alloc, nodes, rest)?)))
    } else if head == b"error".as_slice() {
        Ok(Some(Ends::Error(byte(integer(nodes, rest)?)?)))
    } else if head == b"storage".as_slice() {
        Ok(Some(Ends::Storage))
    } else if head == b"io".as_slice() {
        Ok(Some(Ends::Io))
    } else {
        Ok(None)
    }
}

/// The call of a routine: how it is called, and then its operands.
fn step(alloc: Global, nodes: &Nodes, head: &[u8], rest: &[u32]) -> io::Result<Step> {
    let mut checked = true;
    let mut mark = Mark::Local;
    let mut operands = List::new(alloc);
    for item in rest {
        if is_name(nodes, *item, b"bare") {
            checked = false;
        } else if is_name(nodes, *item, b"global") {
            mark = Mark::Global;
        } else if !is_name(nodes, *item, b"local") {
            operands.push(value(nodes, *item)?)?;
        }
    }
    match routine(head, checked, mark) {
        Some(routine) => Ok(Step { routine, operands }),
        None => Err(no_row()),
    }
}

/// The routine of this name.
fn routine(head: &[u8], checked: bool, mark: Mark) -> Option<Routine> {
    if head == b"new".as_slice() {
        Some(Routine::New(mark))
    } else if head == b"save".as_slice() {
        Some(Routine::Save)
    } else if head == b"restore".as_slice() {
        Some(Routine::Restore)
    } else if head == b"rest".as_slice() {
        Some(Routine::Rest(mark))
    } else if head == b"copy".as_slice() {
        Some(Routine::Copy(mark))
    } else if head == b"call".as_slice() {
        Some(Routine::Call { checked })
    } else if head == b"apply".as_slice() {
        Some(Routine::Apply)
    } else if head == b"callcc".as_slice() {
        Some(Routine::CallCC { checked })
    } else if head == b"full".as_slice() {
        Some(Routine::Storage)
    } else if head == b"lost".as_slice() {
        Some(Routine::Io)
    } else {
        failure(head).or(operation(head, checked, mark))
    }
}

/// The report of an error, which is named for its number: `fail-1` and so on.
fn failure(head: &[u8]) -> Option<Routine> {
    let number = head.strip_prefix(b"fail-")?;
    for kind in ERRORS {
        if number == [b'0' + kind.number()].as_slice() {
            return Some(Routine::Error(kind));
        }
    }
    None
}

fn operation(head: &[u8], checked: bool, mark: Mark) -> Option<Routine> {
    for op in OPERATIONS {
        if op.name().as_bytes() == head {
            let mark = Some(mark);
            return Some(Routine::Operation { op, checked, mark });
        }
    }
    None
}

fn values(alloc: Global, nodes: &Nodes, ids: &[u32]) -> io::Result<List<Value>> {
    let mut all = List::new(alloc);
    for id in ids {
        all.push(value(nodes, *id)?)?;
    }
    Ok(all)
}

/// A word: a constant's, or what a list says.
fn value(nodes: &Nodes, id: u32) -> io::Result<Value> {
    let Some(node) = nodes.get(id as usize) else {
        return Err(no_row());
    };
    match &node.kind {
        Kind::Integer(number) => Ok(Value::Number(word_of(*number).wrapping_mul(4))),
        Kind::Boolean(false) => Ok(Value::Number(1)),
        Kind::Boolean(true) => Ok(Value::Number(5)),
        Kind::Char(byte) => Ok(Value::Number(29 + 32 * u64::from(*byte))),
        Kind::Name(name) if name.as_slice() == b"unspecified".as_slice() => Ok(Value::Number(13)),
        Kind::Name(name) if name.as_slice() == b"eof".as_slice() => Ok(Value::Number(17)),
        Kind::List { items, .. } => listed_value(nodes, items.as_slice()),
        _ => Err(no_row()),
    }
}

fn listed_value(nodes: &Nodes, ids: &[u32]) -> io::Result<Value> {
    let Some((head, rest)) = ids.split_first() else {
        return Ok(Value::Number(9));
    };
    let head = name(nodes, *head)?;
    if head == b"word".as_slice() {
        Ok(Value::Number(word_of(integer(nodes, rest)?)))
    } else if head == b"start".as_slice() {
        Ok(Value::Start(integer(nodes, rest)?))
    } else if head == b"end".as_slice() {
        Ok(Value::End(integer(nodes, rest)?))
    } else if head == b"data".as_slice() {
        data_value(nodes, rest)
    } else {
        Err(no_row())
    }
}

/// How far a place lies from that of a data word.
fn data_value(nodes: &Nodes, ids: &[u32]) -> io::Result<Value> {
    let [word, add] = ids else {
        return Err(no_row());
    };
    match u32::try_from(integer(nodes, &[*word])?) {
        Ok(word) => Ok(Value::Data(word, integer(nodes, &[*add])?)),
        Err(_) => Err(no_row()),
    }
}

/// The bytes of a string, or of their numbers.
fn bytes(alloc: Global, nodes: &Nodes, ids: &[u32]) -> io::Result<Bytes> {
    let mut all = Bytes::new(alloc);
    for id in ids {
        match nodes.get(*id as usize) {
            Some(node) => match &node.kind {
                Kind::Text(text) => all.extend_from_slice(text.as_slice())?,
                Kind::Integer(number) => all.push(byte(*number)?)?,
                _ => return Err(no_row()),
            },
            None => return Err(no_row()),
        }
    }
    Ok(all)
}

/// The items of a list.
fn items(nodes: &Nodes, id: u32) -> io::Result<&[u32]> {
    match nodes.get(id as usize) {
        Some(node) => match &node.kind {
            Kind::List { items, .. } => Ok(items.as_slice()),
            _ => Err(no_row()),
        },
        None => Err(no_row()),
    }
}

fn name(nodes: &Nodes, id: u32) -> io::Result<&[u8]> {
    match nodes.get(id as usize) {
        Some(node) => match &node.kind {
            Kind::Name(name) => Ok(name.as_slice()),
            _ => Err(no_row()),
        },
        None => Err(no_row()),
    }
}

fn is_name(nodes: &Nodes, id: u32, wanted: &[u8]) -> bool {
    match name(nodes, id) {
        Ok(name) => name == wanted,
        Err(_) => false,
    }
}

/// The word that holds an integer, in two's complement.
fn word_of(number: i64) -> u64 {
    0u64.wrapping_add_signed(number)
}

fn byte(number: i64) -> io::Result<u8> {
    match u8::try_from(number) {
        Ok(byte) => Ok(byte),
        Err(_) => Err(no_row()),
    }
}

/// The count that stands alone.
fn count(nodes: &Nodes, ids: &[u32]) -> io::Result<u64> {
    match u64::try_from(integer(nodes, ids)?) {
        Ok(count) => Ok(count),
        Err(_) => Err(no_row()),
    }
}

/// The integer that stands alone.
fn integer(nodes: &Nodes, ids: &[u32]) -> io::Result<i64> {
    let [id] = ids else {
        return Err(no_row());
    };
    match nodes.get(*id as usize) {
        Some(node) => match &node.kind {
            Kind::Integer(number) => Ok(*number),
            _ => Err(no_row()),
        },
        None => Err(no_row()),
    }
}
