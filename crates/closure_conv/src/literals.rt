//! Copies of a program's literals.

ghost use Rattle.std.specs.Prelude.{◌≡◌, IfOk};

use scheme_base::{Bytes, Ids, Lit, Lits};
use std::alloc::{AllocError, Global};

/// A list of its own of the same literals.
pub(crate) fn copy_of(alloc: Global, lits: &Lits) -> Result<Lits, AllocError>
    ensures { IfOk result (λ copy. copy ≡ lits.now) }
{
    let mut copy = Lits::new(alloc);
    for lit in lits.as_slice() {
        copy.push(literal(alloc, lit)?)?;
    }
    Ok(copy)
}

fn literal(alloc: Global, lit: &Lit) -> Result<Lit, AllocError>
    ensures { IfOk result (λ copy. copy ≡ lit.now) }
{
    Ok(match lit {
        Lit::Integer(n) => Lit::Integer(*n),
        Lit::Boolean(b) => Lit::Boolean(*b),
        Lit::Char(c) => Lit::Char(*c),
        Lit::Nil => Lit::Nil,
        Lit::Unspecified => Lit::Unspecified,
        Lit::Undefined => Lit::Undefined,
        Lit::Symbol(name) => Lit::Symbol(Bytes::from_slice(alloc, name.as_slice())?),
        Lit::Text(bytes) => Lit::Text(Bytes::from_slice(alloc, bytes.as_slice())?),
        Lit::Pair(car, cdr) => Lit::Pair(*car, *cdr),
        Lit::Vector(items) => Lit::Vector(Ids::from_slice(alloc, items.as_slice())?),
    })
}
