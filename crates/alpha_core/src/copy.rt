ghost use Rattle.std.specs.Prelude.{◌≡◌, IfOk};

use core_form::Var;
use scheme_base::{Bytes, Ids, Lit, Lits};
use std::alloc::{AllocError, Global};

/// Literals of their own that are the same.
pub fn copy_lits(alloc: Global, lits: &Lits) -> Result<Lits, AllocError>
    ensures { IfOk result (λ copy. copy ≡ lits.now) }
{
    let mut copy = Lits::new(alloc);
    let mut rest = lits.as_slice();
    while let Some((lit, others)) = rest.split_first() {
        copy.push(copy_lit(alloc, lit)?)?;
        rest = others;
    }
    Ok(copy)
}

fn copy_lit(alloc: Global, lit: &Lit) -> Result<Lit, AllocError>
    ensures { IfOk result (λ copy. copy ≡ lit.now) }
{
    match lit {
        Lit::Integer(value) => Ok(Lit::Integer(*value)),
        Lit::Boolean(value) => Ok(Lit::Boolean(*value)),
        Lit::Char(byte) => Ok(Lit::Char(*byte)),
        Lit::Nil => Ok(Lit::Nil),
        Lit::Unspecified => Ok(Lit::Unspecified),
        Lit::Undefined => Ok(Lit::Undefined),
        Lit::Symbol(name) => Ok(Lit::Symbol(Bytes::from_slice(alloc, name.as_slice())?)),
        Lit::Text(bytes) => Ok(Lit::Text(Bytes::from_slice(alloc, bytes.as_slice())?)),
        Lit::Pair(car, cdr) => Ok(Lit::Pair(*car, *cdr)),
        Lit::Vector(items) => Ok(Lit::Vector(Ids::from_slice(alloc, items.as_slice())?)),
    }
}

pub(crate) fn copy_var(alloc: Global, var: &Var) -> Result<Var, AllocError>
    ensures { IfOk result (λ copy. copy ≡ var.now) }
{
    Ok(Var {
        name: Bytes::from_slice(alloc, var.name.as_slice())?,
        lib: var.lib,
    })
}
