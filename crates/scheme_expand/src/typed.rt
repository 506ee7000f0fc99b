//! What the numbers of a core are by their types: its positions have 32 bits, and its characters are bytes.

ghost use Rattle.std.specs.Prelude.{IsTrue};
ghost use Rattle.scheme_base.specs.Constants.{are_bytes};
ghost use Rattle.scheme_expand.specs.Laws.{ArePlaced, AreBytes, HasBytes, IsTyped};

use core_form::{Core, Expr};
use scheme_base::Lit;

/// Looks at each number of a core, which is then known to be one of its type.
pub fn known_types(core: &Core)
    ensures { IsTyped core.now }
{
    known_places(core.exprs.as_slice());
    known_literals(core.lits.as_slice());
}

fn known_places(exprs: &[Expr])
    ensures { ArePlaced exprs.now }
{
    let mut rest = exprs;
    while let Some((expr, others)) = rest.split_first() {
        let _line = expr.pos.line;
        let _col = expr.pos.col;
        rest = others;
    }
}

fn known_literals(lits: &[Lit])
    ensures { AreBytes lits.now }
{
    let mut rest = lits;
    while let Some((lit, others)) = rest.split_first() {
        known_literal(lit);
        rest = others;
    }
}

fn known_literal(lit: &Lit)
    ensures { HasBytes lit.now }
{
    match lit {
        Lit::Char(byte) => {
            let _byte = *byte;
        }
        Lit::Symbol(name) => known_bytes(name.as_slice()),
        Lit::Text(chars) => known_bytes(chars.as_slice()),
        _ => {}
    }
}

fn known_bytes(bytes: &[u8])
    ensures { IsTrue (are_bytes bytes.now) }
{
    let mut rest = bytes;
    while let Some((byte, others)) = rest.split_first() {
        let _byte = *byte;
        rest = others;
    }
}
