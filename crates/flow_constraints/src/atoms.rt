//! The atoms of each kind, in order.

ghost use Rattle.std.specs.Prelude.{◌≡◌, IfOk};
ghost use Rattle.flow_constraints.specs.Layout.{atoms_of, is_of};

use crate::Kind;
use crate::flow::plus;
use scheme_base::{Ids, List};
use std::alloc::{AllocError, Global};

/// Which atoms a rule goes over.
#[derive(Clone, Copy)]
pub(crate) enum Which {
    Pairs,
    FreshPairs,
    Vectors,
    FreshVectors,
    Symbols,
    Continuations,
}

/// Whether an atom is among these.
fn is_of(which: Which, kind: Kind) -> bool
    ensures { result ≡ is_of which kind }
{
    match which {
        Which::Pairs => matches!(kind, Kind::Pair { .. }),
        Which::FreshPairs => matches!(kind, Kind::Pair { literal: false, .. }),
        Which::Vectors => matches!(kind, Kind::Vector { .. }),
        Which::FreshVectors => matches!(kind, Kind::Vector { literal: false, .. }),
        Which::Symbols => matches!(kind, Kind::Symbol { .. }),
        Which::Continuations => matches!(kind, Kind::Continuation { .. }),
    }
}

/// Those atoms, in order.
pub(crate) fn atoms_of(alloc: Global, which: Which, kinds: &[Kind]) -> Result<Ids, AllocError>
    ensures { IfOk result (λ atoms. atoms ≡ atoms_of which 0 kinds.now) }
{
    let mut atoms = List::new(alloc);
    let mut atom = 0u32;
    for kind in kinds {
        if is_of(which, *kind) {
            atoms.push(atom)?;
        }
        atom = plus(atom, 1)?;
    }
    Ok(atoms)
}
