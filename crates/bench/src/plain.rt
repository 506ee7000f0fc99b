//! The plain solver on a long chain of rules, and on many rows of many atoms.

use crate::ones::count_ones;
use flow_form::{Constraints, Give, Rule, Rules};
use flow_plain::solve_plain;
use std::alloc::{AllocError, AllocGlobal, Global};
use std::io;
use std::io::Print;

pub(crate) fn chains<R: AllocGlobal + Print>(rt: &R) -> io::Result<()> {
    for (rows, atoms) in [(5_000, 1), (2_000, 500)] {
        let Some(c) = chain_of_rows(rt.alloc(), rows, atoms)? else {
            println!(rt; "rows {rows}, atoms {atoms}: too many")?;
            continue;
        };
        let solution = solve_plain(rt.alloc(), &c)?;
        let pairs = count_ones(solution.words.as_slice());
        println!(rt; "rows {rows}, atoms {atoms}: {pairs} pairs")?;
    }
    Ok(())
}

/// Rules that give each atom to row 0, and each row to the next one.
fn chain_of_rows(alloc: Global, rows: u32, atoms: u32) -> Result<Option<Constraints>, AllocError> {
    let mut rules = Rules::new(alloc);
    for atom in 0..atoms {
        rules.push(give_to(Give::Atom(atom), 0))?;
    }
    for row in 1..rows {
        rules.push(give_to(Give::Row(row - 1), row))?;
    }
    Ok(Constraints::new(rows, atoms, rules))
}

fn give_to(give: Give, to: u32) -> Rule {
    Rule {
        first: None,
        second: None,
        give,
        to,
    }
}
