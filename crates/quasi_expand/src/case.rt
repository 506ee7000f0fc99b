//! `case` (R4RS 4.2.1).

ghost use Rattle.std.specs.Prelude.{◌≡◌};
ghost use Rattle.datum_form.specs.Data.{Datum, Items};
ghost use Rattle.datum_form.specs.Stands.{Stands, StandAll};
ghost use Rattle.quasi_expand.specs.Agreement.{Agree};
ghost use Rattle.quasi_expand.specs.Cases.{IsCase, IsClause, case_of, clause_of};
ghost use Rattle.quasi_expand.specs.Shapes.{are_clauses, is_case};

use crate::shape::{is_word, list_items};
use datum_form::Node;

/// `(case key clause clause ..)`.
#[derive(Clone, Copy, Debug)]
pub struct Case<'a> {
    pub key: u32,
    pub clauses: &'a [u32],
}

/// A clause of a `case`.
#[derive(Clone, Copy, Debug)]
pub struct CaseClause<'a> {
    /// The data that the key is compared with; none in an `else` clause.
    pub data: Option<&'a [u32]>,
    /// At least one expression.
    pub exprs: &'a [u32],
}

/// The parts of a `case` with these items, if it has a key and clauses, each clause is one, and only the
/// last begins with `else`.
pub fn read_case<'a>(nodes: &'a [Node], items: &'a [u32]) -> Option<Case<'a>>
    ensures { (ds : Items) → StandAll nodes.now items.now ds → Agree (IsCase nodes.now) result (case_of ds) }
{
    match items {
        [_, key, clauses @ ..] => {
            if each_is_clause(nodes, clauses) {
                Some(Case { key: *key, clauses })
            } else {
                None
            }
        }
        _ => None,
    }
}

/// Whether these are clauses, of which only the last begins with `else`.
fn each_is_clause(nodes: &[Node], clauses: &[u32]) -> bool
    ensures { (ds : Items) → StandAll nodes.now clauses.now ds → result ≡ are_clauses is_case ds }
{
    let mut rest = clauses;
    while let Some((clause, others)) = rest.split_first() {
        match case_clause(nodes, *clause) {
            Some(read) => {
                if others.is_empty() {
                    return true;
                }
                if read.data.is_none() {
                    return false;
                }
            }
            None => return false,
        }
        rest = others;
    }
    false
}

/// The parts of a clause: a list of data, or `else`, and at least one expression.
pub fn case_clause<'a>(nodes: &'a [Node], clause: u32) -> Option<CaseClause<'a>>
    ensures { (d : Datum) → Stands nodes.now clause d → Agree (IsClause nodes.now) result (clause_of d) }
{
    match list_items(nodes, clause) {
        Some([first, exprs @ ..]) => {
            if exprs.is_empty() {
                return None;
            }
            if is_word(nodes, *first, b"else") {
                return Some(CaseClause { data: None, exprs });
            }
            match list_items(nodes, *first) {
                Some(data) => Some(CaseClause {
                    data: Some(data),
                    exprs,
                }),
                None => None,
            }
        }
        _ => None,
    }
}
