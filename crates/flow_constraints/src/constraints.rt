//! The constraints of a program, if there are not too many.

ghost use Rattle.std.specs.Prelude.{◌≡◌, length, map, None, IfOk, IfErr, MatchOption};
ghost use Rattle.flow_form.specs.Shape.{IsMadeOf};
ghost use Rattle.flow_form.specs.Valid.{IsValid};
ghost use Rattle.named_form.specs.Code.{first_sites};
ghost use Rattle.named_form.specs.Valid.{WellFormed};
ghost use Rattle.named_form.specs.Written.{form, procedure};
ghost use Rattle.flow_constraints.specs.Layout.{flow_of as flow_in};
ghost use Rattle.flow_constraints.specs.Limits.{Refuses, atom_count, passed, past as past_most, row_count, table_limit as table_passed};
ghost use Rattle.flow_constraints.specs.Listed.{rules_of};
ghost use Rattle.flow_constraints.specs.Walk.{put_procs};

use crate::Flow;
use crate::census::Census;
use crate::flow::narrow;
use crate::layout::flow_of;
use crate::steps::put_all;
use crate::tally::count_rules;
use flow_form::{Constraints, Rules};
use named_form::{Named, Proc};
use scheme_base::{Limit, LimitErr, LimitKind, List, Lit};
use std::alloc::{AllocError, Global};

const MOST_ROWS: u64 = 65_536;

const MOST_ATOMS: u64 = 8_192;

const MOST_WORDS: u64 = 4_194_304;

const MOST_RULES: u64 = 8_388_608;

/// The constraints of a program: its rows and atoms, and the list of its rules. A limit is told where a count is
/// past its most: of rows, of atoms, of words of all rows, of rules, the first of these that is. A count of 2^64 or
/// more is told as 2^64 - 1. Rows, atoms and words are counted before anything is laid out, and without memory. A
/// well-formed program that passes no limit has valid rules, so it is refused for want of memory alone.
#[tactic(auto, using(crate::proofs::Refused::table_passed, crate::proofs::Refused::table_small, crate::proofs::ProgramFits::rules_valid))]
pub fn generate(alloc: Global, named: &Named) -> Result<Constraints, LimitErr>
    ensures made { IfOk result (λ c. IsMadeOf c (row_count (form named.now)) (atom_count (form named.now)) (rules_of (form named.now))) }
    ensures within { IfOk result (λ c. passed (form named.now) ≡ None) }
    ensures refused { IfErr result (Refuses (form named.now)) }
    ensures valid { WellFormed (form named.now) → passed (form named.now) ≡ None → IsValid (row_count (form named.now)) (atom_count (form named.now)) (rules_of (form named.now)) }
{
    let census = Census::of(named);
    if let Some(limit) = table_limit(census.rows, census.atoms) {
        return Err(LimitErr::Limit(limit));
    }
    let Ok(flow) = flow_of(alloc, named) else {
        return Err(LimitErr::NoMemory);
    };
    let Ok(atoms) = narrow(flow.kinds.len()) else {
        return Err(LimitErr::NoMemory);
    };
    let lits = named.lits.as_slice();
    let procs = named.procs.as_slice();
    let Ok(count) = count_rules(alloc, &flow, lits, procs) else {
        return Err(LimitErr::NoMemory);
    };
    if let Some(limit) = past(LimitKind::Rules, count, MOST_RULES) {
        return Err(LimitErr::Limit(limit));
    }
    let Ok(made) = listed(alloc, &flow, atoms, lits, procs, count) else {
        return Err(LimitErr::NoMemory);
    };
    match made {
        Some(constraints) => Ok(constraints),
        // no well-formed program comes here
        None => Err(LimitErr::NoMemory),
    }
}

/// The limit that a count passes, if it is past this most.
fn past(which: LimitKind, count: u64, most: u64) -> Option<Limit>
    ensures { result ≡ past_most which count most }
{
    if count <= most {
        None
    } else {
        Some(Limit { which, count })
    }
}

/// The first limit that rows and atoms pass.
fn table_limit(rows: u64, atoms: u64) -> Option<Limit>
    ensures { result ≡ table_passed rows atoms }
{
    if let Some(limit) = past(LimitKind::Rows, rows, MOST_ROWS) {
        return Some(limit);
    }
    if let Some(limit) = past(LimitKind::Atoms, atoms, MOST_ATOMS) {
        return Some(limit);
    }
    past(
        LimitKind::Table,
        rows.saturating_mul(atoms.div_ceil(64)),
        MOST_WORDS,
    )
}

/// The constraints of a program with so many atoms and rules, if the rules are valid.
fn listed(
    alloc: Global,
    flow: &Flow,
    atoms: u32,
    lits: &[Lit],
    procs: &[Proc],
    count: u64,
) -> Result<Option<Constraints>, AllocError>
    ensures { let rules = put_procs flow.now lits.now (first_sites (map procedure procs.now)) (map procedure procs.now) in
        IfOk result (λ o. MatchOption o (¬ IsValid flow.now.rows atoms rules) (λ c. IsMadeOf c flow.now.rows atoms rules)) }
{
    let room = usize::try_from(count).map_err(|_| AllocError)?;
    let mut rules: Rules = List::from_vec(Vec::with_capacity(alloc, room)?);
    put_all(alloc, flow, lits, &mut rules, procs)?;
    Ok(Constraints::new(flow.rows, atoms, rules))
}
