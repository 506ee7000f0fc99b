//! One search: each number that is found is gone on from once.

ghost use Rattle.std.specs.Prelude.{◌≡◌, ◌<◌, ℕ, ◌∷◌, [], IsTrue, IfOk, OnOk, vec_len};
ghost use Rattle.least_set.specs.Least.{IsLeast, IsLed, IsSet, all_below, has};
ghost use Rattle.least_set.specs.Search.{Grows, Spread, Tells, trues};

use crate::Graph;
use scheme_base::{Ids, List};
use std::alloc::{AllocError, Global};

/// The least set that has these numbers and with each all that it leads to, in order. The numbers, and all that a
/// number below `many` leads to, are below `many`.
pub fn least_led<G: Graph>(
    alloc: Global,
    many: usize,
    starts: &[u32],
    graph: &G,
) -> Result<Ids, AllocError>
    requires starts { IsTrue (all_below many starts.now) }
    requires graph { (k : ℕ) → k < many → IsTrue (all_below many (G.leads graph.now k)) }
    ensures least { IfOk result (λ set. IsLeast (IsLed starts.now (G.leads graph.now)) (has set)) }
    ensures rises { IfOk result (λ set. IsSet many set) }
{
    let mut marks = vec![in alloc; false; many]?;
    let mut found = List::new(alloc);
    mark_all(starts, &mut marks, &mut found)?;
    spread(alloc, graph, &mut marks, &mut found)?;
    let set = marked(alloc, marks.as_slice())?;
    Ok(set)
}

/// Marks numbers that are not marked yet, and puts them at the end of what is found.
fn mark_all(numbers: &[u32], marks: &mut Vec<bool>, found: &mut Ids) -> Result<(), AllocError>
    requires below { IsTrue (all_below (vec_len marks.old) numbers.now) }
    requires tells { Tells marks.old.items found.old }
    ensures size { OnOk result (vec_len marks.new ≡ vec_len marks.old) }
    ensures tells { OnOk result (Tells marks.new.items found.new) }
    ensures grows { OnOk result (Grows numbers.now found.old found.new) }
{
    for number in numbers {
        mark(*number, marks, found)?;
    }
    Ok(())
}

/// Marks a number if it is not marked yet, and puts it at the end of what is found.
fn mark(number: u32, marks: &mut Vec<bool>, found: &mut Ids) -> Result<(), AllocError>
    requires there { number < vec_len marks.old }
    requires tells { Tells marks.old.items found.old }
    ensures size { OnOk result (vec_len marks.new ≡ vec_len marks.old) }
    ensures tells { OnOk result (Tells marks.new.items found.new) }
    ensures grows { OnOk result (Grows (number ∷ []) found.old found.new) }
{
    let at = number as usize;
    if marks[at] {
        return Ok(());
    }
    marks[at] = true;
    found.push(number)?;
    Ok(())
}

/// Goes on from what is found until nothing is new.
fn spread<G: Graph>(
    alloc: Global,
    graph: &G,
    marks: &mut Vec<bool>,
    found: &mut Ids,
) -> Result<(), AllocError>
    requires below { (k : ℕ) → k < vec_len marks.old → IsTrue (all_below (vec_len marks.old) (G.leads graph.now k)) }
    requires tells { Tells marks.old.items found.old }
    ensures size { OnOk result (vec_len marks.new ≡ vec_len marks.old) }
    ensures tells { OnOk result (Tells marks.new.items found.new) }
    ensures spread { OnOk result (Spread (G.leads graph.now) found.old found.new) }
{
    let mut at = 0;
    while at < found.len() {
        let number = found.as_slice()[at];
        let next = graph.next(alloc, number)?;
        mark_all(next.as_slice(), marks, found)?;
        at += 1;
    }
    Ok(())
}

/// The numbers that are marked, in order.
fn marked(alloc: Global, marks: &[bool]) -> Result<Ids, AllocError>
    ensures { IfOk result (λ numbers. numbers ≡ trues 0 marks.now) }
{
    let mut numbers = List::new(alloc);
    for at in 0..marks.len() {
        if marks[at] {
            numbers.push(u32::try_from(at).map_err(|_| AllocError)?)?;
        }
    }
    Ok(numbers)
}
