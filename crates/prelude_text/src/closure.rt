ghost use Rattle.std.specs.Prelude.{◌≡◌, ◌<◌, ◌≤◌, ◌^◌, [], ◌∷◌, length, OnOk, IfOk};
ghost use Rattle.prelude_text.specs.Closure.{AreNumbers, AreUses, IsClosure, marked_numbers};
ghost use Rattle.prelude_text.specs.Marking.{Marks};

use scheme_base::{Ids, List, Uses};
use std::alloc::{AllocError, Global};

/// The numbers of the definitions that are reached from those of `from`, in increasing order. Definition k,
/// counted from 1, uses those whose numbers stand at place k - 1 of `uses`.
pub fn closure_of(alloc: Global, uses: &Uses, from: &Ids) -> Result<Ids, AllocError>
    requires few { length uses.now < 2 ^ 32 }
    requires uses { AreUses (length uses.now) uses.now }
    requires from { AreNumbers (length uses.now) from.now }
    ensures { IfOk result (λ ids. IsClosure uses.now from.now ids) }
{
    let mut marks = vec![in alloc; false; uses.len()]?;
    let marked = marks.as_mut_slice();
    let mut waiting = Vec::new(alloc);
    mark_each(from.as_slice(), marked, &mut waiting)?;
    while let Some(id) = waiting.pop() {
        if let Some(used) = uses.get(id as usize - 1) {
            mark_each(used.as_slice(), marked, &mut waiting)?;
        }
    }
    numbers_of(alloc, marked)
}

/// Marks definitions, and lets those wait that were not marked.
fn mark_each(ids: &[u32], marked: &mut [bool], waiting: &mut Vec<u32>) -> Result<(), AllocError>
    requires { AreNumbers (length marked.old) ids.now }
    ensures { OnOk result (Marks ids.now marked.old marked.new waiting.old.items waiting.new.items) }
{
    for id in ids {
        mark(*id, marked, waiting)?;
    }
    Ok(())
}

/// Marks a definition, and lets it wait if it was not marked.
fn mark(id: u32, marked: &mut [bool], waiting: &mut Vec<u32>) -> Result<(), AllocError>
    requires some { 1 ≤ id }
    requires within { id ≤ length marked.old }
    ensures { OnOk result (Marks (id ∷ []) marked.old marked.new waiting.old.items waiting.new.items) }
{
    let at = id as usize - 1;
    if !marked[at] {
        marked[at] = true;
        waiting.push(id)?;
    }
    Ok(())
}

/// The numbers of the marked definitions.
fn numbers_of(alloc: Global, marked: &[bool]) -> Result<Ids, AllocError>
    requires { length marked.now < 2 ^ 32 }
    ensures { IfOk result (λ ids. ids ≡ marked_numbers 1 marked.now) }
{
    let mut ids = List::new(alloc);
    for (at, is_marked) in marked.iter().enumerate() {
        if *is_marked {
            ids.push(at as u32 + 1)?;
        }
    }
    Ok(ids)
}
