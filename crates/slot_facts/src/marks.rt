//! Marks of numbers below a bound, and lists of what is marked.

ghost use Rattle.std.specs.Prelude.{◌≡◌, ◌++◌, ◌∷◌, [], IfOk, OnOk, if◌then◌else◌};
ghost use Rattle.std.specs.List.{filter};
ghost use Rattle.named_form.specs.Valid.{numbers_from};
ghost use Rattle.slot_facts.specs.Marks.{MarksOf, is_marked};

use scheme_base::{Ids, List};
use std::alloc::{AllocError, Global};

/// Marks of these numbers, as far as they are below `many`.
pub(crate) fn marks_of(alloc: Global, many: usize, numbers: &[u32]) -> Result<Vec<bool>, AllocError>
    ensures { IfOk result (λ marks. MarksOf many numbers.now marks.items) }
{
    let mut marks = vec![in alloc; false; many]?;
    for number in numbers {
        let at = *number as usize;
        if at < marks.len() {
            marks[at] = true;
        }
    }
    Ok(marks)
}

/// Whether a number is marked.
pub(crate) fn is_marked(marks: &[bool], number: usize) -> bool
    ensures { result ≡ is_marked marks.now number }
{
    match marks.get(number) {
        None => false,
        Some(marked) => *marked,
    }
}

/// The numbers below `many` that are marked, in order.
pub(crate) fn marked(alloc: Global, many: usize, marks: &[bool]) -> Result<Ids, AllocError>
    ensures { IfOk result (λ numbers. numbers ≡ filter (is_marked marks.now) (numbers_from 0 many)) }
{
    let mut numbers = List::new(alloc);
    for at in 0..many {
        put_if(&mut numbers, number_of(at)?, is_marked(marks, at))?;
    }
    Ok(numbers)
}

/// Puts a number at the end of a list, if it is chosen.
pub(crate) fn put_if(numbers: &mut Ids, number: u32, chosen: bool) -> Result<(), AllocError>
    ensures { OnOk result (numbers.new ≡ numbers.old ++ (if chosen then number ∷ [] else [])) }
{
    if !chosen {
        return Ok(());
    }
    numbers.push(number)
}

/// A place as a number of 32 bits.
pub(crate) fn number_of(at: usize) -> Result<u32, AllocError>
    ensures { IfOk result (λ number. number ≡ at) }
{
    u32::try_from(at).map_err(|_| AllocError)
}
