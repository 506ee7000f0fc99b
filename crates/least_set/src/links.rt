//! A graph that is given by its links.

ghost use Rattle.std.specs.Prelude.{[], IsTrue, IfOk};
ghost use Rattle.least_set.specs.Least.{IsClosed, IsLeast, IsSet, all_below, has, links_below};
ghost use Rattle.least_set.specs.Search.{IsNext, listed};

use crate::{Graph, least_led};
use scheme_base::{Ids, List};
use std::alloc::{AllocError, Global};

/// A set that has `from` is to have `to`.
#[derive(Clone, Copy, Debug, PartialEq, Eq)]
pub struct Link {
    pub from: u32,
    pub to: u32,
}

/// A list of links.
pub type Links = List<Link>;

/// The numbers that each number is linked to.
#[derive(Clone, Copy)]
struct Linked<'a> {
    next: &'a [Ids],
}

impl Graph for Linked<'_> {
    ghost leads = { λ linked. listed linked.next.now };

    fn next(&self, alloc: Global, number: u32) -> Result<Ids, AllocError> {
        match self.next.get(number as usize) {
            None => Ok(List::new(alloc)),
            Some(numbers) => List::from_slice(alloc, numbers.as_slice()),
        }
    }
}

/// The least set that has these numbers and is closed under these links, in order. All of them are below `many`.
pub fn least_closed(
    alloc: Global,
    many: usize,
    starts: &[u32],
    links: &[Link],
) -> Result<Ids, AllocError>
    requires starts { IsTrue (all_below many starts.now) }
    requires links { IsTrue (links_below many links.now) }
    ensures least { IfOk result (λ set. IsLeast (IsClosed starts.now links.now) (has set)) }
    ensures rises { IfOk result (λ set. IsSet many set) }
{
    let next = targets_of(alloc, many, links)?;
    let linked = Linked {
        next: next.as_slice(),
    };
    let set = least_led(alloc, many, starts, &linked)?;
    Ok(set)
}

/// For each number below `many`, those that it is linked to.
pub fn targets_of(alloc: Global, many: usize, links: &[Link]) -> Result<Vec<Ids>, AllocError>
    requires { IsTrue (links_below many links.now) }
    ensures { IfOk result (λ next. IsNext many links.now next.items) }
{
    let mut next = no_numbers(alloc, many)?;
    for link in links {
        next[link.from as usize].push(link.to)?;
    }
    Ok(next)
}

/// So many empty lists.
fn no_numbers(alloc: Global, many: usize) -> Result<Vec<Ids>, AllocError>
    ensures { IfOk result (λ next. IsNext many [] next.items) }
{
    let mut next = Vec::new(alloc);
    for _ in 0..many {
        next.push(List::new(alloc))?;
    }
    Ok(next)
}
