//! How many bytes a text and its data take, and which numbers the pool has.
ghost use Rattle.std.specs.Prelude.{◌≡◌, [], ◌+◌, ◌*◌, length, IfOk, OnOk};
ghost use Rattle.rv_asm.specs.Layout.{size_of, text_size as size_of_text, items_of, cut, up_to_even, pool_from};

use crate::{AsmItem, Parts};
use const_data::Data;
use indexmap::IndexSet;
use std::alloc::{AllocError, Global};

/// The numbers of the pool in the order of their first use.
pub type Pool = IndexSet<u64>;

/// The bytes of a text, or the greatest word where they are more.
#[tactic(auto, using(crate::proofs::Items::size_joined))]
pub fn text_size(parts: &Parts) -> u64
    ensures { result ≡ cut (size_of_text (items_of parts.now)) }
{
    let mut size: u64 = 0;
    for part in parts.as_slice() {
        size = size.saturating_add(part_size(part.as_slice()));
    }
    size
}

/// The bytes of a piece of code, or the greatest word where they are more.
fn part_size(items: &[AsmItem]) -> u64
    ensures { result ≡ cut (size_of_text items.now) }
{
    let mut size: u64 = 0;
    for item in items {
        size = size.saturating_add(item_size(*item));
    }
    size
}

/// The bytes of an item.
pub fn item_size(item: AsmItem) -> u64
    ensures { result ≡ size_of item }
{
    match item {
        AsmItem::Code(_) => 4,
        AsmItem::Here(_) => 0,
        _ => 8,
    }
}

/// The bytes of data with a pool, or the greatest word where they are more.
pub fn data_size(words: &Data, pool: &Pool) -> u64
    ensures { result ≡ cut (8 * up_to_even (length words.now + length pool.now.keys)) }
{
    let count = (words.len() as u64).saturating_add(pool.len() as u64);
    count.saturating_add(count % 2).saturating_mul(8)
}

/// The pool of a text.
#[tactic(auto, using(crate::proofs::Items::pool_joined))]
pub fn pool_of(alloc: Global, parts: &Parts) -> Result<Pool, AllocError>
    ensures { IfOk result (λ pool. pool.keys ≡ pool_from [] (items_of parts.now)) }
{
    let mut pool = IndexSet::new(alloc);
    for part in parts.as_slice() {
        add_numbers(&mut pool, part.as_slice())?;
    }
    Ok(pool)
}

/// Adds the numbers that a piece of code loads to a pool.
fn add_numbers(pool: &mut Pool, items: &[AsmItem]) -> Result<(), AllocError>
    ensures { OnOk result (pool.new.keys ≡ pool_from pool.old.keys items.now) }
{
    for item in items {
        if let AsmItem::Pool { number, .. } = *item {
            pool.insert(number)?;
        }
    }
    Ok(())
}
