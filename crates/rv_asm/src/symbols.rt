//! Where the labels and the pool of a text stand.
ghost use Rattle.std.specs.Prelude.{◌≡◌, ◌+◌, ◌-◌, ◌<◌, ◌^◌, IfOk, OnOk};
ghost use Rattle.std.specs.Option.{unwrap_or};
ghost use Rattle.indexmap.specs.IndexMap.{get};
ghost use Rattle.const_data.specs.declared.word.Label.{Label as Name};
ghost use Rattle.rv_asm.specs.Layout.{text_size, items_of, same_label, here, found, or_else};

use crate::measure::{Pool, item_size};
use crate::{AsmItem, Parts};
use const_data::Label;
use indexmap::IndexMap;
use std::alloc::{AllocError, Global};

/// The labels that stand in a text, with their addresses.
pub type Places = IndexMap<Label, u64>;

/// The addresses of what a text names.
#[derive(Drop)]
pub struct Symbols {
    pub places: Places,
    pub pool: Pool,
    /// How many data words there are before the pool.
    pub words: u64,
    /// Where the data begin, and where the heap begins and ends.
    pub data: u64,
    pub heap_start: u64,
    pub heap_end: u64,
}

impl Symbols {
    ghost use Rattle.rv_asm.specs.Layout.{place, pool_place};
    ghost use Rattle.rv_asm.specs.Symbols.{placing_in, IsNear};

    /// The address of a label, and 0 for one that nothing has.
    pub fn place(&self, label: Label) -> u64
        requires { IsNear (placing_in self.now) }
        ensures value { result ≡ place (placing_in self.now) label }
        ensures small { result < 2 ^ 30 + 2 ^ 29 }
    {
        match label {
            Label::Word(number) if u64::from(number) < self.words => self.data
                + 8 * u64::from(number),
            Label::Word(_) => 0,
            Label::HeapStart => self.heap_start,
            Label::HeapEnd => self.heap_end,
            Label::Routine(_) | Label::Entry { .. } | Label::Body { .. } | Label::Inner { .. } => {
                self.place_in_text(label)
            }
        }
    }

    /// The address of a label of the text, and 0 for one that does not stand there.
    fn place_in_text(&self, label: Label) -> u64
        ensures { result ≡ unwrap_or (get same_label self.now.places label) 0 }
    {
        self.places.get(&label).copied().unwrap_or(0)
    }

    /// The address of a number in the pool, and that of the pool for one that is not there.
    pub fn pool_place(&self, number: u64) -> u64
        requires { IsNear (placing_in self.now) }
        ensures value { result ≡ pool_place (placing_in self.now) number }
        ensures small { result < 2 ^ 30 + 2 ^ 29 }
    {
        let index = self.pool.get_index_of(&number).unwrap_or(0);
        self.data + 8 * (self.words + index as u64)
    }
}

/// Where the labels of a text stand that begins at an address.
#[tactic(auto, using(crate::proofs::Items::size_joined, crate::proofs::Items::found_joined))]
pub fn places_of(alloc: Global, parts: &Parts, from: u64) -> Result<Places, AllocError>
    requires { from + text_size (items_of parts.now) < 2 ^ 63 }
    ensures { IfOk result (λ places. (l : Name) → get same_label places l ≡ found l from (items_of parts.now)) }
{
    let mut places = IndexMap::new(alloc);
    let mut at = from;
    for part in parts.as_slice() {
        at = add_places(&mut places, part.as_slice(), at)?;
    }
    Ok(places)
}

/// Adds the label that an item at an address is.
fn add_label(places: &mut Places, item: AsmItem, at: u64) -> Result<(), AllocError>
    ensures { OnOk result ((l : Name) → get same_label places.new l ≡ or_else (here l at item) (get same_label places.old l)) }
{
    if let AsmItem::Here(label) = item {
        places.insert(label, at)?;
    }
    Ok(())
}

/// Adds the labels of a piece of code that begins at an address, and answers the address behind it.
fn add_places(places: &mut Places, items: &[AsmItem], from: u64) -> Result<u64, AllocError>
    requires { from + text_size items.now < 2 ^ 63 }
    ensures end { IfOk result (λ end. end ≡ from + text_size items.now) }
    ensures places { IfOk result (λ end. (l : Name) → get same_label places.new l ≡ or_else (found l from items.now) (get same_label places.old l)) }
{
    let mut at = from;
    for item in items {
        add_label(places, *item, at)?;
        at += item_size(*item);
    }
    Ok(at)
}
