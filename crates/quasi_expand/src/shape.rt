//! What data are, as far as shapes ask.

ghost use Rattle.std.specs.Prelude.{◌≡◌};
ghost use Rattle.std.specs.Option.{option_copied};
ghost use Rattle.datum_form.specs.Data.{Datum};
ghost use Rattle.datum_form.specs.Stands.{Stands, StandAll};
ghost use Rattle.quasi_expand.specs.Agreement.{Agree};
ghost use Rattle.quasi_expand.specs.Shapes.{is_name as names, is_word as is_this, list_of};
ghost use Rattle.quasi_expand.specs.Kinds.{list_kind, name_kind, name_of, node_kind};

use datum_form::{Kind, Node};

/// The kind of a node.
pub(crate) fn kind_at(nodes: &[Node], id: u32) -> Option<&Kind>
    ensures { option_copied result ≡ node_kind nodes.now id }
{
    match nodes.get(id as usize) {
        Some(node) => Some(&node.kind),
        None => None,
    }
}

/// The items of a list that has no tail.
pub fn list_items(nodes: &[Node], id: u32) -> Option<&[u32]>
    ensures { (d : Datum) → Stands nodes.now id d → Agree (StandAll nodes.now) (option_copied result) (list_of d) }
{
    match nodes.get(id as usize) {
        Some(node) => items_in(&node.kind),
        None => None,
    }
}

/// Whether a datum is a name.
pub fn is_name(nodes: &[Node], id: u32) -> bool
    ensures { (d : Datum) → Stands nodes.now id d → result ≡ names d }
{
    name_at(nodes, id).is_some()
}

/// Whether a datum is this name.
pub fn is_word(nodes: &[Node], id: u32, word: &[u8]) -> bool
    ensures { (d : Datum) → Stands nodes.now id d → result ≡ is_this word.now d }
{
    match name_at(nodes, id) {
        Some(name) => name == word,
        None => false,
    }
}

/// The bytes of a name.
fn name_at(nodes: &[Node], id: u32) -> Option<&[u8]>
    ensures { (d : Datum) → Stands nodes.now id d → option_copied result ≡ name_of d }
{
    match nodes.get(id as usize) {
        Some(node) => bytes_in(&node.kind),
        None => None,
    }
}

fn items_in(kind: &Kind) -> Option<&[u32]>
    ensures { option_copied result ≡ list_kind kind.now }
{
    match kind {
        Kind::List { items, tail: None } => Some(items.as_slice()),
        _ => None,
    }
}

fn bytes_in(kind: &Kind) -> Option<&[u8]>
    ensures { option_copied result ≡ name_kind kind.now }
{
    match kind {
        Kind::Name(bytes) => Some(bytes.as_slice()),
        _ => None,
    }
}
