use scheme_base::{Bytes, Ids, List, Pos};

/// What a node is. Items and tails are numbers of nodes, counted from 0.
#[derive(Debug, Drop)]
pub enum Kind {
    /// An integer from -2^61 to 2^61 - 1.
    Integer(i64),
    Boolean(bool),
    /// A character, by its byte.
    Char(u8),
    /// A string, by its bytes.
    Text(Bytes),
    /// A name, in lower case.
    Name(Bytes),
    /// A list; a dotted one has a tail, which is no list where the list was read from a text.
    List { items: Ids, tail: Option<u32> },
    Vector { items: Ids },
}

/// A datum, with the place of its first byte.
#[derive(Debug, Drop)]
pub struct Node {
    pub kind: Kind,
    pub pos: Pos,
}

/// A table of nodes.
pub type Nodes = List<Node>;

/// The data of a text: its nodes, and the numbers of those that stand in no other, in their order.
#[derive(Debug, Drop)]
pub struct Datums {
    pub nodes: Nodes,
    pub tops: Ids,
}
