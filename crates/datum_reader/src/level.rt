ghost use Rattle.std.specs.Prelude.{◌≡◌, List as Seq, IfOk};
ghost use Rattle.datum_form.specs.declared.datums.Node.{Node};
ghost use Rattle.datum_form.specs.Data.{datum_of};
ghost use Rattle.datum_form.specs.Stands.{Stands};
ghost use Rattle.datum_form.specs.Syntax.{Syntax};
ghost use Rattle.datum_reader.specs.Levels.{HoldsLevel, IsLevel, Closes, with_tree};
ghost use Rattle.datum_reader.specs.Machine.{Frame, frame_place};

use crate::nodes::{dotted, list, vector};
use datum_form::{Mark, Nodes};
use scheme_base::{Ids, List, Pos};
use std::alloc::{AllocError, Global};

/// What is open, by its place, with the numbers of the nodes that already stand in it.
#[derive(Debug, Drop)]
pub(crate) enum Level {
    /// A list without items so far.
    Opened(Pos),
    Listing(Pos, Ids),
    /// A list whose dot has been read.
    Dotted(Pos, Ids),
    /// A list whose tail has been read.
    Tailed(Pos, Ids, u32),
    /// A vector.
    InVector(Pos, Ids),
    /// A mark that waits for its datum.
    Waiting(Pos, Mark),
}

impl Level {
    /// The place of what is open.
    pub(crate) fn pos(&self) -> Pos
        ensures { (nodes : Seq Node) (f : Frame) → HoldsLevel nodes self.now f → result ≡ frame_place f }
    {
        match self {
            Level::Opened(pos) => *pos,
            Level::Listing(pos, _) => *pos,
            Level::Dotted(pos, _) => *pos,
            Level::Tailed(pos, _, _) => *pos,
            Level::InVector(pos, _) => *pos,
            Level::Waiting(pos, _) => *pos,
        }
    }

    /// This level with one datum more. A mark stays as it is.
    pub(crate) fn with_item(self, alloc: Global, id: u32) -> Result<Level, AllocError>
        ensures { IfOk result (λ level. (nodes : Seq Node) (f : Frame) (s : Syntax) → HoldsLevel nodes self f → Stands nodes id (datum_of s) → HoldsLevel nodes level (with_tree f s)) }
    {
        match self {
            Level::Opened(pos) => {
                let items = List::from_slice(alloc, &[id])?;
                Ok(Level::Listing(pos, items))
            }
            Level::Listing(pos, mut items) => {
                items.push(id)?;
                Ok(Level::Listing(pos, items))
            }
            Level::Dotted(pos, items) => Ok(Level::Tailed(pos, items, id)),
            Level::Tailed(pos, items, _) => Ok(Level::Tailed(pos, items, id)),
            Level::InVector(pos, mut items) => {
                items.push(id)?;
                Ok(Level::InVector(pos, items))
            }
            Level::Waiting(pos, mark) => Ok(Level::Waiting(pos, mark)),
        }
    }

    /// The datum that a `)` closes here, if one may stand here.
    pub(crate) fn closed(self, alloc: Global, nodes: &mut Nodes) -> Result<Option<u32>, AllocError>
        requires { IsLevel nodes.old self }
        ensures { IfOk result (λ id. (f : Frame) → HoldsLevel nodes.old self f → Closes nodes.old nodes.new id f) }
    {
        match self {
            Level::Opened(pos) => {
                let id = list(nodes, List::new(alloc), pos)?;
                Ok(Some(id))
            }
            Level::Listing(pos, items) => {
                let id = list(nodes, items, pos)?;
                Ok(Some(id))
            }
            Level::Tailed(pos, items, tail) => {
                let id = dotted(nodes, items, tail, pos)?;
                Ok(Some(id))
            }
            Level::InVector(pos, items) => {
                let id = vector(nodes, items, pos)?;
                Ok(Some(id))
            }
            Level::Dotted(..) => Ok(None),
            Level::Waiting(..) => Ok(None),
        }
    }
}
