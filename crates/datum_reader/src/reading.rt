ghost use Rattle.std.specs.Prelude.{◌≡◌, ℕ, List as Seq, [], OnOk, IfOk};
ghost use Rattle.std.specs.Option.{option_copied};
ghost use Rattle.scheme_base.specs.declared.pos.Pos.{Pos};
ghost use Rattle.datum_form.specs.declared.datums.Node.{Node};
ghost use Rattle.datum_form.specs.Data.{datum_of};
ghost use Rattle.datum_form.specs.Stands.{Stands};
ghost use Rattle.datum_form.specs.Syntax.{Syntax, place_of};
ghost use Rattle.datum_form.specs.declared.token.Token.TheVariants.{Atomic};
ghost use Rattle.datum_reader.specs.Levels.{HoldsLevel};
ghost use Rattle.datum_reader.specs.Machine.{Frame, room, in_room, open_one, give, dot, shut, step, start};
ghost use Rattle.datum_reader.specs.Machine.Run.{On};
ghost use Rattle.datum_reader.specs.Answer.{max_depth};
ghost use Rattle.datum_reader.specs.Reading.{IsAt, IsReading, Innermost, Follows, Finishes};

use crate::ReadErr;
use crate::level::Level;
use crate::nodes::{marked, single};
use datum_form::{Atom, Datums, Nodes, Token};
use scheme_base::{Ids, List, Pos};
use std::alloc::{AllocError, Global};

/// The deepest nesting of lists, vectors and marks.
const MAX_DEPTH: usize = 1000;

/// What a token does.
#[derive(Debug, Drop)]
pub(crate) enum Taken {
    /// It is read.
    Goes,
    /// It cannot stand here.
    Stray,
    /// It opens one level too many.
    Deep,
}

/// How far a reading has come.
#[derive(Debug, Drop)]
pub(crate) struct Reading {
    pub(crate) nodes: Nodes,
    /// The data that stand in no other.
    pub(crate) tops: Ids,
    /// What is open, the innermost last.
    pub(crate) levels: Vec<Level>,
}

impl Reading {
    /// A reading that has not begun.
    pub(crate) fn new(alloc: Global) -> Reading
        ensures { IsAt result (start max_depth) }
    {
        Reading {
            nodes: List::new(alloc),
            tops: List::new(alloc),
            levels: Vec::new(alloc),
        }
    }

    fn innermost(&self) -> Option<&Level>
        ensures { (n : ℕ) (fs : Seq Frame) (us : Seq Syntax) → IsAt self.now (On n fs us) → Innermost self.now.nodes (option_copied result) fs }
    {
        self.levels.last()
    }

    /// A datum may stand next.
    fn has_room(&self) -> bool
        ensures { (n : ℕ) (fs : Seq Frame) (us : Seq Syntax) → IsAt self.now (On n fs us) → room fs ≡ result }
    {
        let Some(level) = self.innermost() else {
            return true;
        };
        match level {
            Level::Tailed(..) => false,
            _ => true,
        }
    }

    /// Opens a level, where there is room and one more is allowed.
    fn open(&mut self, level: Level) -> Result<Taken, AllocError>
        ensures { IfOk result (λ taken. (n : ℕ) (fs : Seq Frame) (us : Seq Syntax) (f : Frame) (p : Pos) → IsAt self.old (On n fs us) → ((nodes : Seq Node) → HoldsLevel nodes level f) → Follows taken self.new p (in_room (room fs) p (open_one n f fs us p))) }
    {
        if !self.has_room() {
            return Ok(Taken::Stray);
        }
        if self.levels.len() >= MAX_DEPTH {
            return Ok(Taken::Deep);
        }
        self.levels.push(level)?;
        Ok(Taken::Goes)
    }

    /// Takes a datum without parts.
    fn single(&mut self, alloc: Global, atom: Atom, pos: Pos) -> Result<Taken, AllocError>
        ensures { IfOk result (λ taken. (n : ℕ) (fs : Seq Frame) (us : Seq Syntax) → IsAt self.old (On n fs us) → Follows taken self.new pos (step n fs us (Atomic pos atom))) }
    {
        if !self.has_room() {
            return Ok(Taken::Stray);
        }
        let id = single(&mut self.nodes, atom, pos)?;
        self.give(alloc, id)?;
        Ok(Taken::Goes)
    }

    /// Gives a datum to the innermost level that is no mark. The marks inside it are closed.
    fn give(&mut self, alloc: Global, datum: u32) -> Result<(), AllocError>
        ensures { OnOk result ((n : ℕ) (fs : Seq Frame) (us : Seq Syntax) (s : Syntax) → IsAt self.old (On n fs us) → Stands self.old.nodes datum (datum_of s) → IsAt self.new (give n fs us s)) }
    {
        let mut id = datum;
        while let Some(level) = self.levels.pop() {
            match level {
                Level::Waiting(pos, mark) => id = marked(alloc, &mut self.nodes, mark, id, pos)?,
                other => {
                    let taken = other.with_item(alloc, id)?;
                    self.levels.push(taken)?;
                    return Ok(());
                }
            }
        }
        self.tops.push(id)?;
        Ok(())
    }

    /// Closes the innermost level.
    fn shut(&mut self, alloc: Global) -> Result<Taken, AllocError>
        requires { IsReading self.old }
        ensures { IfOk result (λ taken. (n : ℕ) (fs : Seq Frame) (us : Seq Syntax) (q : Pos) → IsAt self.old (On n fs us) → Follows taken self.new q (shut n fs us q)) }
    {
        let Some(level) = self.levels.pop() else {
            return Ok(Taken::Stray);
        };
        let Some(id) = level.closed(alloc, &mut self.nodes)? else {
            return Ok(Taken::Stray);
        };
        self.give(alloc, id)?;
        Ok(Taken::Goes)
    }

    /// A dot, after an item of a list.
    fn dot(&mut self) -> Result<Taken, AllocError>
        ensures { IfOk result (λ taken. (n : ℕ) (fs : Seq Frame) (us : Seq Syntax) (q : Pos) → IsAt self.old (On n fs us) → Follows taken self.new q (dot n fs us q)) }
    {
        let Some(level) = self.levels.pop() else {
            return Ok(Taken::Stray);
        };
        let Level::Listing(pos, items) = level else {
            return Ok(Taken::Stray);
        };
        self.levels.push(Level::Dotted(pos, items))?;
        Ok(Taken::Goes)
    }

    /// Takes a token.
    pub(crate) fn take(&mut self, alloc: Global, token: Token) -> Result<Taken, AllocError>
        requires { IsReading self.old }
        ensures { IfOk result (λ taken. (n : ℕ) (fs : Seq Frame) (us : Seq Syntax) → IsAt self.old (On n fs us) → Follows taken self.new (place_of token) (step n fs us token)) }
    {
        let taken = match token {
            Token::Open(pos) => self.open(Level::Opened(pos))?,
            Token::OpenVector(pos) => self.open(Level::InVector(pos, List::new(alloc)))?,
            Token::Close(_) => self.shut(alloc)?,
            Token::Dot(_) => self.dot()?,
            Token::Marking(pos, mark) => self.open(Level::Waiting(pos, mark))?,
            Token::Atomic(pos, atom) => self.single(alloc, atom, pos)?,
        };
        Ok(taken)
    }

    /// The data, or what is still open.
    pub(crate) fn finish(self) -> Result<Datums, ReadErr>
        ensures { (n : ℕ) (fs : Seq Frame) (us : Seq Syntax) → IsAt self (On n fs us) → Finishes result fs us }
    {
        match self.innermost() {
            Some(level) => Err(ReadErr::Unclosed { pos: level.pos() }),
            None => Ok(Datums {
                nodes: self.nodes,
                tops: self.tops,
            }),
        }
    }
}
