//! Expressions of a core before its literals and its fresh variables have numbers.

ghost use Rattle.std.specs.Prelude.{◌≡◌, [], ◌∷◌, map, None, OnOk, IfOk};
ghost use Rattle.draft_form.specs.declared.draft.Constant.TheVariants as held;
ghost use Rattle.draft_form.specs.Drafts.{Draft as Tree, Drafts as Trees, Fresh, Const, Symbols as ListsSymbols, Ref, Lambda, If, Call, Prim, none, item};
ghost use Rattle.draft_form.specs.Drawn.{name_of, Names, Data, Drawn, AllDrawn};
ghost use Rattle.draft_form.specs.Made.{either as either_of, AddsDraft, Keeps};
ghost use Rattle.draft_form.specs.Quoted.{IsHeld};
ghost use Rattle.scheme_base.specs.Constants.{Constant as Quoted};

use crate::literal::number;
use core_form::{Node, What};
use scheme_base::{Ids, List, Op, Pos};
use std::alloc::{AllocError, Global};

/// A variable. A local one has the number of variables that are bound round it.
#[derive(Clone, Copy, Debug)]
pub enum Variable {
    Local { level: u32, word: u32 },
    /// A variable that has no name in the text.
    Fresh { level: u32 },
    /// A top-level variable of the program.
    Top { word: u32 },
    Library { word: u32 },
}

/// A constant, by the data that it stands for.
#[derive(Clone, Copy, Debug)]
pub enum Constant {
    Datum(u32),
    /// The list of what a list or a vector has from an index on.
    Rest { node: u32, from: u32 },
    Integer(i64),
    Boolean(bool),
    Nil,
    Unspecified,
    Undefined,
    /// The list of the core's literal symbols.
    Symbols,
}

/// An expression. A constant is the number of a `Constant`.
pub type Draft = Node<Variable>;

/// Expressions, each after its parts.
#[derive(Drop)]
pub struct Drafts {
    pub exprs: Vec<Draft>,
    pub constants: Vec<Constant>,
    alloc: Global,
}

impl Drafts {
    pub fn new(alloc: Global) -> Drafts
        ensures exprs { result.exprs.items ≡ [] }
        ensures constants { result.constants.items ≡ [] }
    {
        Drafts {
            exprs: Vec::new(alloc),
            constants: Vec::new(alloc),
            alloc,
        }
    }

    /// Adds an expression, and gives its number.
    pub fn add(&mut self, what: What<Variable>, pos: Pos) -> Result<u32, AllocError>
        ensures kept { OnOk result (Keeps self.old self.new) }
        ensures added { IfOk result (AddsDraft self.old self.new what pos) }
    {
        let id = number(self.exprs.len())?;
        self.exprs.push(Draft { what, pos })?;
        Ok(id)
    }

    pub fn constant(&mut self, constant: Constant, pos: Pos) -> Result<u32, AllocError>
        ensures kept { OnOk result (Keeps self.old self.new) }
        ensures drawn { IfOk result (λ id. (names : Names) (nodes : Data) (c : Quoted) → IsHeld nodes constant c → Drawn names nodes self.new id (Const pos c)) }
        ensures symbols { IfOk result (λ id. (names : Names) (nodes : Data) → constant ≡ held.Symbols → Drawn names nodes self.new id (ListsSymbols pos)) }
    {
        let place = number(self.constants.len())?;
        self.constants.push(constant)?;
        self.add(What::Const(place), pos)
    }

    pub fn reference(&mut self, variable: Variable, pos: Pos) -> Result<u32, AllocError>
        ensures kept { OnOk result (Keeps self.old self.new) }
        ensures drawn { IfOk result (λ id. (names : Names) (nodes : Data) → Drawn names nodes self.new id (Ref pos (name_of names variable))) }
    {
        self.add(What::Ref(variable), pos)
    }

    pub fn conditional(&mut self, test: u32, yes: u32, no: u32, pos: Pos) -> Result<u32, AllocError>
        ensures kept { OnOk result (Keeps self.old self.new) }
        ensures drawn { IfOk result (λ id. (names : Names) (nodes : Data) (d e f : Tree) → Drawn names nodes self.old test d → Drawn names nodes self.old yes e → Drawn names nodes self.old no f → Drawn names nodes self.new id (If pos d e f)) }
    {
        self.add(What::If { test, yes, no }, pos)
    }

    /// An operation on two operands.
    pub fn binary(&mut self, op: Op, first: u32, second: u32, pos: Pos) -> Result<u32, AllocError>
        ensures kept { OnOk result (Keeps self.old self.new) }
        ensures drawn { IfOk result (λ id. (names : Names) (nodes : Data) (d e : Tree) → Drawn names nodes self.old first d → Drawn names nodes self.old second e → Drawn names nodes self.new id (Prim pos op (item d (item e none)))) }
    {
        let operands = Ids::from_slice(self.alloc, &[first, second])?;
        self.add(What::Prim { op, operands }, pos)
    }

    pub fn call(&mut self, operator: u32, operands: &[u32], pos: Pos) -> Result<u32, AllocError>
        ensures kept { OnOk result (Keeps self.old self.new) }
        ensures drawn { IfOk result (λ id. (names : Names) (nodes : Data) (f : Tree) (es : Trees) → Drawn names nodes self.old operator f → AllDrawn names nodes self.old operands.now es → Drawn names nodes self.new id (Call pos f es)) }
    {
        let operands = Ids::from_slice(self.alloc, operands)?;
        self.add(What::Call { operator, operands }, pos)
    }

    /// A call of a lambda expression of as many variables as there are operands.
    pub fn bind(
        &mut self,
        params: List<Variable>,
        body: u32,
        operands: Ids,
        pos: Pos,
    ) -> Result<u32, AllocError>
        ensures kept { OnOk result (Keeps self.old self.new) }
        ensures drawn { IfOk result (λ id. (names : Names) (nodes : Data) (e : Tree) (es : Trees) → Drawn names nodes self.old body e → AllDrawn names nodes self.old operands es → Drawn names nodes self.new id (Call pos (Lambda pos (map (name_of names) params) None e) es)) }
    {
        let operator = self.add(
            What::Lambda {
                params,
                rest: None,
                body,
            },
            pos,
        )?;
        self.add(What::Call { operator, operands }, pos)
    }

    /// A call of a lambda expression of one variable.
    pub fn bind_one(
        &mut self,
        variable: Variable,
        body: u32,
        value: u32,
        pos: Pos,
    ) -> Result<u32, AllocError>
        ensures kept { OnOk result (Keeps self.old self.new) }
        ensures drawn { IfOk result (λ id. (names : Names) (nodes : Data) (d e : Tree) → Drawn names nodes self.old value d → Drawn names nodes self.old body e → Drawn names nodes self.new id (Call pos (Lambda pos (name_of names variable ∷ []) None e) (item d none))) }
    {
        let params = List::from_slice(self.alloc, &[variable])?;
        let operands = Ids::from_slice(self.alloc, &[value])?;
        self.bind(params, body, operands, pos)
    }

    /// `(or value rest)`: the value where it is true, which is held by a fresh variable of this level.
    pub fn either(&mut self, level: u32, value: u32, rest: u32, pos: Pos) -> Result<u32, AllocError>
        ensures kept { OnOk result (Keeps self.old self.new) }
        ensures drawn { IfOk result (λ id. (names : Names) (nodes : Data) (d e : Tree) → Drawn names nodes self.old value d → Drawn names nodes self.old rest e → Drawn names nodes self.new id (either_of pos level d e)) }
    {
        let fresh = Variable::Fresh { level };
        let test = self.reference(fresh, pos)?;
        let yes = self.reference(fresh, pos)?;
        let body = self.conditional(test, yes, rest, pos)?;
        self.bind_one(fresh, body, value, pos)
    }
}
