//! Numbers the rows and atoms of a program, procedure by procedure and step by step.

ghost use Rattle.std.specs.Prelude.{◌≡◌, ◌+◌, ◌++◌, ◌∷◌, [], length, map, IfOk, OnOk};
ghost use Rattle.named_form.specs.Code.{single as first_var};
ghost use Rattle.named_form.specs.Written.{act_of, code, form, procedure};
ghost use Rattle.flow_constraints.specs.Census.{cut};
ghost use Rattle.flow_constraints.specs.Quoted.{added, coming_past, literal_atom, object_begun, pairs_added, parts, quoted, quoted_all, shape_of, texts_added, unquoted, vectors_added, with_one};
ghost use Rattle.flow_constraints.specs.Layout.{begins, bound, bound_all, closure_kinds, entry_of, kinds_of, flow_of, has_arms, joined, laid_all, laid_arms, laid_body, laid_code, laid_lambda, laid_main, laid_own, laid_rest, laid_step, made_kinds, option_kinds, own_rows, prim_kinds, prim_rows, started};

use crate::atoms::{Which, atoms_of};
use crate::flow::{narrow, plus};
use crate::{Entries, Entry, Flow, Kind, Kinds};
use named_form::{Act, Block, Named, Proc};
use scheme_base::{Ids, List, Lit, Op};
use std::alloc::{AllocError, Global};

/// How many atoms each program has.
pub(crate) const FIXED: u32 = 10;

/// What a walk over a program has numbered: how many rows, the rows of variables and blocks, the procedures from
/// 1 on, and the kinds of rest lists and of what steps make. The first rest list has the atom `first_list`.
#[derive(Drop)]
pub(crate) struct Layout {
    pub(crate) rows: u32,
    pub(crate) vars: Ids,
    pub(crate) blocks: Ids,
    pub(crate) entries: Entries,
    pub(crate) lists: Kinds,
    pub(crate) made: Kinds,
    pub(crate) first_list: u32,
}

/// The one variable that a step other than a `Fix` binds.
pub(crate) fn single(vars: &[u32]) -> u32
    ensures { result ≡ first_var vars.now }
{
    match vars.first() {
        None => 0,
        Some(var) => *var,
    }
}

/// How many rows an operation's object has.
fn prim_rows(op: Op) -> u32
    ensures { result ≡ prim_rows op }
{
    match op {
        Op::Cons => 2,
        Op::MakeVector | Op::MakeSymbol => 1,
        _ => 0,
    }
}

/// How many rows a step has beside those of its variables.
pub(crate) fn own_rows(act: &Act) -> u32
    ensures { result ≡ own_rows (act_of act.now) }
{
    match act {
        Act::Prim { op, .. } => prim_rows(*op),
        Act::MakeBox { .. } | Act::MakeHole | Act::CallCC { .. } => 1,
        Act::If { .. } | Act::Apply { .. } => 2,
        _ => 0,
    }
}

/// What an operation makes.
fn prim_kind(op: Op, row: u32) -> Option<Kind>
    ensures { option_kinds result ≡ prim_kinds op row }
{
    let literal = false;
    match op {
        Op::Cons => Some(Kind::Pair { row, literal }),
        Op::MakeVector => Some(Kind::Vector { row, literal }),
        Op::MakeString => Some(Kind::Text { literal }),
        Op::MakeSymbol => Some(Kind::Symbol { row }),
        _ => None,
    }
}

/// What a step makes that binds a variable.
fn made_kind(act: &Act, var: u32, row: u32) -> Option<Kind>
    ensures { option_kinds result ≡ made_kinds (act_of act.now) var row }
{
    match act {
        Act::Prim { op, .. } => prim_kind(*op, row),
        Act::MakeBox { .. } | Act::MakeHole => Some(Kind::Boxed { var }),
        Act::CallCC { .. } => Some(Kind::Continuation { var }),
        _ => None,
    }
}

fn has_arms(act: &Act) -> bool
    ensures { result ≡ has_arms (act_of act.now) }
{
    matches!(act, Act::If { .. })
}

impl Layout {
    /// Nothing is numbered but the top-level variables; so many procedures have closures.
    fn new(alloc: Global, tops: u32, closures: u32) -> Result<Layout, AllocError>
        ensures { IfOk result (λ layout. layout ≡ started tops closures) }
    {
        Ok(Layout {
            rows: tops,
            vars: List::new(alloc),
            blocks: List::new(alloc),
            entries: List::new(alloc),
            lists: List::new(alloc),
            made: List::new(alloc),
            first_list: plus(FIXED, closures)?,
        })
    }

    /// Passes over rows.
    fn pass(&mut self, rows: u32) -> Result<(), AllocError>
        ensures { OnOk result (self.new ≡ record self.old { rows = self.old.rows + rows }) }
    {
        self.rows = plus(self.rows, rows)?;
        Ok(())
    }

    /// Numbers a variable.
    fn bind(&mut self) -> Result<(), AllocError>
        ensures { OnOk result (self.new ≡ bound self.old) }
    {
        self.vars.push(self.rows)?;
        self.pass(1)
    }

    /// Numbers variables.
    fn bind_all(&mut self, vars: &[u32]) -> Result<(), AllocError>
        ensures { OnOk result (self.new ≡ bound_all vars.now self.old) }
    {
        for _ in vars {
            self.bind()?;
        }
        Ok(())
    }

    /// Numbers what a step has beside its variables, its arms' blocks among it.
    fn lay_own(&mut self, act: &Act, var: u32) -> Result<(), AllocError>
        ensures { OnOk result (self.new ≡ laid_own var (act_of act.now) self.old) }
    {
        if let Some(kind) = made_kind(act, var, self.rows) {
            self.made.push(kind)?;
        }
        if has_arms(act) {
            self.blocks.push(self.rows)?;
            self.blocks.push(plus(self.rows, 1)?)?;
        }
        self.pass(own_rows(act))
    }

    /// Numbers a step, its arms aside.
    fn lay_step(&mut self, act: &Act, vars: &[u32]) -> Result<(), AllocError>
        ensures { OnOk result (self.new ≡ laid_step vars.now (act_of act.now) self.old) }
    {
        self.bind_all(vars)?;
        self.lay_own(act, single(vars))
    }

    /// Numbers a rest parameter, and the rows of its lists.
    fn lay_rest(&mut self, rest: Option<u32>) -> Result<(), AllocError>
        ensures { OnOk result (self.new ≡ laid_rest rest self.old) }
    {
        if rest.is_none() {
            return Ok(());
        }
        self.bind()?;
        self.lists.push(Kind::Pair {
            row: self.rows,
            literal: false,
        })?;
        self.pass(2)
    }

    /// Numbers the block that is a procedure's body, with so many rows before the parameters.
    fn begin(&mut self, rows: u32) -> Result<(), AllocError>
        ensures { OnOk result (self.new ≡ begins rows self.old) }
    {
        self.blocks.push(self.rows)?;
        self.pass(rows)
    }

    /// Numbers the program's own block.
    fn lay_main(&mut self, proc: &Proc) -> Result<(), AllocError>
        ensures { OnOk result (self.new ≡ laid_main (procedure proc.now) self.old) }
    {
        self.begin(1)?;
        lay_body(self, proc)
    }

    /// Numbers a procedure from 1 on.
    fn lay_lambda(&mut self, alloc: Global, proc: &Proc) -> Result<(), AllocError>
        ensures { OnOk result (self.new ≡ laid_lambda (procedure proc.now) self.old) }
    {
        let entry = self.entry(alloc, proc)?;
        self.entries.push(entry)?;
        self.begin(2)?;
        lay_body(self, proc)
    }

    /// What a call of a procedure looks up that is numbered next.
    fn entry(&self, alloc: Global, proc: &Proc) -> Result<Entry, AllocError>
        ensures { IfOk result (λ entry. entry ≡ entry_of (procedure proc.now) self.now) }
    {
        Ok(Entry {
            atom: plus(FIXED, narrow(self.entries.len())?)?,
            params: List::from_slice(alloc, proc.params.as_slice())?,
            rest: proc.rest,
            block: narrow(self.blocks.len())?,
            list: plus(self.first_list, narrow(self.lists.len())?)?,
        })
    }
}

/// Numbers what a procedure binds.
fn lay_body(layout: &mut Layout, proc: &Proc) -> Result<(), AllocError>
    ensures { OnOk result (layout.new ≡ laid_body (procedure proc.now) layout.old) }
{
    layout.bind_all(proc.params.as_slice())?;
    layout.lay_rest(proc.rest)?;
    lay_block(layout, &proc.body)
}

/// Numbers the steps of a block.
#[cycle(lay)]
fn lay_block(layout: &mut Layout, block: &Block) -> Result<(), AllocError>
    ensures { OnOk result (layout.new ≡ laid_code (code block.now) layout.old) }
{
    for step in block.steps.as_slice() {
        layout.lay_step(&step.act, step.vars.as_slice())?;
        lay_arms(layout, &step.act)?;
    }
    Ok(())
}

/// Numbers the steps of a step's arms.
#[cycle(lay)]
fn lay_arms(layout: &mut Layout, act: &Act) -> Result<(), AllocError>
    ensures { OnOk result (layout.new ≡ laid_arms (act_of act.now) layout.old) }
{
    match act {
        Act::If { yes, no, .. } => {
            lay_block(layout, yes)?;
            lay_block(layout, no)
        }
        _ => Ok(()),
    }
}

/// Numbers all procedures.
fn lay_all(alloc: Global, layout: &mut Layout, procs: &[Proc]) -> Result<(), AllocError>
    ensures { OnOk result (layout.new ≡ laid_all (map procedure procs.now) layout.old) }
{
    let Some((main, lambdas)) = procs.split_first() else {
        return Ok(());
    };
    layout.lay_main(main)?;
    for proc in lambdas {
        layout.lay_lambda(alloc, proc)?;
    }
    Ok(())
}

/// The kinds of the atoms but for those of literals.
fn kinds_of(alloc: Global, layout: &Layout) -> Result<Kinds, AllocError>
    ensures { IfOk result (λ kinds. kinds ≡ kinds_of layout.now) }
{
    let mut kinds = List::from_vec(vec![in alloc; Kind::Fixed; FIXED as usize]?);
    push_closures(&mut kinds, layout.entries.as_slice())?;
    kinds.extend_from_slice(layout.lists.as_slice())?;
    kinds.extend_from_slice(layout.made.as_slice())?;
    Ok(kinds)
}

/// Puts the kind of each procedure's closures at the end.
fn push_closures(kinds: &mut Kinds, entries: &[Entry]) -> Result<(), AllocError>
    ensures { OnOk result (kinds.new ≡ kinds.old ++ closure_kinds 1 entries.now) }
{
    let mut proc = 1u32;
    for _ in entries {
        kinds.push(Kind::Closure { proc })?;
        proc = plus(proc, 1)?;
    }
    Ok(())
}

/// Which parts a quoted object has, itself among them.
#[derive(Clone, Copy)]
pub(crate) struct Shape {
    pub(crate) pairs: bool,
    pub(crate) vectors: bool,
    pub(crate) texts: bool,
}

/// What is numbered of the literals: rows and kinds of all atoms so far, the atom of each literal, how many parts
/// of the last quoted object are still to come, and the atoms of its pairs, vectors and strings.
#[derive(Drop)]
pub(crate) struct Quoted {
    pub(crate) rows: u32,
    pub(crate) kinds: Kinds,
    pub(crate) lits: Ids,
    pub(crate) coming: u64,
    pub(crate) pairs: u32,
    pub(crate) vectors: u32,
    pub(crate) texts: u32,
}

/// How many parts a literal has.
fn parts(lit: &Lit) -> u64
    ensures { result ≡ parts lit.now }
{
    match lit {
        Lit::Pair(..) => 2,
        Lit::Vector(items) => items.len() as u64,
        _ => 0,
    }
}

/// How many parts are to come once a literal is passed by that was one of so many: 2^64 - 1 where there are more,
/// and no list of literals has so many.
pub(crate) fn coming_past(coming: u64, lit: &Lit) -> u64
    ensures { result ≡ cut (coming_past coming lit.now) }
{
    coming.saturating_sub(1).saturating_add(parts(lit))
}

impl Shape {
    /// This, with one more literal.
    fn with(self, lit: &Lit) -> Shape
        ensures { result ≡ with_one lit.now self }
    {
        Shape {
            pairs: self.pairs || matches!(lit, Lit::Pair(..)),
            vectors: self.vectors || matches!(lit, Lit::Vector(_)),
            texts: self.texts || matches!(lit, Lit::Text(_)),
        }
    }
}

/// The shape of the quoted object that is the first of these literals.
pub(crate) fn shape_at(lits: &[Lit]) -> Shape
    ensures { result ≡ shape_of lits.now }
{
    let mut shape = Shape {
        pairs: false,
        vectors: false,
        texts: false,
    };
    let mut coming: u64 = 1;
    for lit in lits {
        if coming == 0 {
            return shape;
        }
        shape = shape.with(lit);
        coming = coming_past(coming, lit);
    }
    shape
}

impl Quoted {
    /// No literal is numbered; there are so many rows and these kinds.
    fn new(alloc: Global, rows: u32, kinds: Kinds) -> Quoted
        ensures { result ≡ unquoted rows kinds }
    {
        Quoted {
            rows,
            kinds,
            lits: List::new(alloc),
            coming: 0,
            pairs: 0,
            vectors: 0,
            texts: 0,
        }
    }

    /// A new atom with so many rows.
    fn add(&mut self, kind: Kind, rows: u32) -> Result<u32, AllocError>
        ensures atom { IfOk result (λ atom. atom ≡ length self.old.kinds) }
        ensures added { OnOk result (self.new ≡ added kind rows self.old) }
    {
        let atom = narrow(self.kinds.len())?;
        self.kinds.push(kind)?;
        self.rows = plus(self.rows, rows)?;
        Ok(atom)
    }

    /// The atom of a quoted object's pairs.
    fn add_pairs(&mut self) -> Result<(), AllocError>
        ensures { OnOk result (self.new ≡ pairs_added self.old) }
    {
        let row = self.rows;
        self.pairs = self.add(Kind::Pair { row, literal: true }, 2)?;
        Ok(())
    }

    /// The atom of a quoted object's vectors.
    fn add_vectors(&mut self) -> Result<(), AllocError>
        ensures { OnOk result (self.new ≡ vectors_added self.old) }
    {
        let row = self.rows;
        self.vectors = self.add(Kind::Vector { row, literal: true }, 1)?;
        Ok(())
    }

    /// The atom of a quoted object's strings.
    fn add_texts(&mut self) -> Result<(), AllocError>
        ensures { OnOk result (self.new ≡ texts_added self.old) }
    {
        self.texts = self.add(Kind::Text { literal: true }, 0)?;
        Ok(())
    }

    /// The atoms of a quoted object of this shape.
    fn begin(&mut self, shape: Shape) -> Result<(), AllocError>
        ensures { OnOk result (self.new ≡ object_begun shape self.old) }
    {
        if shape.pairs {
            self.add_pairs()?;
        }
        if shape.vectors {
            self.add_vectors()?;
        }
        if shape.texts {
            self.add_texts()?;
        }
        self.coming = 1;
        Ok(())
    }

    /// A literal's atom. No step names the undefined value.
    fn atom(&self, lit: &Lit) -> u32
        ensures { result ≡ literal_atom self.now lit.now }
    {
        match lit {
            Lit::Undefined => 0,
            Lit::Integer(_) => 1,
            Lit::Char(_) => 2,
            Lit::Boolean(false) => 3,
            Lit::Boolean(true) => 4,
            Lit::Nil => 5,
            Lit::Unspecified => 6,
            Lit::Symbol(_) => 8,
            Lit::Pair(..) => self.pairs,
            Lit::Vector(_) => self.vectors,
            Lit::Text(_) => self.texts,
        }
    }

    /// Numbers the first of these literals.
    fn lay(&mut self, lit: &Lit, lits: &[Lit]) -> Result<(), AllocError>
        ensures { OnOk result (self.new ≡ quoted lit.now lits.now self.old) }
    {
        if self.coming == 0 {
            self.begin(shape_at(lits))?;
        }
        let atom = self.atom(lit);
        self.lits.push(atom)?;
        self.coming = self
            .coming
            .saturating_sub(1)
            .checked_add(parts(lit))
            .ok_or(AllocError)?;
        Ok(())
    }

    /// Numbers literals.
    fn lay_all(&mut self, lits: &[Lit]) -> Result<(), AllocError>
        ensures { OnOk result (self.new ≡ quoted_all lits.now self.old) }
    {
        let mut left = lits;
        while let Some((lit, others)) = left.split_first() {
            self.lay(lit, left)?;
            left = others;
        }
        Ok(())
    }
}

/// The rows and atoms of a program.
pub fn flow_of(alloc: Global, named: &Named) -> Result<Flow, AllocError>
    ensures { IfOk result (λ flow. flow ≡ flow_of (form named.now)) }
{
    let procs = named.procs.as_slice();
    let closures = narrow(procs.len().saturating_sub(1))?;
    let mut layout = Layout::new(alloc, named.tops, closures)?;
    lay_all(alloc, &mut layout, procs)?;
    let kinds = kinds_of(alloc, &layout)?;
    let mut quoted = Quoted::new(alloc, layout.rows, kinds);
    quoted.lay_all(named.lits.as_slice())?;
    joined(alloc, layout, quoted)
}

/// What is numbered, with the atoms of each kind.
fn joined(alloc: Global, layout: Layout, quoted: Quoted) -> Result<Flow, AllocError>
    ensures { IfOk result (λ flow. flow ≡ joined layout quoted) }
{
    let kinds = quoted.kinds.as_slice();
    let pairs = atoms_of(alloc, Which::Pairs, kinds)?;
    let fresh_pairs = atoms_of(alloc, Which::FreshPairs, kinds)?;
    let vectors = atoms_of(alloc, Which::Vectors, kinds)?;
    let fresh_vectors = atoms_of(alloc, Which::FreshVectors, kinds)?;
    let symbols = atoms_of(alloc, Which::Symbols, kinds)?;
    let continuations = atoms_of(alloc, Which::Continuations, kinds)?;
    Ok(Flow {
        rows: quoted.rows,
        vars: layout.vars,
        blocks: layout.blocks,
        entries: layout.entries,
        kinds: quoted.kinds,
        lits: quoted.lits,
        pairs,
        fresh_pairs,
        vectors,
        fresh_vectors,
        symbols,
        continuations,
    })
}
