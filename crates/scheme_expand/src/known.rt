//! Calls of the library that become operations at once.

ghost use Rattle.std.specs.Prelude.{ℕ, ◌≡◌, List as Seq, length, map, Some, is_some, OnOk, IfOk};
ghost use Rattle.scheme_base.specs.declared.pos.Pos.{Pos as Place};
ghost use Rattle.draft_form.specs.Drafts.{Draft as Tree, Drafts as Trees, Prim, Ref};
ghost use Rattle.draft_form.specs.Drawn.{Names, Data, Drawn, AllDrawn, name_of};
ghost use Rattle.scheme_expand.specs.declared.words.Known.TheVariants as known;
ghost use Rattle.scheme_expand.specs.Calls.{count as count_of, fresh, references, sum, folded as folded_of, Compares, way, comparison as comparison_of, listed, negated as negated_of, negation as negation_of, two, NotLess, bound_first};
ghost use Rattle.scheme_expand.specs.Making.{comparing, known_draft, instead, taken, left_of};
ghost use Rattle.scheme_expand.specs.Rewritten.{refs, over as over_of, rewritten as rewritten_of, IsAtOnce};
ghost use Rattle.scheme_expand.specs.Stacks.{Draws, Gives};
ghost use Rattle.scheme_expand.specs.Viewed.{IsMade, IsScope};
ghost use Rattle.scheme_expand.specs.Views.{Bound, Context, View, height};

use crate::make::Maker;
use crate::scope::above;
use crate::words::{Comparison, Known};
use core_form::What;
use draft_form::{Constant, Variable};
use scheme_base::{Ids, List, Op, Pos};
use std::alloc::AllocError;

impl Known {
    /// Whether a call with so many operands is this.
    pub(crate) fn takes(self, count: usize) -> bool
        ensures { (p : Place) (level : ℕ) (es : Trees) → count_of es ≡ count → result ≡ is_some (known_draft p level self es) }
    {
        match self {
            Known::Operation(op) => count == op.operands(),
            Known::Not => count == 1,
            Known::Fold(..) | Known::List => true,
            Known::Subtract => count >= 1,
            Known::Compare(_) => count >= 2,
            Known::Symbols => count == 0,
        }
    }

    /// The operation that a call with so many operands is at once, if it is one.
    fn operation(self, count: usize) -> Option<Op>
        ensures { IsAtOnce result self count }
    {
        match self {
            Known::Operation(op) => Some(op),
            _ => { if count == 2 { self.of_two() } else { None } }
        }
    }

    /// The same with two operands.
    fn of_two(self) -> Option<Op>
        ensures { IsAtOnce result self 2 }
    {
        match self {
            Known::Operation(op) | Known::Fold(op, _) => Some(op),
            Known::Subtract => Some(Op::Subtract),
            Known::Compare(comparison) => comparison.operation(),
            Known::Not | Known::List | Known::Symbols => None,
        }
    }
}

impl Comparison {
    /// The operation that compares two operands so, if there is one.
    fn operation(self) -> Option<Op>
        ensures { IsAtOnce result (known.Compare self) 2 }
    {
        match self {
            Comparison::Equal => Some(Op::Equals),
            Comparison::Less => Some(Op::Less),
            Comparison::Greater | Comparison::AtMost | Comparison::AtLeast => None,
        }
    }
}

impl Maker {
    /// A call whose operands are made.
    pub(crate) fn known_call(
        &mut self,
        pos: Pos,
        known: Known,
        count: usize,
    ) -> Result<u32, AllocError>
        ensures { IfOk result (λ id. (c : Context) (v : View) (d : Tree) → IsMade c self.old v → known_draft pos (height v) known (taken count v.made) ≡ Some d → Gives c self.new id (instead v (left_of count v.made) d)) }
    {
        let operands = self.take_all(count)?;
        if let Some(op) = known.operation(count) {
            return self.drafts.add(What::Prim { op, operands }, pos);
        }
        self.rewritten(pos, known, operands)
    }

    /// A call that is no operation at once.
    fn rewritten(&mut self, pos: Pos, known: Known, operands: Ids) -> Result<u32, AllocError>
        ensures kept { OnOk result (Draws self.old self.new) }
        ensures drawn { IfOk result (λ id. (names : Names) (nodes : Data) (bs : Seq Bound) (es : Trees) (d : Tree) → IsScope names self.old.scope bs → AllDrawn names nodes self.old.drafts operands es → rewritten_of pos (length bs) known es ≡ Some d → Drawn names nodes self.new.drafts id d) }
    {
        match known {
            Known::Not => self.negated(pos, operands.as_slice()),
            Known::Symbols => self.drafts.constant(Constant::Symbols, pos),
            _ => self.held_first(pos, known, operands),
        }
    }

    fn negated(&mut self, pos: Pos, operands: &[u32]) -> Result<u32, AllocError>
        ensures kept { OnOk result (Draws self.old self.new) }
        ensures drawn { IfOk result (λ id. (names : Names) (nodes : Data) (es : Trees) (d : Tree) → AllDrawn names nodes self.old.drafts operands.now es → negated_of pos es ≡ Some d → Drawn names nodes self.new.drafts id d) }
    {
        let [test] = operands else {
            return Err(AllocError);
        };
        self.negation(pos, *test)
    }

    fn negation(&mut self, pos: Pos, test: u32) -> Result<u32, AllocError>
        ensures kept { OnOk result (Draws self.old self.new) }
        ensures drawn { IfOk result (λ id. (names : Names) (nodes : Data) (e : Tree) → Drawn names nodes self.old.drafts test e → Drawn names nodes self.new.drafts id (negation_of pos e)) }
    {
        let yes = self.drafts.constant(Constant::Boolean(false), pos)?;
        let no = self.drafts.constant(Constant::Boolean(true), pos)?;
        self.drafts.conditional(test, yes, no, pos)
    }

    /// An expression over fresh variables, which hold the operands if there are some.
    fn held_first(&mut self, pos: Pos, known: Known, operands: Ids) -> Result<u32, AllocError>
        ensures kept { OnOk result (Draws self.old self.new) }
        ensures drawn { IfOk result (λ id. (names : Names) (nodes : Data) (bs : Seq Bound) (es : Trees) (d : Tree) → IsScope names self.old.scope bs → AllDrawn names nodes self.old.drafts operands es → bound_first pos (length bs) es (over_of pos known (references pos (length bs) es)) ≡ Some d → Drawn names nodes self.new.drafts id d) }
    {
        let held = self.held(operands.len())?;
        let body = self.over(pos, known, held.as_slice())?;
        if operands.is_empty() {
            return Ok(body);
        }
        self.drafts.bind(held, body, operands, pos)
    }

    /// As many fresh variables.
    fn held(&self, count: usize) -> Result<List<Variable>, AllocError>
        ensures { IfOk result (λ held. (names : Names) (bs : Seq Bound) (es : Trees) → IsScope names self.now.scope bs → count_of es ≡ count → map (name_of names) held ≡ fresh (length bs) es) }
    {
        let first = self.scope.level()?;
        let mut held = List::new(self.alloc);
        for index in 0..count {
            let level = above(first, index)?;
            held.push(Variable::Fresh { level })?;
        }
        Ok(held)
    }

    /// What a call does with variables.
    fn over(&mut self, pos: Pos, known: Known, held: &[Variable]) -> Result<u32, AllocError>
        ensures kept { OnOk result (Draws self.old self.new) }
        ensures drawn { IfOk result (λ id. (names : Names) (nodes : Data) (d : Tree) → over_of pos known (refs names pos held.now) ≡ Some d → Drawn names nodes self.new.drafts id d) }
    {
        match known {
            Known::Fold(op, start) => self.fold(pos, op, start, held),
            Known::Subtract => self.fold(pos, Op::Subtract, 0, held),
            Known::Compare(comparison) => self.chain(pos, comparison, held),
            Known::List => self.pairs(pos, held),
            Known::Operation(_) | Known::Not | Known::Symbols => Err(AllocError),
        }
    }

    /// An operation over variables, from the left; over one, on an integer and it; over none, the integer.
    fn fold(&mut self, pos: Pos, op: Op, start: i64, held: &[Variable]) -> Result<u32, AllocError>
        ensures kept { OnOk result (Draws self.old self.new) }
        ensures drawn { IfOk result (λ id. (names : Names) (nodes : Data) → Drawn names nodes self.new.drafts id (sum pos op start (refs names pos held.now))) }
    {
        if held.len() < 2 {
            let first = self.drafts.constant(Constant::Integer(start), pos)?;
            return self.folded(pos, op, first, held);
        }
        let Some((first, others)) = held.split_first() else {
            return Err(AllocError);
        };
        let first = self.drafts.reference(*first, pos)?;
        self.folded(pos, op, first, others)
    }

    /// An operation with one variable after another.
    fn folded(&mut self, pos: Pos, op: Op, first: u32, held: &[Variable]) -> Result<u32, AllocError>
        ensures kept { OnOk result (Draws self.old self.new) }
        ensures drawn { IfOk result (λ id. (names : Names) (nodes : Data) (e : Tree) → Drawn names nodes self.old.drafts first e → Drawn names nodes self.new.drafts id (folded_of pos op e (refs names pos held.now))) }
    {
        let mut value = first;
        let mut rest = held;
        while let Some((next, others)) = rest.split_first() {
            let operand = self.drafts.reference(*next, pos)?;
            value = self.drafts.binary(op, value, operand, pos)?;
            rest = others;
        }
        Ok(value)
    }

    /// Whether each two neighbours compare so.
    fn chain(
        &mut self,
        pos: Pos,
        comparison: Comparison,
        held: &[Variable],
    ) -> Result<u32, AllocError>
        ensures kept { OnOk result (Draws self.old self.new) }
        ensures drawn { IfOk result (λ id. (names : Names) (nodes : Data) (d : Tree) → way pos (Compares (comparing comparison)) (refs names pos held.now) ≡ Some d → Drawn names nodes self.new.drafts id d) }
    {
        let Some((second, before)) = held.split_last() else {
            return Err(AllocError);
        };
        let Some((first, before)) = before.split_last() else {
            return Err(AllocError);
        };
        let mut all = self.compare(pos, comparison, *first, *second)?;
        let mut next = *first;
        let mut rest = before;
        while let Some((last, others)) = rest.split_last() {
            let test = self.compare(pos, comparison, *last, next)?;
            let no = self.drafts.constant(Constant::Boolean(false), pos)?;
            all = self.drafts.conditional(test, all, no, pos)?;
            next = *last;
            rest = others;
        }
        Ok(all)
    }

    fn compare(
        &mut self,
        pos: Pos,
        comparison: Comparison,
        first: Variable,
        second: Variable,
    ) -> Result<u32, AllocError>
        ensures kept { OnOk result (Draws self.old self.new) }
        ensures drawn { IfOk result (λ id. (names : Names) (nodes : Data) → Drawn names nodes self.new.drafts id (comparison_of pos (comparing comparison) (Ref pos (name_of names first)) (Ref pos (name_of names second)))) }
    {
        match comparison {
            Comparison::Equal => self.binary(pos, Op::Equals, first, second),
            Comparison::Less => self.binary(pos, Op::Less, first, second),
            Comparison::Greater => self.binary(pos, Op::Less, second, first),
            Comparison::AtMost => self.not_less(pos, second, first),
            Comparison::AtLeast => self.not_less(pos, first, second),
        }
    }

    fn not_less(&mut self, pos: Pos, first: Variable, second: Variable) -> Result<u32, AllocError>
        ensures kept { OnOk result (Draws self.old self.new) }
        ensures drawn { IfOk result (λ id. (names : Names) (nodes : Data) → Drawn names nodes self.new.drafts id (comparison_of pos NotLess (Ref pos (name_of names first)) (Ref pos (name_of names second)))) }
    {
        let test = self.binary(pos, Op::Less, first, second)?;
        self.negation(pos, test)
    }

    /// An operation on two variables.
    fn binary(
        &mut self,
        pos: Pos,
        op: Op,
        first: Variable,
        second: Variable,
    ) -> Result<u32, AllocError>
        ensures kept { OnOk result (Draws self.old self.new) }
        ensures drawn { IfOk result (λ id. (names : Names) (nodes : Data) → Drawn names nodes self.new.drafts id (Prim pos op (two (Ref pos (name_of names first)) (Ref pos (name_of names second))))) }
    {
        let first = self.drafts.reference(first, pos)?;
        let second = self.drafts.reference(second, pos)?;
        self.drafts.binary(op, first, second, pos)
    }

    /// The list of variables.
    fn pairs(&mut self, pos: Pos, held: &[Variable]) -> Result<u32, AllocError>
        ensures kept { OnOk result (Draws self.old self.new) }
        ensures drawn { IfOk result (λ id. (names : Names) (nodes : Data) → Drawn names nodes self.new.drafts id (listed pos (refs names pos held.now))) }
    {
        let mut list = self.drafts.constant(Constant::Nil, pos)?;
        let mut rest = held;
        while let Some((last, others)) = rest.split_last() {
            let car = self.drafts.reference(*last, pos)?;
            list = self.drafts.binary(Op::Cons, car, list, pos)?;
            rest = others;
        }
        Ok(list)
    }
}
