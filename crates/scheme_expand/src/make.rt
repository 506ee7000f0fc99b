//! Expressions from their parts.

ghost use Rattle.std.specs.Prelude.{ℕ, ◌≡◌, ◌+◌, List as Seq, [], ◌∷◌, length, map, None, OnOk, IfOk};
ghost use Rattle.std.specs.Option.{option_map};
ghost use Rattle.scheme_base.specs.declared.op.Op.TheVariants.{Eqv};
ghost use Rattle.scheme_base.specs.Constants.{Constant as Quoted};
ghost use Rattle.draft_form.specs.declared.draft.Constant.TheVariants as held;
ghost use Rattle.draft_form.specs.Drafts.{Draft, Drafts as Trees, Fresh, Lambda, Const, Ref, Call, Prim, Seq as Sequence, none, ◌then◌};
ghost use Rattle.draft_form.specs.Drawn.{name_of, Names, Data, Drawn, AllDrawn};
ghost use Rattle.draft_form.specs.Quoted.{IsHeld};
ghost use Rattle.scheme_expand.specs.declared.step.Step.TheVariants as steps;
ghost use Rattle.scheme_expand.specs.Calls.{one, two};
ghost use Rattle.scheme_expand.specs.Making.{ComesTo, lambda_made};
ghost use Rattle.scheme_expand.specs.Rewriting.{assignments, letrec_by_set as by_set, level as level_of, undefined as undefined_of, unnamed, variables as variables_of, Scope as Around};
ghost use Rattle.scheme_expand.specs.Stacks.{Draws, Makes, Takes};
ghost use Rattle.scheme_expand.specs.Viewed.{AreHelpers, AreWords, IsMade};
ghost use Rattle.scheme_expand.specs.Views.{Context, View, empty_view, pushed};

use crate::scope::{Scope, above};
use crate::step::Step;
use crate::words::Helpers;
use core_form::What;
use draft_form::{Constant, Drafts, Variable};
use quasi_expand::Part;
use scheme_base::{Ids, List, Op, Pos};
use std::alloc::{AllocError, Global};

/// What is made, and the scope in which it is.
#[derive(Drop)]
pub(crate) struct Maker {
    pub(crate) alloc: Global,
    pub(crate) helpers: Helpers,
    pub(crate) scope: Scope,
    pub(crate) drafts: Drafts,
    /// The expressions that are made and stand in none yet.
    pub(crate) made: Vec<u32>,
}

impl Maker {
    /// Nothing, where there are so many names.
    pub(crate) fn new(alloc: Global, helpers: Helpers, names: usize) -> Result<Maker, AllocError>
        ensures { IfOk result (λ maker. (c : Context) → AreWords c.names → AreHelpers c.names helpers → names ≡ length c.names → IsMade c maker (empty_view c.names)) }
    {
        Ok(Maker {
            alloc,
            helpers,
            scope: Scope::new(alloc, names)?,
            drafts: Drafts::new(alloc),
            made: Vec::new(alloc),
        })
    }

    /// The expression that was made last.
    pub(crate) fn take(&mut self) -> Result<u32, AllocError>
        ensures { IfOk result (λ id. Takes self.old self.new (id ∷ [])) }
    {
        match self.made.pop() {
            Some(id) => Ok(id),
            None => Err(AllocError),
        }
    }

    /// The expressions that were made last, in order.
    pub(crate) fn take_all(&mut self, count: usize) -> Result<Ids, AllocError>
        ensures { IfOk result (λ ids. Takes self.old self.new ids × (length ids ≡ count)) }
    {
        let Some(start) = self.made.len().checked_sub(count) else {
            return Err(AllocError);
        };
        let Some(last) = self.made.get(start..) else {
            return Err(AllocError);
        };
        let ids = Ids::from_slice(self.alloc, last)?;
        self.made.truncate(start);
        Ok(ids)
    }

    /// Makes the expression that a step comes to, whose parts are made.
    pub(crate) fn add(&mut self, step: Step) -> Result<(), AllocError>
        ensures { OnOk result ((c : Context) (v w : View) → IsMade c self.old v → ComesTo c step.entry v w → IsMade c self.new w) }
    {
        let id = self.make(step)?;
        self.made.push(id)?;
        Ok(())
    }

    pub(crate) fn constant(&mut self, constant: Constant, pos: Pos) -> Result<(), AllocError>
        ensures { OnOk result ((c : Context) (v : View) (a : Quoted) → IsMade c self.old v → IsHeld c.source.nodes.now constant a → IsMade c self.new (pushed (Const pos a) v)) }
    {
        let id = self.drafts.constant(constant, pos)?;
        self.made.push(id)?;
        Ok(())
    }

    /// The expression that a step comes to, whose parts are made.
    fn make(&mut self, step: Step) -> Result<u32, AllocError>
        ensures { IfOk result (Makes step.entry self.old self.new) }
    {
        match step {
            Step::Unspecified(pos) => self.drafts.constant(Constant::Unspecified, pos),
            Step::Reference(pos, variable) => self.drafts.reference(variable, pos),
            Step::Sequence(pos, count) => {
                let items = self.take_all(count)?;
                self.drafts.add(What::Seq { items }, pos)
            }
            Step::Call(pos, count) => {
                let operands = self.take_all(count)?;
                let operator = self.take()?;
                self.drafts.add(What::Call { operator, operands }, pos)
            }
            Step::Known(pos, known, count) => self.known_call(pos, known, count),
            Step::If(pos) => {
                let no = self.take()?;
                let yes = self.take()?;
                let test = self.take()?;
                self.drafts.conditional(test, yes, no, pos)
            }
            Step::Branch(pos) => {
                let test = self.take()?;
                let yes = self.take()?;
                let no = self.take()?;
                self.drafts.conditional(test, yes, no, pos)
            }
            Step::Both(pos) => {
                let test = self.take()?;
                let yes = self.take()?;
                let no = self.drafts.constant(Constant::Boolean(false), pos)?;
                self.drafts.conditional(test, yes, no, pos)
            }
            Step::Template(pos, part) => self.part(pos, part),
            other => self.make_bound(other),
        }
    }

    /// The same, where variables are bound or changed.
    fn make_bound(&mut self, step: Step) -> Result<u32, AllocError>
        ensures { IfOk result (Makes step.entry self.old self.new) }
    {
        match step {
            Step::Either(pos, level) => {
                let value = self.take()?;
                let rest = self.take()?;
                self.drafts.either(level, value, rest, pos)
            }
            Step::Receive(pos, level) => self.receive(pos, level),
            Step::IsAmong(pos, data, level) => self.is_among(pos, data, level),
            Step::Assign(pos, var) => {
                let value = self.take()?;
                self.drafts.add(What::Set { var, value }, pos)
            }
            Step::Define(pos, var) => {
                let value = self.take()?;
                self.drafts.add(What::Define { var, value }, pos)
            }
            Step::Lambda(pos, level, has_rest) => self.make_lambda(pos, level, has_rest),
            Step::Bind(pos, variable) => {
                let value = self.take()?;
                let body = self.take()?;
                self.drafts.bind_one(variable, body, value, pos)
            }
            Step::Letrec(pos, level, all_lambdas) => self.make_letrec(pos, level, all_lambdas),
            Step::Loop(pos, level) => self.make_loop(pos, level),
            _ => Err(AllocError),
        }
    }

    /// `((lambda (v) (if v call rest)) test)`
    fn receive(&mut self, pos: Pos, level: u32) -> Result<u32, AllocError>
        ensures { IfOk result (Makes (steps.Receive pos level) self.old self.new) }
    {
        let test = self.take()?;
        let yes = self.take()?;
        let no = self.take()?;
        let value = Variable::Fresh { level };
        let held = self.drafts.reference(value, pos)?;
        let body = self.drafts.conditional(held, yes, no, pos)?;
        self.drafts.bind_one(value, body, test, pos)
    }

    /// Whether the fresh variable of a level is one of these data: an `or` of comparisons.
    fn is_among(&mut self, pos: Pos, ids: &[u32], level: u32) -> Result<u32, AllocError>
        ensures { IfOk result (Makes (steps.IsAmong pos ids.entry level) self.old self.new) }
    {
        let Some((last, others)) = ids.split_last() else {
            return self.drafts.constant(Constant::Boolean(false), pos);
        };
        let mut test = self.is_datum(pos, *last, level)?;
        let mut rest = others;
        while let Some((id, before)) = rest.split_last() {
            let held = above(level, rest.len())?;
            let value = self.is_datum(pos, *id, level)?;
            test = self.drafts.either(held, value, test, pos)?;
            rest = before;
        }
        Ok(test)
    }

    /// `(%eqv? v 'datum)`
    fn is_datum(&mut self, pos: Pos, datum: u32, level: u32) -> Result<u32, AllocError>
        ensures kept { OnOk result (Draws self.old self.new) }
        ensures drawn { IfOk result (λ id. (names : Names) (nodes : Data) (a : Quoted) → IsHeld nodes (held.Datum datum) a → Drawn names nodes self.new.drafts id (Prim pos Eqv (two (Ref pos (Fresh level)) (Const pos a)))) }
    {
        let key = self.drafts.reference(Variable::Fresh { level }, pos)?;
        let datum = self.drafts.constant(Constant::Datum(datum), pos)?;
        self.drafts.binary(Op::Eqv, key, datum, pos)
    }

    fn make_lambda(&mut self, pos: Pos, level: u32, has_rest: bool) -> Result<u32, AllocError>
        ensures { IfOk result (Makes (steps.Lambda pos level has_rest) self.old self.new) }
    {
        let variables = self.scope.variables_from(self.alloc, level)?;
        self.scope.leave(level);
        let body = self.take()?;
        let (params, rest) = without_rest(variables, has_rest);
        self.drafts.add(What::Lambda { params, rest, body }, pos)
    }

    /// A `Fix` where all values are lambda expressions and nothing assigns the variables; else the variables
    /// are undefined first, and are assigned when all values are known.
    fn make_letrec(&mut self, pos: Pos, level: u32, all_lambdas: bool) -> Result<u32, AllocError>
        ensures { IfOk result (Makes (steps.Letrec pos level all_lambdas) self.old self.new) }
    {
        let variables = self.scope.variables_from(self.alloc, level)?;
        let assigned = self.scope.assigns_from(level);
        self.scope.leave(level);
        let values = self.take_all(variables.len())?;
        let body = self.take()?;
        if !all_lambdas || assigned {
            return self.letrec_by_set(pos, level, variables, values, body);
        }
        let fix = What::Fix {
            vars: List::from_vec(variables),
            lambdas: values,
            body,
        };
        self.drafts.add(fix, pos)
    }

    /// A `Fix` of one procedure, which nothing assigns.
    fn make_loop(&mut self, pos: Pos, level: u32) -> Result<u32, AllocError>
        ensures { IfOk result (Makes (steps.Loop pos level) self.old self.new) }
    {
        self.scope.leave(level);
        let procedure = self.take()?;
        let body = self.take()?;
        let vars = List::from_slice(self.alloc, &[Variable::Fresh { level }])?;
        let lambdas = Ids::from_slice(self.alloc, &[procedure])?;
        let fix = What::Fix {
            vars,
            lambdas,
            body,
        };
        self.drafts.add(fix, pos)
    }

    /// A `letrec` of variables from a level on, which are undefined first.
    fn letrec_by_set(
        &mut self,
        pos: Pos,
        level: u32,
        variables: Vec<Variable>,
        values: Ids,
        body: u32,
    ) -> Result<u32, AllocError>
        ensures kept { OnOk result (Draws self.old self.new) }
        ensures drawn { IfOk result (λ id. (names : Names) (nodes : Data) (scope : Around) (xs : Seq (Seq ℕ)) (es : Trees) (e : Draft) → level_of scope ≡ level → map (name_of names) variables.items ≡ variables_of level xs → AllDrawn names nodes self.old.drafts values es → Drawn names nodes self.old.drafts body e → Drawn names nodes self.new.drafts id (by_set pos scope xs es e)) }
    {
        let inside = above(level, variables.len())?;
        let fresh = self.fresh_from(inside, variables.len())?;
        let assigned = self.assign_all(pos, &variables, inside, body)?;
        let inner = self.drafts.bind(fresh, assigned, values, pos)?;
        let undefined = self.undefined(pos, variables.len())?;
        self.drafts
            .bind(List::from_vec(variables), inner, undefined, pos)
    }

    /// As many fresh variables from a level on.
    pub(crate) fn fresh_from(&self, level: u32, count: usize) -> Result<List<Variable>, AllocError>
        ensures { IfOk result (λ fresh. (names : Names) → map (name_of names) fresh ≡ variables_of level (unnamed count)) }
    {
        let mut fresh = List::new(self.alloc);
        for index in 0..count {
            let level = above(level, index)?;
            fresh.push(Variable::Fresh { level })?;
        }
        Ok(fresh)
    }

    /// Assigns to variables the fresh ones from a level on, and goes on with `(let () body)`.
    fn assign_all(
        &mut self,
        pos: Pos,
        variables: &[Variable],
        level: u32,
        body: u32,
    ) -> Result<u32, AllocError>
        ensures kept { OnOk result (Draws self.old self.new) }
        ensures drawn { IfOk result (λ id. (names : Names) (nodes : Data) (to : ℕ) (xs : Seq (Seq ℕ)) (e : Draft) → map (name_of names) variables.now ≡ variables_of to xs → Drawn names nodes self.old.drafts body e → Drawn names nodes self.new.drafts id (Sequence pos (assignments pos to level xs then one (Call pos (Lambda pos [] None e) none)))) }
    {
        let mut items = Ids::new(self.alloc);
        let mut next = level;
        let mut rest = variables;
        while let Some((first, others)) = rest.split_first() {
            let value = self.drafts.reference(Variable::Fresh { level: next }, pos)?;
            let set = What::Set { var: *first, value };
            let id = self.drafts.add(set, pos)?;
            items.push(id)?;
            next = above(next, 1)?;
            rest = others;
        }
        let none = Ids::new(self.alloc);
        let last = self.drafts.bind(List::new(self.alloc), body, none, pos)?;
        items.push(last)?;
        self.drafts.add(What::Seq { items }, pos)
    }

    fn undefined(&mut self, pos: Pos, count: usize) -> Result<Ids, AllocError>
        ensures kept { OnOk result (Draws self.old self.new) }
        ensures drawn { IfOk result (λ ids. (names : Names) (nodes : Data) (xs : Seq (Seq ℕ)) → length xs ≡ count → AllDrawn names nodes self.new.drafts ids (undefined_of pos xs)) }
    {
        let mut values = Ids::new(self.alloc);
        for _value in 0..count {
            let value = self.drafts.constant(Constant::Undefined, pos)?;
            values.push(value)?;
        }
        Ok(values)
    }

    /// What a step of a template makes.
    fn part(&mut self, pos: Pos, part: Part) -> Result<u32, AllocError>
        ensures { IfOk result (Makes (steps.Template pos part) self.old self.new) }
    {
        match part {
            Part::Datum(id) => self.drafts.constant(Constant::Datum(id), pos),
            Part::Rest { node, from } => self.drafts.constant(Constant::Rest { node, from }, pos),
            Part::Expr(_) => Err(AllocError),
            Part::Cons => {
                let cdr = self.take()?;
                let car = self.take()?;
                self.drafts.binary(Op::Cons, car, cdr, pos)
            }
            Part::Join => {
                let rest = self.take()?;
                let items = self.take()?;
                let word = self.helpers.join;
                let join = self.drafts.reference(Variable::Library { word }, pos)?;
                self.drafts.call(join, &[items, rest], pos)
            }
            Part::Vector => {
                let items = self.take()?;
                let word = self.helpers.list_to_vector;
                let operator = self.drafts.reference(Variable::Library { word }, pos)?;
                self.drafts.call(operator, &[items], pos)
            }
        }
    }
}

/// The parameters of a procedure whose variables are these, and its rest parameter.
fn without_rest(variables: Vec<Variable>, has_rest: bool) -> (List<Variable>, Option<Variable>)
    ensures { (names : Names) (p : Pos) (e : Draft) → lambda_made p has_rest (map (name_of names) variables.items) e ≡ Lambda p (map (name_of names) result.0) (option_map (name_of names) result.1) e }
{
    if !has_rest {
        return (List::from_vec(variables), None);
    }
    let mut params = variables;
    match params.pop() {
        Some(rest) => (List::from_vec(params), Some(rest)),
        None => (List::from_vec(params), None),
    }
}
