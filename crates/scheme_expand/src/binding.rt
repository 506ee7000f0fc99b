//! The forms that bind variables (R4RS 4.2.2 and 4.2.4).

ghost use Rattle.std.specs.Prelude.{ℕ, ◌≡◌, ◌≤◌, ◌++◌, ◌∷◌, List as Seq, [], length, map, None, OnOk, IfOk, MatchOption, true, false};
ghost use Rattle.datum_form.specs.Data.{Datum, Items};
ghost use Rattle.datum_form.specs.Data.Items.{item};
ghost use Rattle.scheme_expand.specs.Forms.{Word, Exp, Bindings as Bound, Steps, Wrong, Do};
ghost use Rattle.quasi_expand.specs.Shapes.{all_items, is_list_of, is_step};
ghost use Rattle.scheme_expand.specs.Grammar.{step_words, bindings as bindings_in, twice as some_twice, is_binding, checked, let_form, let_star_form, letrec_form, do_form, step_list, expr as expression, exprs as all_exprs};
ghost use Rattle.scheme_expand.specs.Faults.{least, in_exp, in_exps, in_steps};
ghost use Rattle.scheme_expand.specs.Making.{from_level, AreRight, IsRight};
ghost use Rattle.scheme_expand.specs.Putting.{expr_steps, next_step, next_steps, nest_steps, no_name_steps, result_steps};
ghost use Rattle.scheme_expand.specs.Rewriting.{are_lambdas as are_procedures, variables as variables_of};
ghost use Rattle.scheme_expand.specs.Viewed.{IsView, Puts, Turns as TurnsTo};
ghost use Rattle.scheme_expand.specs.Views.{Context, View, height, seen};
ghost use Rattle.draft_form.specs.Drawn.{name_of};
ghost use Rattle.scheme_expand.specs.Waiting.{Reads, ReadAll, Adds, Keeps, named_datum};
ghost use Rattle.scheme_expand.specs.Shapes.{IsPair, AreBindings, AreBound, together_words, bound_checks, bound_form, named_form, AreTurns, those, value_exps};

use crate::body::{Body, read_body};
use crate::expander::Expander;
use crate::fault::Rule;
use crate::formals::twice;
use crate::scope::above;
use crate::source::Source;
use crate::step::Step;
use draft_form::Variable;
use quasi_expand::{DoLoop, do_binding, read_do};
use scheme_base::Pos;
use std::alloc::{AllocError, Global};

/// Names and the expressions of their values.
#[derive(Drop)]
struct Bindings {
    names: Vec<u32>,
    values: Vec<u32>,
}

/// The bindings of a `let`, if each is a list of a name and an expression.
fn read_bindings(alloc: Global, source: Source, id: u32) -> Result<Option<Bindings>, AllocError>
    ensures { IfOk result (λ found. (d : Datum) → Reads source.entry id d → MatchOption found (is_list_of is_binding d ≡ false) (λ pairs. (is_list_of is_binding d ≡ true) × AreBindings source.entry pairs (bindings_in d))) }
{
    let mut names = Vec::new(alloc);
    let mut values = Vec::new(alloc);
    let Some(bindings) = source.list(id) else {
        return Ok(None);
    };
    let mut rest = bindings;
    while let Some((first, others)) = rest.split_first() {
        let Some((name, value)) = read_binding(source, *first) else {
            return Ok(None);
        };
        names.push(name)?;
        values.push(value)?;
        rest = others;
    }
    Ok(Some(Bindings { names, values }))
}

/// The name and the expression of a binding, if it is one.
fn read_binding(source: Source, id: u32) -> Option<(u32, u32)>
    ensures { (d : Datum) → Reads source.entry id d → MatchOption result (is_binding d ≡ false) (λ pair. IsPair source.entry pair.0 pair.1 d) }
{
    let Some(items) = source.list(id) else {
        return None;
    };
    let [name, value] = items else {
        return None;
    };
    source.word(*name)?;
    Some((*name, *value))
}

/// Whether a name is bound twice by bindings that bind together.
fn bound_twice(
    alloc: Global,
    source: Source,
    bindings: &Bindings,
    together: bool,
) -> Result<bool, AllocError>
    ensures { IfOk result (λ found. (bs : Bound) → AreBindings source.entry bindings.now bs → found ≡ some_twice (together_words together bs)) }
{
    if together {
        twice(alloc, source, &bindings.names)
    } else {
        Ok(false)
    }
}

impl<'a> Expander<'a> {
    /// The bindings and the body of a form, if it is a good one; else it is noted as broken. Names that are
    /// bound together differ.
    fn bindings(
        &mut self,
        pos: Pos,
        operands: &'a [u32],
        together: bool,
    ) -> Result<Option<(Bindings, Body<'a>)>, AllocError>
        ensures fault { IfOk result (λ found. (ds : Items) → ReadAll self.old.source operands.now ds → MatchOption found ((e : Exp) → Adds self.old self.new (least (in_exp (checked pos (bound_checks together ds) e)))) (λ bound. Keeps self.old self.new × AreBound self.old.source together ds bound.0 bound.1)) }
        ensures core { IfOk result (λ found. MatchOption found ((ds : Items) (e : Exp) → ReadAll self.old.source operands.now ds → (n : ℕ) × (checked pos (bound_checks together ds) e ≡ Wrong pos n)) (λ bound. Puts self.old self.new [])) }
    {
        let Some((bindings, body)) = operands.split_first() else {
            self.broken(pos, Rule::Body)?;
            return Ok(None);
        };
        let Some(body) = read_body(self.alloc, self.source, body)? else {
            self.broken(pos, Rule::Body)?;
            return Ok(None);
        };
        let Some(bindings) = read_bindings(self.alloc, self.source, *bindings)? else {
            self.broken(pos, Rule::Bindings)?;
            return Ok(None);
        };
        if bound_twice(self.alloc, self.source, &bindings, together)? {
            self.broken(pos, Rule::Twice)?;
            return Ok(None);
        }
        if twice(self.alloc, self.source, &body.names)? {
            self.broken(pos, Rule::Twice)?;
            return Ok(None);
        }
        Ok(Some((bindings, body)))
    }

    /// Expressions, one after another.
    fn push_exprs(&mut self, exprs: &[u32]) -> Result<(), AllocError>
        ensures fault { OnOk result ((ds : Items) → ReadAll self.old.source exprs.now ds → Adds self.old self.new (least (in_exps (all_exprs ds)))) }
        ensures core { OnOk result (Puts self.old self.new (expr_steps exprs.now)) }
    {
        let mut rest = exprs;
        while let Some((last, others)) = rest.split_last() {
            self.wait(&[Step::Expr(*last)])?;
            rest = others;
        }
        Ok(())
    }

    /// `let`, with a name or without.
    pub(crate) fn any_let(&mut self, pos: Pos, operands: &'a [u32]) -> Result<(), AllocError>
        ensures fault { OnOk result ((ds : Items) → ReadAll self.old.source operands.now ds → Adds self.old self.new (least (in_exp (let_form pos ds)))) }
        ensures core { OnOk result ((c : Context) (v : View) (ds : Items) → IsView c self.old v → ReadAll c.source operands.now ds → IsRight (let_form pos ds) → TurnsTo c self.old self.new (seen c (let_form pos ds) v)) }
    {
        let Some((name, rest)) = operands.split_first() else {
            return self.broken(pos, Rule::Body);
        };
        match self.source.word(*name) {
            Some(_) => self.named_let(pos, *name, rest),
            None => self.plain_let(pos, operands),
        }
    }

    fn plain_let(&mut self, pos: Pos, operands: &'a [u32]) -> Result<(), AllocError>
        ensures fault { OnOk result ((ds : Items) → ReadAll self.old.source operands.now ds → Adds self.old self.new (least (in_exp (bound_form true pos ds)))) }
        ensures core { OnOk result ((c : Context) (v : View) (ds : Items) → IsView c self.old v → ReadAll c.source operands.now ds → IsRight (bound_form true pos ds) → TurnsTo c self.old self.new (seen c (bound_form true pos ds) v)) }
    {
        let Some((bindings, body)) = self.bindings(pos, operands, true)? else {
            return Ok(());
        };
        let level = self.maker.scope.level()?;
        self.enter(&bindings.names)?;
        self.wait(&[Step::Call(pos, bindings.values.len())])?;
        self.push_exprs(&bindings.values)?;
        self.wait(&[Step::Lambda(pos, level, false)])?;
        self.body(pos, &body)
    }

    /// `((letrec ((name (lambda (x ...) body))) name) e ...)`
    fn named_let(&mut self, pos: Pos, name: u32, operands: &'a [u32]) -> Result<(), AllocError>
        ensures fault { OnOk result ((w : Word) (ds : Items) → Reads self.old.source name (named_datum w) → ReadAll self.old.source operands.now ds → Adds self.old self.new (least (in_exp (named_form pos w ds)))) }
        ensures core { OnOk result ((c : Context) (v : View) (w : Word) (ds : Items) → IsView c self.old v → Reads c.source name (named_datum w) → ReadAll c.source operands.now ds → IsRight (named_form pos w ds) → TurnsTo c self.old self.new (seen c (named_form pos w ds) v)) }
    {
        let Some((bindings, body)) = self.bindings(pos, operands, true)? else {
            return Ok(());
        };
        let level = self.maker.scope.level()?;
        let word = self.name(name)?;
        self.maker.scope.bind(word)?;
        let inner = self.maker.scope.level()?;
        self.maker
            .add(Step::Reference(pos, Variable::Local { level, word }))?;
        self.enter(&bindings.names)?;
        self.wait(&[Step::Call(pos, bindings.values.len())])?;
        self.push_exprs(&bindings.values)?;
        self.wait(&[
            Step::Letrec(pos, level, true),
            Step::Lambda(pos, inner, false),
        ])?;
        self.body(pos, &body)
    }

    /// Nested `let`s of one variable each, or one of none.
    pub(crate) fn let_star(&mut self, pos: Pos, operands: &'a [u32]) -> Result<(), AllocError>
        ensures fault { OnOk result ((ds : Items) → ReadAll self.old.source operands.now ds → Adds self.old self.new (least (in_exp (bound_form false pos ds)))) }
        ensures core { OnOk result ((c : Context) (v : View) (ds : Items) → IsView c self.old v → ReadAll c.source operands.now ds → IsRight (let_star_form pos ds) → TurnsTo c self.old self.new (seen c (let_star_form pos ds) v)) }
    {
        let Some((bindings, body)) = self.bindings(pos, operands, false)? else {
            return Ok(());
        };
        let level = self.maker.scope.level()?;
        self.enter(&bindings.names)?;
        self.no_names(pos, &bindings.names, level)?;
        let variables = self.maker.scope.variables_from(self.alloc, level)?;
        self.nest(pos, &variables, &bindings.values, level)?;
        self.body(pos, &body)
    }

    /// A procedure without variables, where there are none.
    fn no_names(&mut self, pos: Pos, names: &[u32], level: u32) -> Result<(), AllocError>
        ensures fault { OnOk result (Adds self.old self.new None) }
        ensures core { OnOk result (Puts self.old self.new (no_name_steps pos names.now level)) }
    {
        if names.is_empty() {
            return self.wait(&[Step::Call(pos, 0), Step::Lambda(pos, level, false)]);
        }
        Ok(())
    }

    /// Binds variables, which are those from a level on, one inside another.
    fn nest(
        &mut self,
        pos: Pos,
        variables: &[Variable],
        values: &[u32],
        level: u32,
    ) -> Result<(), AllocError>
        ensures fault { OnOk result ((ds : Items) → ReadAll self.old.source values.now ds → Adds self.old self.new (least (in_exps (all_exprs ds)))) }
        ensures core { OnOk result (Puts self.old self.new (nest_steps pos level variables.now values.now)) }
    {
        let mut next = level;
        let mut later = variables;
        let mut rest = values;
        while let Some((value, others)) = rest.split_first() {
            let Some((variable, inner)) = later.split_first() else {
                return Err(AllocError);
            };
            self.wait(&[
                Step::Bind(pos, *variable),
                Step::Expr(*value),
                Step::Leave(next),
            ])?;
            next = above(next, 1)?;
            later = inner;
            rest = others;
        }
        Ok(())
    }

    pub(crate) fn letrec(&mut self, pos: Pos, operands: &'a [u32]) -> Result<(), AllocError>
        ensures fault { OnOk result ((ds : Items) → ReadAll self.old.source operands.now ds → Adds self.old self.new (least (in_exp (bound_form true pos ds)))) }
        ensures core { OnOk result ((c : Context) (v : View) (ds : Items) → IsView c self.old v → ReadAll c.source operands.now ds → IsRight (letrec_form pos ds) → TurnsTo c self.old self.new (seen c (letrec_form pos ds) v)) }
    {
        let Some((bindings, body)) = self.bindings(pos, operands, true)? else {
            return Ok(());
        };
        let level = self.maker.scope.level()?;
        self.enter(&bindings.names)?;
        let inner = self.maker.scope.level()?;
        self.maker.scope.bind_all_fresh(bindings.names.len())?;
        let all_lambdas = self.are_lambdas(&bindings.values);
        self.wait(&[Step::Letrec(pos, level, all_lambdas)])?;
        self.push_exprs(&bindings.values)?;
        self.wait(&[Step::Leave(inner)])?;
        self.body(pos, &body)
    }

    /// Whether these are lambda expressions.
    fn are_lambdas(&self, exprs: &[u32]) -> bool
        ensures { (bs : Bound) (ds : Items) → ReadAll self.now.source exprs.now ds → value_exps bs ≡ all_exprs ds → AreRight (all_exprs ds) → result ≡ are_procedures bs }
    {
        let mut rest = exprs;
        while let Some((first, others)) = rest.split_first() {
            if !self.source.is_lambda(*first) {
                return false;
            }
            rest = others;
        }
        true
    }

    /// `(do (binding ..) (test result ..) command ..)`, with these items.
    pub(crate) fn do_loop(&mut self, pos: Pos, items: &'a [u32]) -> Result<(), AllocError>
        ensures fault { OnOk result ((d : Datum) (ds : Items) → ReadAll self.old.source items.now (item d ds) → Adds self.old self.new (least (in_exp (do_form pos ds)))) }
        ensures core { OnOk result ((c : Context) (v : View) (d : Datum) (ds : Items) → IsView c self.old v → ReadAll c.source items.now (item d ds) → IsRight (do_form pos ds) → TurnsTo c self.old self.new (seen c (do_form pos ds) v)) }
    {
        let Some(parts) = read_do(self.source.nodes, items) else {
            return self.broken(pos, Rule::Do);
        };
        let turns = read_turns(self.alloc, self.source, parts.bindings)?;
        if twice(self.alloc, self.source, &turns.names)? {
            return self.broken(pos, Rule::Twice);
        }
        self.repeat(pos, parts, &turns)
    }

    /// A procedure without a name in the text, which calls itself with the values for the next turn.
    fn repeat(&mut self, pos: Pos, parts: DoLoop<'a>, turns: &Turns) -> Result<(), AllocError>
        ensures fault { OnOk result ((ss : Steps) (t : Datum) (rs cs : Items) → AreTurns self.old.source turns.now ss → Reads self.old.source parts.entry.test t → ReadAll self.old.source parts.entry.results.now rs → ReadAll self.old.source parts.entry.commands.now cs → Adds self.old self.new (least (in_steps ss ++ (in_exp (expression t) ++ (in_exps (all_exprs rs) ++ in_exps (all_exprs cs)))))) }
        ensures core { OnOk result ((c : Context) (v : View) (ss : Steps) (t : Datum) (rs cs : Items) → IsView c self.old v → AreTurns c.source turns.now ss → Reads c.source parts.entry.test t → ReadAll c.source parts.entry.results.now rs → ReadAll c.source parts.entry.commands.now cs → some_twice (step_words ss) ≡ false → IsRight (Do pos ss (expression t) (all_exprs rs) (all_exprs cs)) → TurnsTo c self.old self.new (seen c (Do pos ss (expression t) (all_exprs rs) (all_exprs cs)) v)) }
    {
        let level = self.maker.scope.level()?;
        self.maker.scope.bind_fresh()?;
        let inner = self.maker.scope.level()?;
        self.enter(&turns.names)?;
        let again = Step::Reference(pos, Variable::Fresh { level });
        let count = turns.names.len();
        let Some(together) = parts.commands.len().checked_add(1) else {
            return Err(AllocError);
        };
        self.wait(&[Step::Call(pos, count)])?;
        self.push_exprs(&turns.inits)?;
        self.wait(&[
            Step::Loop(pos, level),
            Step::Lambda(pos, inner, false),
            Step::If(pos),
            Step::Sequence(pos, together),
            Step::Call(pos, count),
        ])?;
        self.next_values(pos, &turns.steps, inner)?;
        self.wait(&[again, Step::Exprs(parts.commands)])?;
        self.results(pos, parts.results)?;
        self.wait(&[Step::Expr(parts.test), again])
    }

    /// The values for the next turn: those of the steps, or the variables, which are those from a level on.
    fn next_values(&mut self, pos: Pos, steps: &[Option<u32>], level: u32) -> Result<(), AllocError>
        ensures fault { OnOk result ((ds : Items) → ReadAll self.old.source (those steps.now) ds → Adds self.old self.new (least (in_exps (all_exprs ds)))) }
        ensures core { OnOk result ((c : Context) (v : View) → IsView c self.old v → level ≤ height v → length (from_level level v.bound) ≡ length steps.now → (xs : Seq Variable) × (map (name_of c.names) xs ≡ variables_of level (from_level level v.bound)) × Puts self.old self.new (next_steps pos steps.now xs)) }
    {
        let variables = self.maker.scope.variables_from(self.alloc, level)?;
        let mut later = variables.as_slice();
        let mut rest = steps;
        while let Some((last, others)) = rest.split_last() {
            let Some((variable, before)) = later.split_last() else {
                return Err(AllocError);
            };
            self.next_value(pos, *last, *variable)?;
            later = before;
            rest = others;
        }
        Ok(())
    }

    /// The value of a step, or a variable where there is none.
    fn next_value(
        &mut self,
        pos: Pos,
        step: Option<u32>,
        variable: Variable,
    ) -> Result<(), AllocError>
        ensures fault { OnOk result ((ds : Items) → ReadAll self.old.source (those (step ∷ [])) ds → Adds self.old self.new (least (in_exps (all_exprs ds)))) }
        ensures core { OnOk result (Puts self.old self.new (next_step pos step variable ∷ [])) }
    {
        match step {
            Some(id) => self.wait(&[Step::Expr(id)]),
            None => self.wait(&[Step::Reference(pos, variable)]),
        }
    }

    /// What a `do` comes to: a `Seq` of its results, or nothing.
    fn results(&mut self, pos: Pos, exprs: &'a [u32]) -> Result<(), AllocError>
        ensures fault { OnOk result ((ds : Items) → ReadAll self.old.source exprs.now ds → Adds self.old self.new (least (in_exps (all_exprs ds)))) }
        ensures core { OnOk result (Puts self.old self.new (result_steps pos exprs.entry)) }
    {
        if exprs.is_empty() {
            return self.wait(&[Step::Unspecified(pos)]);
        }
        self.wait(&[Step::Sequence(pos, exprs.len()), Step::Exprs(exprs)])
    }
}

/// The variables of a `do`, what they are first, and what they are in the next turn, where that is written.
#[derive(Drop)]
struct Turns {
    names: Vec<u32>,
    inits: Vec<u32>,
    steps: Vec<Option<u32>>,
}

/// The variables that the bindings of a `do` bind.
fn read_turns(alloc: Global, source: Source, bindings: &[u32]) -> Result<Turns, AllocError>
    ensures { IfOk result (λ turns. (ds : Items) → ReadAll source.entry bindings.now ds → all_items is_step ds ≡ true → AreTurns source.entry turns (step_list ds)) }
{
    let mut names = Vec::new(alloc);
    let mut inits = Vec::new(alloc);
    let mut steps = Vec::new(alloc);
    let mut rest = bindings;
    while let Some((first, others)) = rest.split_first() {
        let Some(binding) = do_binding(source.nodes, *first) else {
            return Err(AllocError);
        };
        names.push(binding.name)?;
        inits.push(binding.init)?;
        steps.push(binding.step)?;
        rest = others;
    }
    Ok(Turns {
        names,
        inits,
        steps,
    })
}
