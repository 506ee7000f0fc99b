//! Which form a datum is, and the forms that bind nothing (R4RS 4.1, 4.2.1, 4.2.3 and 4.2.6).

ghost use Rattle.std.specs.Prelude.{ℕ, ◌≡◌, [], ◌∷◌, Option as Perhaps, Some, OnOk, IfSome, MatchOption, slice_set, true};
ghost use Rattle.datum_form.specs.Data.Items.{item};
ghost use Rattle.datum_form.specs.Data.{Datum, Datum as datum, Items};
ghost use Rattle.draft_form.specs.declared.draft.Variable.TheVariants as kind;
ghost use Rattle.draft_form.specs.Drafts.{Changed, Call, Draft as Tree, Drafts as Trees};
ghost use Rattle.draft_form.specs.Drawn.{name_of};
ghost use Rattle.quasi_expand.specs.Steps.{exprs_in};
ghost use Rattle.scheme_base.specs.declared.pos.Pos.{Pos as Place};
ghost use Rattle.scheme_expand.specs.Calls.{count as count_of};
ghost use Rattle.scheme_expand.specs.Grammar.{expr as expression, exprs as all_exprs, quote_form, quasi_form, if_form, set_form, begin_form};
ghost use Rattle.scheme_expand.specs.Faults.{Fault, least, in_exp, in_exps, in_word};
ghost use Rattle.scheme_expand.specs.Forms.{Word, Variable as Meaning, And, Or};
ghost use Rattle.scheme_expand.specs.Making.{AreRight, ComesTo, IsRight, alternated, conjoined, known_draft, sequenced};
ghost use Rattle.scheme_expand.specs.Rewriting.{call as call_of, core as core_of};
ghost use Rattle.scheme_expand.specs.Shapes.{ReadTail, with_end};
ghost use Rattle.scheme_expand.specs.Putting.{part_step, part_steps};
ghost use Rattle.scheme_expand.specs.Viewed.{IsView, Leaves, Turns, Puts};
ghost use Rattle.scheme_expand.specs.Views.{Context, View, bound_names, height, noting, scope_of, seen, visit, visit_all};
ghost use Rattle.scheme_expand.specs.Waiting.{Reads, ReadAll, Waits, Adds, Keeps, earlier, keyword_of, named_datum};

use crate::expander::Expander;
use crate::fault::Rule;
use crate::step::Step;
use crate::words::{Keyword, Known, known_of};
use datum_form::Kind;
use draft_form::{Constant, Variable};
use quasi_expand::{Part, read_template};
use scheme_base::Pos;
use std::alloc::AllocError;

impl<'a> Expander<'a> {
    /// An expression.
    pub(crate) fn expr(&mut self, id: u32) -> Result<(), AllocError>
        ensures fault { OnOk result ((d : Datum) → Reads self.old.source id d → Adds self.old self.new (least (in_exp (expression d)))) }
        ensures core { OnOk result ((c : Context) (v : View) (d : Datum) → IsView c self.old v → Reads c.source id d → IsRight (expression d) → Turns c self.old self.new (seen c (expression d) v)) }
    {
        let pos = self.source.pos(id);
        let Some(kind) = self.source.kind(id) else {
            return Err(AllocError);
        };
        match kind {
            Kind::Name(_) => self.name_here(pos, id),
            Kind::List { items, tail } => self.chain(pos, items.as_slice(), *tail),
            Kind::Vector { .. } => self.broken(pos, Rule::Vector),
            _ => self.constant(Constant::Datum(id), pos),
        }
    }

    /// A name as an expression.
    fn name_here(&mut self, pos: Pos, id: u32) -> Result<(), AllocError>
        ensures fault { OnOk result ((w : Word) → Reads self.old.source id (named_datum w) → Adds self.old self.new (least (in_word w))) }
        ensures core { OnOk result ((c : Context) (v : View) (w : Word) → IsView c self.old v → Reads c.source id (named_datum w) → w.place ≡ pos → Turns c self.old self.new (seen c (Meaning w) v)) }
    {
        let word = self.name(id)?;
        let variable = self.variable(word);
        self.wait(&[Step::Reference(pos, variable)])
    }

    /// A list, with a tail or without.
    fn chain(&mut self, pos: Pos, items: &'a [u32], tail: Option<u32>) -> Result<(), AllocError>
        ensures fault { OnOk result ((ds : Items) (end : Perhaps Datum) → ReadAll self.old.source items.now ds → ReadTail self.old.source tail end → Adds self.old self.new (least (in_exp (expression (with_end pos ds end))))) }
        ensures core { OnOk result ((c : Context) (v : View) (ds : Items) (end : Perhaps Datum) → IsView c self.old v → ReadAll c.source items.now ds → ReadTail c.source tail end → IsRight (expression (with_end pos ds end)) → Turns c self.old self.new (seen c (expression (with_end pos ds end)) v)) }
    {
        match tail {
            None => self.list(pos, items),
            Some(_) => self.broken(pos, Rule::Begin),
        }
    }

    fn list(&mut self, pos: Pos, items: &'a [u32]) -> Result<(), AllocError>
        ensures fault { OnOk result ((ds : Items) → ReadAll self.old.source items.now ds → Adds self.old self.new (least (in_exp (expression (datum.List pos ds))))) }
        ensures core { OnOk result ((c : Context) (v : View) (ds : Items) → IsView c self.old v → ReadAll c.source items.now ds → IsRight (expression (datum.List pos ds)) → Turns c self.old self.new (seen c (expression (datum.List pos ds)) v)) }
    {
        let Some((head, operands)) = items.split_first() else {
            return self.broken(pos, Rule::Empty);
        };
        match self.source.keyword(*head) {
            Some(keyword) => self.form(pos, keyword, items, operands),
            None => self.call(pos, *head, operands.len(), Step::Exprs(operands)),
        }
    }

    /// The form of a keyword, with these items, of which the first is the keyword.
    fn form(
        &mut self,
        pos: Pos,
        keyword: Keyword,
        items: &'a [u32],
        operands: &'a [u32],
    ) -> Result<(), AllocError>
        ensures fault { OnOk result ((d : Datum) (ds : Items) → ReadAll self.old.source items.now (item d ds) → ReadAll self.old.source operands.now ds → keyword_of d ≡ Some keyword → Adds self.old self.new (least (in_exp (expression (datum.List pos (item d ds)))))) }
        ensures core { OnOk result ((c : Context) (v : View) (d : Datum) (ds : Items) → IsView c self.old v → ReadAll c.source items.now (item d ds) → ReadAll c.source operands.now ds → keyword_of d ≡ Some keyword → IsRight (expression (datum.List pos (item d ds))) → Turns c self.old self.new (seen c (expression (datum.List pos (item d ds))) v)) }
    {
        match keyword {
            Keyword::Quote => self.quote(pos, operands),
            Keyword::Quasiquote => self.quasiquote(pos, operands),
            Keyword::Lambda => self.lambda(pos, operands),
            Keyword::If => self.conditional(pos, operands),
            Keyword::Set => self.assignment(pos, operands),
            Keyword::Begin => self.begin(pos, operands),
            Keyword::Cond => self.cond(pos, operands),
            Keyword::Case => self.case(pos, items),
            Keyword::And => self.and(pos, operands),
            Keyword::Or => self.or(pos, operands),
            Keyword::Let => self.any_let(pos, operands),
            Keyword::LetStar => self.let_star(pos, operands),
            Keyword::Letrec => self.letrec(pos, operands),
            Keyword::Do => self.do_loop(pos, items),
            Keyword::Delay => self.broken(pos, Rule::Delay),
            Keyword::Define => self.broken(pos, Rule::Define),
            Keyword::Unquote => self.broken(pos, Rule::Unquote),
            Keyword::Splice => self.broken(pos, Rule::Unquote),
            Keyword::Else => self.word_call(pos, items, operands),
            Keyword::Arrow => self.word_call(pos, items, operands),
        }
    }

    /// A call of `else` or `=>`, which are no operators.
    fn word_call(
        &mut self,
        pos: Pos,
        items: &'a [u32],
        operands: &'a [u32],
    ) -> Result<(), AllocError>
        ensures { OnOk result ((d : Datum) (ds : Items) → ReadAll self.old.source items.now (item d ds) → ReadAll self.old.source operands.now ds → Adds self.old self.new (earlier (least (in_exp (expression d))) (least (in_exps (all_exprs ds))))) }
    {
        let Some((head, _)) = items.split_first() else {
            return Err(AllocError);
        };
        self.call(pos, *head, operands.len(), Step::Exprs(operands))
    }

    fn quote(&mut self, pos: Pos, operands: &'a [u32]) -> Result<(), AllocError>
        ensures fault { OnOk result ((ds : Items) → ReadAll self.old.source operands.now ds → Adds self.old self.new (least (in_exp (quote_form pos ds)))) }
        ensures core { OnOk result ((c : Context) (v : View) (ds : Items) → IsView c self.old v → ReadAll c.source operands.now ds → IsRight (quote_form pos ds) → Turns c self.old self.new (seen c (quote_form pos ds) v)) }
    {
        let [datum] = operands else {
            return self.broken(pos, Rule::Quote);
        };
        self.constant(Constant::Datum(*datum), pos)
    }

    fn quasiquote(&mut self, pos: Pos, operands: &'a [u32]) -> Result<(), AllocError>
        ensures fault { OnOk result ((ds : Items) → ReadAll self.old.source operands.now ds → Adds self.old self.new (least (in_exp (quasi_form pos ds)))) }
        ensures core { OnOk result ((c : Context) (v : View) (ds : Items) → IsView c self.old v → ReadAll c.source operands.now ds → IsRight (quasi_form pos ds) → Turns c self.old self.new (seen c (quasi_form pos ds) v)) }
    {
        let [template] = operands else {
            return self.broken(pos, Rule::Quote);
        };
        let parts = read_template(self.alloc, self.source.nodes, *template)?;
        self.template_steps(pos, &parts)
    }

    /// The steps of a template, of which the first is the next to be done.
    fn template_steps(&mut self, pos: Pos, parts: &[Part]) -> Result<(), AllocError>
        ensures fault { OnOk result ((ds : Items) → ReadAll self.old.source (exprs_in parts.now) ds → Adds self.old self.new (least (in_exps (all_exprs ds)))) }
        ensures core { OnOk result (Puts self.old self.new (part_steps pos parts.now)) }
    {
        let mut rest = parts;
        while let Some((last, others)) = rest.split_last() {
            self.template_step(pos, *last)?;
            rest = others;
        }
        Ok(())
    }

    fn template_step(&mut self, pos: Pos, part: Part) -> Result<(), AllocError>
        ensures fault { OnOk result ((ds : Items) → ReadAll self.old.source (exprs_in (part ∷ [])) ds → Adds self.old self.new (least (in_exps (all_exprs ds)))) }
        ensures core { OnOk result (Puts self.old self.new (part_step pos part ∷ [])) }
    {
        match part {
            Part::Expr(expr) => self.wait(&[Step::Expr(expr)]),
            _ => self.wait(&[Step::Template(pos, part)]),
        }
    }

    fn conditional(&mut self, pos: Pos, operands: &'a [u32]) -> Result<(), AllocError>
        ensures fault { OnOk result ((ds : Items) → ReadAll self.old.source operands.now ds → Adds self.old self.new (least (in_exp (if_form pos ds)))) }
        ensures core { OnOk result ((c : Context) (v : View) (ds : Items) → IsView c self.old v → ReadAll c.source operands.now ds → IsRight (if_form pos ds) → Turns c self.old self.new (seen c (if_form pos ds) v)) }
    {
        match operands {
            [test, yes] => self.wait(&[
                Step::If(pos),
                Step::Unspecified(pos),
                Step::Expr(*yes),
                Step::Expr(*test),
            ]),
            [test, yes, no] => self.wait(&[
                Step::If(pos),
                Step::Expr(*no),
                Step::Expr(*yes),
                Step::Expr(*test),
            ]),
            _ => self.broken(pos, Rule::IfOrSet),
        }
    }

    fn assignment(&mut self, pos: Pos, operands: &'a [u32]) -> Result<(), AllocError>
        ensures fault { OnOk result ((ds : Items) → ReadAll self.old.source operands.now ds → Adds self.old self.new (least (in_exp (set_form pos ds)))) }
        ensures core { OnOk result ((c : Context) (v : View) (ds : Items) → IsView c self.old v → ReadAll c.source operands.now ds → IsRight (set_form pos ds) → Turns c self.old self.new (seen c (set_form pos ds) v)) }
    {
        let [name, value] = operands else {
            return self.broken(pos, Rule::IfOrSet);
        };
        let Some(_) = self.source.word(*name) else {
            return self.broken(pos, Rule::IfOrSet);
        };
        let word = self.name(*name)?;
        let variable = self.variable(word);
        self.assign(variable);
        self.wait(&[Step::Assign(pos, variable), Step::Expr(*value)])
    }

    /// Notes that a variable is assigned.
    fn assign(&mut self, variable: Variable)
        ensures fault { Keeps self.old self.new }
        ensures core { (c : Context) (v : View) → IsView c self.old v → Leaves c self.old self.new (noting c (Changed (name_of c.names variable) ∷ []) v) }
    {
        match variable {
            Variable::Local { level, .. } => self.maker.scope.assign(level),
            _ => self.change(variable),
        }
    }

    /// Notes that a top-level variable is assigned or defined.
    pub(crate) fn change(&mut self, variable: Variable)
        ensures fault { Keeps self.old self.new }
        ensures core { (c : Context) (v : View) → IsView c self.old v → ((level word : ℕ) → variable ≡ kind.Local level word → ⊥) → Leaves c self.old self.new (noting c (Changed (name_of c.names variable) ∷ []) v) }
    {
        let Variable::Library { word } = variable else {
            return;
        };
        mark(&mut self.changed, word);
    }

    fn begin(&mut self, pos: Pos, exprs: &'a [u32]) -> Result<(), AllocError>
        ensures fault { OnOk result ((ds : Items) → ReadAll self.old.source exprs.now ds → Adds self.old self.new (least (in_exp (begin_form pos ds)))) }
        ensures core { OnOk result ((c : Context) (v : View) (ds : Items) → IsView c self.old v → ReadAll c.source exprs.now ds → IsRight (begin_form pos ds) → Turns c self.old self.new (seen c (begin_form pos ds) v)) }
    {
        if exprs.is_empty() {
            return self.broken(pos, Rule::Begin);
        }
        self.sequence(pos, exprs)
    }

    /// A `Seq` of expressions.
    pub(crate) fn sequence(&mut self, pos: Pos, exprs: &'a [u32]) -> Result<(), AllocError>
        ensures fault { OnOk result ((ds : Items) → ReadAll self.old.source exprs.now ds → Adds self.old self.new (least (in_exps (all_exprs ds)))) }
        ensures core { OnOk result ((c : Context) (v : View) (ds : Items) → IsView c self.old v → ReadAll c.source exprs.now ds → AreRight (all_exprs ds) → Turns c self.old self.new (sequenced c pos (all_exprs ds) v)) }
    {
        self.wait(&[Step::Sequence(pos, exprs.len()), Step::Exprs(exprs)])
    }

    fn and(&mut self, pos: Pos, operands: &'a [u32]) -> Result<(), AllocError>
        ensures fault { OnOk result ((ds : Items) → ReadAll self.old.source operands.now ds → Adds self.old self.new (least (in_exps (all_exprs ds)))) }
        ensures core { OnOk result ((c : Context) (v : View) (ds : Items) → IsView c self.old v → ReadAll c.source operands.now ds → IsRight (And pos (all_exprs ds)) → Turns c self.old self.new (seen c (And pos (all_exprs ds)) v)) }
    {
        let Some((last, others)) = operands.split_last() else {
            return self.constant(Constant::Boolean(true), pos);
        };
        self.wait(&[Step::Conjuncts(pos, others), Step::Expr(*last)])
    }

    pub(crate) fn conjuncts(&mut self, pos: Pos, exprs: &'a [u32]) -> Result<(), AllocError>
        ensures fault { OnOk result ((ds : Items) → ReadAll self.old.source exprs.now ds → Adds self.old self.new (least (in_exps (all_exprs ds)))) }
        ensures core { OnOk result ((c : Context) (v : View) (ds : Items) → IsView c self.old v → ReadAll c.source exprs.now ds → AreRight (all_exprs ds) → Turns c self.old self.new (conjoined c pos (all_exprs ds) v)) }
    {
        let Some((last, others)) = exprs.split_last() else {
            return Ok(());
        };
        self.wait(&[
            Step::Conjuncts(pos, others),
            Step::Both(pos),
            Step::Expr(*last),
        ])
    }

    /// An `or`: each operand but the last is held by a fresh variable, round those after it.
    fn or(&mut self, pos: Pos, operands: &'a [u32]) -> Result<(), AllocError>
        ensures fault { OnOk result ((ds : Items) → ReadAll self.old.source operands.now ds → Adds self.old self.new (least (in_exps (all_exprs ds)))) }
        ensures core { OnOk result ((c : Context) (v : View) (ds : Items) → IsView c self.old v → ReadAll c.source operands.now ds → IsRight (Or pos (all_exprs ds)) → Turns c self.old self.new (seen c (Or pos (all_exprs ds)) v)) }
    {
        let Some((last, others)) = operands.split_last() else {
            return self.constant(Constant::Boolean(false), pos);
        };
        self.maker.scope.bind_all_fresh(others.len())?;
        let level = self.maker.scope.level()?;
        self.wait(&[Step::Alternatives(pos, others, level), Step::Expr(*last)])
    }

    pub(crate) fn alternatives(
        &mut self,
        pos: Pos,
        exprs: &'a [u32],
        level: u32,
    ) -> Result<(), AllocError>
        ensures fault { OnOk result ((ds : Items) → ReadAll self.old.source exprs.now ds → Adds self.old self.new (least (in_exps (all_exprs ds)))) }
        ensures core { OnOk result ((c : Context) (v : View) (ds : Items) → IsView c self.old v → ReadAll c.source exprs.now ds → AreRight (all_exprs ds) → level ≡ height v → Turns c self.old self.new (alternated c pos (all_exprs ds) v)) }
    {
        let Some((last, others)) = exprs.split_last() else {
            return Ok(());
        };
        let held = level.saturating_sub(1);
        self.maker.scope.leave(held);
        self.wait(&[
            Step::Alternatives(pos, others, held),
            Step::Either(pos, held),
            Step::Expr(*last),
        ])
    }

    /// A call, whose operands are what a step comes to.
    pub(crate) fn call(
        &mut self,
        pos: Pos,
        head: u32,
        count: usize,
        operands: Step<'a>,
    ) -> Result<(), AllocError>
        ensures fault { OnOk result ((d : Datum) (due : Perhaps Fault) → Reads self.old.source head d → Waits self.old.source operands.entry due → Adds self.old self.new (earlier (least (in_exp (expression d))) due)) }
        ensures core { OnOk result ((c : Context) (v : View) (d : Datum) (es : Trees) → IsView c self.old v → Reads c.source head d → IsRight (expression d) → count_of es ≡ count → ((u : View) → bound_names u.bound ≡ bound_names v.bound → ComesTo c operands.entry u (visit_all c es u)) → Turns c self.old self.new (visit c (call_of pos (scope_of c v) (expression d) (core_of (expression d) (scope_of c v)) es) v)) }
    {
        match self.known(head, count) {
            Some(call) => self.wait(&[Step::Known(pos, call, count), operands]),
            None => self.wait(&[Step::Call(pos, count), operands, Step::Expr(head)]),
        }
    }

    /// What a call of so many operands is, if that is known of its operator.
    fn known(&self, head: u32, count: usize) -> Option<Known>
        ensures fault { IfSome result (λ call. (d : Datum) → Reads self.now.source head d → least (in_exp (expression d)) ≡ None) }
        ensures core { (c : Context) (v : View) (d : Datum) (es : Trees) (p : Place) (e : Tree) → IsView c self.now v → Reads c.source head d → IsRight (expression d) → count_of es ≡ count → MatchOption result (call_of p (scope_of c v) (expression d) e es ≡ Call p e es) (λ call. (f : Tree) × (known_draft p (height v) call es ≡ Some f) × (call_of p (scope_of c v) (expression d) e es ≡ f)) }
    {
        let word = self.source.word(head)?;
        let Variable::Library { .. } = self.variable(word) else {
            return None;
        };
        let call = known_of(word)?;
        if call.takes(count) { Some(call) } else { None }
    }
}

/// Marks the flag of a word, if there is one.
fn mark(flags: &mut Vec<bool>, word: u32)
    ensures { flags.new.items ≡ slice_set flags.old.items word true }
{
    if let Some(flag) = flags.get_mut(word as usize) {
        *flag = true;
    }
}
