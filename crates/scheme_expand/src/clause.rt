//! `cond` and `case` (R4RS 4.2.1), whose clauses are expanded from the last to the first.

ghost use Rattle.std.specs.Prelude.{◌≡◌, suc, [], None, OnOk, IfOk, true, false, codes};
ghost use Rattle.scheme_base.specs.declared.pos.Pos.{Pos as Place};
ghost use Rattle.datum_form.specs.Data.{Datum, Datum as datum, Items};
ghost use Rattle.datum_form.specs.Data.Items.{item};
ghost use Rattle.quasi_expand.specs.Shapes.{are_clauses as all_clauses, is_case, is_word};
ghost use Rattle.scheme_expand.specs.declared.source.Source.{Source as From};
ghost use Rattle.scheme_expand.specs.Forms.{no_clause};
ghost use Rattle.scheme_expand.specs.Grammar.{is_clause, case_form, clause_before, clauses as clauses_in, cases as cases_in};
ghost use Rattle.scheme_expand.specs.Faults.{least, in_exp, in_clauses, in_cases};
ghost use Rattle.scheme_expand.specs.Waiting.{Reads, ReadAll, Adds, may_be_clauses};
ghost use Rattle.scheme_expand.specs.Holding.{Holds, cases_end, key_tests};
ghost use Rattle.scheme_expand.specs.Making.{IsRight, clauses_made, cases_made};
ghost use Rattle.scheme_expand.specs.Shapes.{IsFound, cond_form};
ghost use Rattle.scheme_expand.specs.Viewed.{IsView, Puts, Turns};
ghost use Rattle.scheme_expand.specs.Views.{Context, View, height, seen};

use crate::expander::Expander;
use crate::fault::Rule;
use crate::scope::Scope;
use crate::source::Source;
use crate::step::Step;
use crate::words::Keyword;
use draft_form::Variable;
use quasi_expand::{case_clause, read_case};
use scheme_base::Pos;
use std::alloc::AllocError;

/// A clause of a `cond`.
#[derive(Clone, Copy)]
enum Clause<'a> {
    /// `(test expr ..)`
    Then(u32, &'a [u32]),
    /// `(test)`
    Test(u32),
    /// `(test => receiver)`
    Receiver(u32, u32),
    Else(&'a [u32]),
}

/// A clause of a `cond`, if it is one.
fn read_clause<'a>(source: Source<'a>, id: u32) -> Option<Clause<'a>>
    ensures { (d : Datum) → Reads source.entry id d → IsFound source.entry result d }
{
    let Some(items) = source.list(id) else {
        return None;
    };
    let Some((first, exprs)) = items.split_first() else {
        return None;
    };
    if source.is_keyword(*first, Keyword::Else) {
        return read_else(exprs);
    }
    read_test(source, *first, exprs)
}

/// A clause that begins with `else`, and then has these expressions.
fn read_else<'a>(exprs: &'a [u32]) -> Option<Clause<'a>>
    ensures { (from : From) (p : Place) (t : Datum) (ds : Items) → ReadAll from exprs.now ds → is_word (codes "else") t ≡ true → IsFound from result (datum.List p (item t ds)) }
{
    if exprs.is_empty() {
        return None;
    }
    Some(Clause::Else(exprs))
}

/// A clause of a test and what stands after it.
fn read_test<'a>(source: Source<'a>, test: u32, exprs: &'a [u32]) -> Option<Clause<'a>>
    ensures { (p : Place) (t : Datum) (ds : Items) → Reads source.entry test t → ReadAll source.entry exprs.now ds → is_word (codes "else") t ≡ false → IsFound source.entry result (datum.List p (item t ds)) }
{
    let Some((second, others)) = exprs.split_first() else {
        return Some(Clause::Test(test));
    };
    if !source.is_keyword(*second, Keyword::Arrow) {
        return Some(Clause::Then(test, exprs));
    }
    match others {
        [receiver] => Some(Clause::Receiver(test, *receiver)),
        _ => None,
    }
}

/// Binds a fresh variable for each test whose value is held, and tells whether the clauses end with `else`.
fn hold_tests(source: Source, clauses: &[u32], scope: &mut Scope) -> Result<bool, AllocError>
    ensures { IfOk result (λ ends. (ds : Items) → ReadAll source.entry clauses.now ds → may_be_clauses is_clause ds ≡ true → Holds (clauses_in ds) ends scope.old scope.new) }
{
    let mut ends = false;
    let mut rest = clauses;
    while let Some((first, others)) = rest.split_first() {
        ends = hold_test(source, *first, scope)?;
        rest = others;
    }
    Ok(ends)
}

/// The same of one clause.
fn hold_test(source: Source, id: u32, scope: &mut Scope) -> Result<bool, AllocError>
    ensures { IfOk result (λ is_else. (d : Datum) → Reads source.entry id d → is_clause true d ≡ true → Holds (clause_before d no_clause) is_else scope.old scope.new) }
{
    let Some(clause) = read_clause(source, id) else {
        return Ok(false);
    };
    match clause {
        Clause::Then(..) => Ok(false),
        Clause::Else(_) => Ok(true),
        Clause::Test(_) | Clause::Receiver(..) => {
            scope.bind_fresh()?;
            Ok(false)
        }
    }
}

impl<'a> Expander<'a> {
    /// Whether these are clauses of a `cond`, of which only the last begins with `else`.
    fn are_clauses(&self, clauses: &[u32]) -> bool
        ensures { (ds : Items) → ReadAll self.now.source clauses.now ds → result ≡ all_clauses is_clause ds }
    {
        let Some((last, others)) = clauses.split_last() else {
            return false;
        };
        let Some(_) = read_clause(self.source, *last) else {
            return false;
        };
        let mut rest = others;
        while let Some((first, later)) = rest.split_first() {
            if !self.is_inner(*first) {
                return false;
            }
            rest = later;
        }
        true
    }

    /// Whether this is a clause that does not begin with `else`.
    fn is_inner(&self, clause: u32) -> bool
        ensures { (d : Datum) → Reads self.now.source clause d → result ≡ is_clause false d }
    {
        match read_clause(self.source, clause) {
            None => false,
            Some(Clause::Else(_)) => false,
            Some(_) => true,
        }
    }

    pub(crate) fn cond(&mut self, pos: Pos, clauses: &'a [u32]) -> Result<(), AllocError>
        ensures fault { OnOk result ((ds : Items) → ReadAll self.old.source clauses.now ds → Adds self.old self.new (least (in_exp (cond_form pos ds)))) }
        ensures core { OnOk result ((c : Context) (v : View) (ds : Items) → IsView c self.old v → ReadAll c.source clauses.now ds → IsRight (cond_form pos ds) → Turns c self.old self.new (seen c (cond_form pos ds) v)) }
    {
        if !self.are_clauses(clauses) {
            return self.broken(pos, Rule::Cond);
        }
        let ends = hold_tests(self.source, clauses, &mut self.maker.scope)?;
        let level = self.maker.scope.level()?;
        self.wait(&[Step::Clauses(pos, clauses, level)])?;
        if ends {
            return Ok(());
        }
        self.wait(&[Step::Unspecified(pos)])
    }

    /// The last of the clauses that are left.
    pub(crate) fn clauses(
        &mut self,
        pos: Pos,
        clauses: &'a [u32],
        level: u32,
    ) -> Result<(), AllocError>
        ensures fault { OnOk result ((ds : Items) → ReadAll self.old.source clauses.now ds → may_be_clauses is_clause ds ≡ true → Adds self.old self.new (least (in_clauses (clauses_in ds)))) }
        ensures core { OnOk result ((c : Context) (v : View) (ds : Items) → IsView c self.old v → ReadAll c.source clauses.now ds → may_be_clauses is_clause ds ≡ true → in_clauses (clauses_in ds) ≡ [] → level ≡ height v → Turns c self.old self.new (clauses_made c pos (clauses_in ds) v)) }
    {
        let Some((last, others)) = clauses.split_last() else {
            return Ok(());
        };
        let Some(clause) = read_clause(self.source, *last) else {
            return Err(AllocError);
        };
        let held = level.saturating_sub(1);
        match clause {
            Clause::Else(exprs) => {
                self.wait(&[Step::Clauses(pos, others, level)])?;
                self.sequence(pos, exprs)
            }
            Clause::Then(test, exprs) => {
                self.wait(&[
                    Step::Clauses(pos, others, level),
                    Step::Branch(pos),
                    Step::Expr(test),
                ])?;
                self.sequence(pos, exprs)
            }
            Clause::Test(test) => {
                self.maker.scope.leave(held);
                self.wait(&[
                    Step::Clauses(pos, others, held),
                    Step::Either(pos, held),
                    Step::Expr(test),
                ])
            }
            Clause::Receiver(test, receiver) => {
                self.wait(&[
                    Step::Clauses(pos, others, held),
                    Step::Receive(pos, held),
                    Step::Expr(test),
                    Step::Leave(held),
                ])?;
                let value = Step::Reference(pos, Variable::Fresh { level: held });
                self.call(pos, receiver, 1, value)
            }
        }
    }

    /// `(case key clause ..)`, with these items.
    pub(crate) fn case(&mut self, pos: Pos, items: &'a [u32]) -> Result<(), AllocError>
        ensures fault { OnOk result ((d : Datum) (ds : Items) → ReadAll self.old.source items.now (item d ds) → Adds self.old self.new (least (in_exp (case_form pos ds)))) }
        ensures core { OnOk result ((c : Context) (v : View) (d : Datum) (ds : Items) → IsView c self.old v → ReadAll c.source items.now (item d ds) → IsRight (case_form pos ds) → Turns c self.old self.new (seen c (case_form pos ds) v)) }
    {
        let Some(case) = read_case(self.source.nodes, items) else {
            return self.broken(pos, Rule::Case);
        };
        let level = self.maker.scope.level()?;
        self.maker.scope.bind_fresh()?;
        self.wait(&[
            Step::Bind(pos, Variable::Fresh { level }),
            Step::Expr(case.key),
            Step::Leave(level),
            Step::Cases(pos, case.clauses, level),
        ])?;
        if ends_with_else(self.source, case.clauses) {
            return Ok(());
        }
        self.wait(&[Step::Unspecified(pos)])
    }

    /// The last of the clauses that are left.
    pub(crate) fn cases(
        &mut self,
        pos: Pos,
        clauses: &'a [u32],
        level: u32,
    ) -> Result<(), AllocError>
        ensures fault { OnOk result ((ds : Items) → ReadAll self.old.source clauses.now ds → may_be_clauses is_case ds ≡ true → Adds self.old self.new (least (in_cases (cases_in ds)))) }
        ensures core { OnOk result ((c : Context) (v : View) (ds : Items) → IsView c self.old v → ReadAll c.source clauses.now ds → may_be_clauses is_case ds ≡ true → in_cases (cases_in ds) ≡ [] → height v ≡ suc level → Turns c self.old self.new (cases_made c pos level (cases_in ds) v)) }
    {
        let Some((last, others)) = clauses.split_last() else {
            return Ok(());
        };
        let Some(clause) = case_clause(self.source.nodes, *last) else {
            return Err(AllocError);
        };
        self.wait(&[Step::Cases(pos, others, level)])?;
        self.test_case(pos, clause.data, level)?;
        self.sequence(pos, clause.exprs)
    }

    /// The test of a clause of a `case`, if it has data.
    fn test_case(
        &mut self,
        pos: Pos,
        among: Option<&'a [u32]>,
        level: u32,
    ) -> Result<(), AllocError>
        ensures fault { OnOk result (Adds self.old self.new None) }
        ensures core { OnOk result (Puts self.old self.new (key_tests pos among.entry level)) }
    {
        match among {
            Some(data) => self.wait(&[Step::Branch(pos), Step::IsAmong(pos, data, level)]),
            None => Ok(()),
        }
    }
}

/// Whether the last of some clauses of a `case` begins with `else`.
fn ends_with_else(source: Source, clauses: &[u32]) -> bool
    ensures { (ds : Items) → ReadAll source.entry clauses.now ds → all_clauses is_case ds ≡ true → result ≡ cases_end (cases_in ds) }
{
    let Some((last, _)) = clauses.split_last() else {
        return false;
    };
    match case_clause(source.nodes, *last) {
        Some(clause) => clause.data.is_none(),
        None => false,
    }
}
