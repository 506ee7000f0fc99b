//! Definitions and bodies (R4RS 5.2).

ghost use Rattle.std.specs.Prelude.{◌≡◌, ◌∷◌, [], List as Seq, Option as Perhaps, OnOk, IfOk, MatchOption, true, false};
ghost use Rattle.scheme_base.specs.declared.pos.Pos.{Pos as Place};
ghost use Rattle.datum_form.specs.Data.{Datum, Items};
ghost use Rattle.datum_form.specs.Data.Items.{item};
ghost use Rattle.scheme_expand.specs.declared.source.Source.{Source as From};
ghost use Rattle.scheme_expand.specs.declared.step.Step.TheVariants as step;
ghost use Rattle.scheme_expand.specs.Forms.{no_binding, Body as Surface, Exp, Word};
ghost use Rattle.quasi_expand.specs.Shapes.{is_name};
ghost use Rattle.scheme_expand.specs.Grammar.{is_define, is_no_body, one_is_define, definition as definition_of, definitions_before, each_definition, bound_words, lambda_form, procedure as procedure_form, exprs as all_exprs, body as body_in};
ghost use Rattle.scheme_expand.specs.Faults.{least, in_exp, in_exps, in_body, in_bindings};
ghost use Rattle.scheme_expand.specs.Making.{Defines, IsRight, AreRight};
ghost use Rattle.scheme_expand.specs.Putting.{defined_steps};
ghost use Rattle.scheme_expand.specs.Rewriting.{are_lambdas as are_procedures, body_core, cores, is_lambda as is_procedure, sequence as sequence_of};
ghost use Rattle.scheme_expand.specs.Viewed.{IsView, Puts, Turns};
ghost use Rattle.scheme_expand.specs.Views.{Context, View, scope_of, visit, seen};
ghost use Rattle.scheme_expand.specs.Waiting.{Reads, ReadAll, Adds, place, in_values, named_datum, named_data};
ghost use Rattle.scheme_expand.specs.Shapes.{IsRead, IsValue, AreDefinitions, AreFormals, ReadTail, with_end, IsHead, IsBody, Collects, is_begin, IsBegun};

use crate::expander::Expander;
use crate::fault::Rule;
use crate::formals::{Formals, read_formals, read_params, twice};
use crate::source::Source;
use crate::step::Step;
use crate::words::Keyword;
use draft_form::push_reversed;
use scheme_base::Pos;
use std::alloc::{AllocError, Global};

/// A definition of a name.
#[derive(Clone, Copy)]
pub(crate) struct Definition<'a> {
    pub(crate) name: u32,
    pub(crate) value: Defined<'a>,
}

/// What a name is defined to be.
#[derive(Clone, Copy)]
pub(crate) enum Defined<'a> {
    Expr(u32),
    /// A lambda expression of these formals and this body.
    Procedure(Formals<'a>, &'a [u32]),
}

/// The parts of a list that begins with `define`, or the rule that it breaks.
pub(crate) fn read_definition<'a>(source: Source<'a>, id: u32) -> Result<Definition<'a>, Rule>
    ensures { (d : Datum) → Reads source.entry id d → is_define d ≡ true → IsRead source.entry result (place d) (definitions_before d) }
{
    let Some(items) = source.list(id) else {
        return Err(Rule::Begin);
    };
    let Some((_head, operands)) = items.split_first() else {
        return Err(Rule::Define);
    };
    let Some((target, rest)) = operands.split_first() else {
        return Err(Rule::Define);
    };
    read_target(source, *target, rest)
}

/// The parts of a definition of a name, or of a list of a name and formals.
fn read_target<'a>(source: Source<'a>, target: u32, rest: &'a [u32]) -> Result<Definition<'a>, Rule>
    ensures { (d : Datum) (ds : Items) (p : Place) → Reads source.entry target d → ReadAll source.entry rest.now ds → IsRead source.entry result p (definition_of p (item d ds)) }
{
    match source.word(target) {
        Some(_) => read_value(target, rest),
        None => read_named(source, target, rest),
    }
}

/// The parts of a definition of a list of a name and formals.
fn read_named<'a>(source: Source<'a>, target: u32, rest: &'a [u32]) -> Result<Definition<'a>, Rule>
    ensures { (d : Datum) (ds : Items) (p : Place) → Reads source.entry target d → is_name d ≡ false → ReadAll source.entry rest.now ds → IsRead source.entry result p (definition_of p (item d ds)) }
{
    match source.listed(target) {
        Some((items, tail)) => read_procedure(source, items, tail, rest),
        None => Err(Rule::Define),
    }
}

/// The parts of a definition of a name as the value of an expression.
fn read_value<'a>(name: u32, rest: &[u32]) -> Result<Definition<'a>, Rule>
    ensures { (from : From) (w : Word) (ds : Items) (p : Place) → Reads from name (named_datum w) → ReadAll from rest.now ds → IsRead from result p (definition_of p (item (named_datum w) ds)) }
{
    let Some((value, more)) = rest.split_first() else {
        return Err(Rule::Define);
    };
    match more.split_first() {
        None => Ok(Definition {
            name,
            value: Defined::Expr(*value),
        }),
        Some(_) => Err(Rule::Define),
    }
}

/// The parts of a definition of a procedure, whose name and formals are the items of a list and its tail.
fn read_procedure<'a>(
    source: Source<'a>,
    items: &'a [u32],
    tail: Option<u32>,
    body: &'a [u32],
) -> Result<Definition<'a>, Rule>
    ensures { (ts : Items) (end : Perhaps Datum) (ds : Items) (q : Place) (p : Place) → ReadAll source.entry items.now ts → ReadTail source.entry tail end → ReadAll source.entry body.now ds → IsRead source.entry result p (definition_of p (item (with_end q ts end) ds)) }
{
    let Some((name, params)) = items.split_first() else {
        return Err(Rule::Define);
    };
    let Some(_word) = source.word(*name) else {
        return Err(Rule::Define);
    };
    let Some(formals) = read_params(source, params, tail) else {
        return Err(Rule::Formals);
    };
    Ok(Definition {
        name: *name,
        value: Defined::Procedure(formals, body),
    })
}

impl Defined<'_> {
    /// Whether this is a lambda expression.
    pub(crate) fn is_lambda(self, source: Source) -> bool
        ensures { (p : Place) (e : Exp) → IsValue source.entry self.entry p e → IsRight e → result ≡ is_procedure e }
    {
        match self {
            Defined::Expr(id) => source.is_lambda(id),
            Defined::Procedure(..) => true,
        }
    }
}

/// Puts the definitions that an item is, if it is one or a `begin` of such items, behind the others.
pub(crate) fn collect_definitions(
    alloc: Global,
    source: Source,
    item: u32,
    definitions: &mut Vec<u32>,
) -> Result<bool, AllocError>
    ensures { IfOk result (λ found. (d : Datum) → Reads source.entry item d → Collects source.entry d definitions.old.items definitions.new.items found) }
{
    let start = definitions.len();
    let mut items = Vec::new(alloc);
    items.push(item)?;
    for _turn in 0..usize::MAX {
        let Some(id) = items.pop() else {
            return Ok(true);
        };
        if source.defines(id) {
            definitions.push(id)?;
        } else {
            match begun(source, id) {
                Some(inner) => push_reversed(inner, &mut items)?,
                None => {
                    definitions.truncate(start);
                    return Ok(false);
                }
            }
        }
    }
    Err(AllocError)
}

/// The items of a `begin` that has no tail.
fn begun<'a>(source: Source<'a>, id: u32) -> Option<&'a [u32]>
    ensures { (d : Datum) → Reads source.entry id d → MatchOption result (is_begin d ≡ false) (λ ids. IsBegun source.entry ids.now d) }
{
    let Some(items) = source.list(id) else {
        return None;
    };
    let Some((head, others)) = items.split_first() else {
        return None;
    };
    if source.is_keyword(*head, Keyword::Begin) {
        Some(others)
    } else {
        None
    }
}

/// A body: the definitions at its head, the names of those that are good ones, and its expressions.
#[derive(Drop)]
pub(crate) struct Body<'a> {
    pub(crate) definitions: Vec<u32>,
    pub(crate) names: Vec<u32>,
    pub(crate) exprs: &'a [u32],
}

/// A body, if it has an expression and no definition after one.
pub(crate) fn read_body<'a>(
    alloc: Global,
    source: Source<'a>,
    items: &'a [u32],
) -> Result<Option<Body<'a>>, AllocError>
    ensures { IfOk result (λ found. (ds : Items) → ReadAll source.entry items.now ds → MatchOption found (is_no_body ds ≡ true) (λ parts. (is_no_body ds ≡ false) × IsBody source.entry parts (body_in ds))) }
{
    let mut definitions = Vec::new(alloc);
    let exprs = after_definitions(alloc, source, items, &mut definitions)?;
    if exprs.is_empty() {
        return Ok(None);
    }
    if defines(source, exprs) {
        return Ok(None);
    }
    let names = defined_names(alloc, source, &definitions)?;
    Ok(Some(Body {
        definitions,
        names,
        exprs,
    }))
}

/// What stands after the definitions at the head of a body, which are put behind others.
fn after_definitions<'a>(
    alloc: Global,
    source: Source<'a>,
    items: &'a [u32],
    definitions: &mut Vec<u32>,
) -> Result<&'a [u32], AllocError>
    ensures { IfOk result (λ rest. (ds : Items) → ReadAll source.entry items.now ds → IsHead source.entry ds definitions.old.items definitions.new.items rest.now) }
{
    let mut rest = items;
    while let Some((first, others)) = rest.split_first() {
        if !collect_definitions(alloc, source, *first, definitions)? {
            return Ok(rest);
        }
        rest = others;
    }
    Ok(rest)
}

/// Whether a definition is among these.
fn defines(source: Source, exprs: &[u32]) -> bool
    ensures { (ds : Items) → ReadAll source.entry exprs.now ds → result ≡ one_is_define ds }
{
    let mut rest = exprs;
    while let Some((first, others)) = rest.split_first() {
        if source.defines(*first) {
            return true;
        }
        rest = others;
    }
    false
}

/// The names that good definitions define.
fn defined_names(alloc: Global, source: Source, definitions: &[u32]) -> Result<Vec<u32>, AllocError>
    ensures { IfOk result (λ names. (ds : Items) → AreDefinitions source.entry definitions.now ds → ReadAll source.entry names.items (named_data (bound_words (each_definition ds no_binding)))) }
{
    let mut names = Vec::new(alloc);
    let mut rest = definitions;
    while let Some((first, others)) = rest.split_first() {
        match read_definition(source, *first) {
            Ok(definition) => names.push(definition.name)?,
            Err(_rule) => {}
        }
        rest = others;
    }
    Ok(names)
}

/// Whether all good definitions among these define lambda expressions.
fn define_lambdas(source: Source, definitions: &[u32]) -> bool
    ensures { (ds : Items) → AreDefinitions source.entry definitions.now ds → in_bindings (each_definition ds no_binding) ≡ [] → result ≡ are_procedures (each_definition ds no_binding) }
{
    let mut rest = definitions;
    while let Some((first, others)) = rest.split_first() {
        if let Ok(definition) = read_definition(source, *first) {
            if !definition.value.is_lambda(source) {
                return false;
            }
        }
        rest = others;
    }
    true
}

impl<'a> Expander<'a> {
    /// A body of a form at a place: a `letrec` of its definitions round its expressions.
    pub(crate) fn body(&mut self, pos: Pos, body: &Body<'a>) -> Result<(), AllocError>
        ensures fault { OnOk result ((b : Surface) → IsBody self.old.source body.now b → Adds self.old self.new (least (in_body b))) }
        ensures core { OnOk result ((c : Context) (v : View) (b : Surface) → IsView c self.old v → IsBody c.source body.now b → in_body b ≡ [] → Turns c self.old self.new (visit c (body_core b pos (scope_of c v)) v)) }
    {
        if body.definitions.is_empty() {
            return self.expressions(pos, body.exprs);
        }
        let level = self.maker.scope.level()?;
        self.enter(&body.names)?;
        let inner = self.maker.scope.level()?;
        self.maker.scope.bind_all_fresh(body.names.len())?;
        let all_lambdas = define_lambdas(self.source, &body.definitions);
        self.wait(&[Step::Letrec(pos, level, all_lambdas)])?;
        self.values(&body.definitions)?;
        self.wait(&[Step::Leave(inner)])?;
        self.expressions(pos, body.exprs)
    }

    /// The values of definitions that are good ones.
    fn values(&mut self, definitions: &[u32]) -> Result<(), AllocError>
        ensures fault { OnOk result ((ds : Items) → AreDefinitions self.old.source definitions.now ds → Adds self.old self.new (least (in_values (each_definition ds no_binding)))) }
        ensures core { OnOk result ((ds : Items) → AreDefinitions self.old.source definitions.now ds → in_bindings (each_definition ds no_binding) ≡ [] → Puts self.old self.new (defined_steps definitions.now)) }
    {
        let mut rest = definitions;
        while let Some((last, others)) = rest.split_last() {
            self.value(*last)?;
            rest = others;
        }
        Ok(())
    }

    /// The value of a definition, if it is a good one.
    fn value(&mut self, id: u32) -> Result<(), AllocError>
        ensures fault { OnOk result ((d : Datum) → Reads self.old.source id d → is_define d ≡ true → Adds self.old self.new (least (in_values (definitions_before d no_binding)))) }
        ensures core { OnOk result ((d : Datum) → Reads self.old.source id d → is_define d ≡ true → in_bindings (definitions_before d no_binding) ≡ [] → Puts self.old self.new (step.Defined id ∷ [])) }
    {
        match read_definition(self.source, id) {
            Ok(_) => self.wait(&[Step::Defined(id)]),
            Err(rule) => {
                let pos = self.source.pos(id);
                self.note(pos, rule);
                Ok(())
            }
        }
    }

    /// The one expression of a body, or a `Seq` of several.
    fn expressions(&mut self, pos: Pos, exprs: &'a [u32]) -> Result<(), AllocError>
        ensures fault { OnOk result ((ds : Items) → ReadAll self.old.source exprs.now ds → Adds self.old self.new (least (in_exps (all_exprs ds)))) }
        ensures core { OnOk result ((c : Context) (v : View) (ds : Items) → IsView c self.old v → ReadAll c.source exprs.now ds → AreRight (all_exprs ds) → Turns c self.old self.new (visit c (sequence_of pos (cores (all_exprs ds) (scope_of c v))) v)) }
    {
        let Some((first, others)) = exprs.split_first() else {
            return self.sequence(pos, exprs);
        };
        if others.is_empty() {
            return self.wait(&[Step::Expr(*first)]);
        }
        self.sequence(pos, exprs)
    }

    /// The value of a definition.
    pub(crate) fn defined(&mut self, id: u32) -> Result<(), AllocError>
        ensures fault { OnOk result ((d : Datum) → Reads self.old.source id d → is_define d ≡ true → Adds self.old self.new (least (in_values (definitions_before d no_binding)))) }
        ensures core { OnOk result ((c : Context) (v : View) (d : Datum) (e : Exp) → IsView c self.old v → Reads c.source id d → Defines d e → IsRight e → Turns c self.old self.new (seen c e v)) }
    {
        let pos = self.source.pos(id);
        match read_definition(self.source, id) {
            Ok(definition) => match definition.value {
                Defined::Expr(value) => self.wait(&[Step::Expr(value)]),
                Defined::Procedure(formals, body) => self.procedure(pos, formals, body),
            },
            Err(rule) => self.broken(pos, rule),
        }
    }

    /// `(lambda formals body)`
    pub(crate) fn lambda(&mut self, pos: Pos, operands: &'a [u32]) -> Result<(), AllocError>
        ensures fault { OnOk result ((ds : Items) → ReadAll self.old.source operands.now ds → Adds self.old self.new (least (in_exp (lambda_form pos ds)))) }
        ensures core { OnOk result ((c : Context) (v : View) (ds : Items) → IsView c self.old v → ReadAll c.source operands.now ds → IsRight (lambda_form pos ds) → Turns c self.old self.new (seen c (lambda_form pos ds) v)) }
    {
        let Some((formals, body)) = operands.split_first() else {
            return self.broken(pos, Rule::Formals);
        };
        let Some(formals) = read_formals(self.source, *formals) else {
            return self.broken(pos, Rule::Formals);
        };
        self.procedure(pos, formals, body)
    }

    /// A lambda expression of these formals and this body.
    fn procedure(
        &mut self,
        pos: Pos,
        formals: Formals<'a>,
        body: &'a [u32],
    ) -> Result<(), AllocError>
        ensures fault { OnOk result ((ws : Seq Word) (r : Perhaps Word) (ds : Items) → AreFormals self.old.source formals.entry ws r → ReadAll self.old.source body.now ds → Adds self.old self.new (least (in_exp (procedure_form pos ws r ds (body_in ds))))) }
        ensures core { OnOk result ((c : Context) (v : View) (ws : Seq Word) (r : Perhaps Word) (ds : Items) → IsView c self.old v → AreFormals c.source formals.entry ws r → ReadAll c.source body.now ds → IsRight (procedure_form pos ws r ds (body_in ds)) → Turns c self.old self.new (seen c (procedure_form pos ws r ds (body_in ds)) v)) }
    {
        let Some(body) = read_body(self.alloc, self.source, body)? else {
            return self.broken(pos, Rule::Body);
        };
        let names = formals.names(self.alloc)?;
        if twice(self.alloc, self.source, &names)? {
            return self.broken(pos, Rule::Twice);
        }
        if twice(self.alloc, self.source, &body.names)? {
            return self.broken(pos, Rule::Twice);
        }
        let level = self.maker.scope.level()?;
        self.enter(&names)?;
        self.wait(&[Step::Lambda(pos, level, formals.rest.is_some())])?;
        self.body(pos, &body)
    }
}
