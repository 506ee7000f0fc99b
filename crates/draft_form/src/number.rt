//! The core from drafts: literals and fresh variables get their numbers in the order of the core's text.

ghost use Rattle.std.specs.Prelude.{ℕ, ◌≡◌, List, [], ◌∷◌, ◌++◌, map, reverse, codes, Some, slice_get, OnOk, IfOk};
ghost use Rattle.std.specs.Borrow.{Bor};
ghost use Rattle.std.specs.Fmt.{decimal};
ghost use Rattle.std.specs.Option.{option_map};
ghost use Rattle.core_form.specs.declared.program.What.TheVariants.{If};
ghost use Rattle.draft_form.specs.declared.level.Visit.TheVariants.{Begin, End};
ghost use Rattle.draft_form.specs.Drafts.{Draft as Tree, Drafts as Forms, none, item, ◌then◌};
ghost use Rattle.draft_form.specs.Drawn.{Drawn, word_name};
ghost use Rattle.draft_form.specs.Growing.{IsReady, Takes};
ghost use Rattle.draft_form.specs.Numbers.{Given, var};
ghost use Rattle.draft_form.specs.Numbered.{HasNumbered};
ghost use Rattle.draft_form.specs.Numbering.{number_in, symbols_of, var_of, walk, AddsLiteral, Closes, Course, Gives, Goes, NumbersAll, Opens};
ghost use Rattle.draft_form.specs.Parts.{bound_in, ids_in};
ghost use Rattle.draft_form.specs.Quoted.{symbol_list};

use crate::draft::{Draft, Drafts, Variable};
use crate::growing::Growing;
use crate::level::{Levels, Visit};
use crate::literal::{lay_constant, name_of, number};
use crate::order::push_parts;
use core_form::{Var, Vars, What};
use datum_form::Node;
use itoa::Buffer;
use scheme_base::{Bytes, List};
use std::alloc::{AllocError, Global};

/// What forms are made into a core with.
#[derive(Clone, Copy)]
pub struct Text<'a> {
    pub alloc: Global,
    /// The data of the drafts' constants.
    pub nodes: &'a [Node],
    pub drafts: &'a Drafts,
    /// The names of words.
    pub words: &'a [&'a [u8]],
    /// The words whose names are the core's literal symbols.
    pub symbols: &'a [u32],
}

impl Text<'_> {
    /// Adds a form.
    pub fn add_form(
        &self,
        form: u32,
        levels: &mut Levels,
        growing: &mut Growing,
    ) -> Result<(), AllocError>
        ensures ready { OnOk result (IsReady growing.old → IsReady growing.new) }
        ensures numbered { OnOk result ((es : Forms) (e : Tree) → HasNumbered (symbols_of self.now) es levels.old growing.old → Drawn self.now.words.now self.now.nodes.now self.now.drafts.now form e → HasNumbered (symbols_of self.now) (es then item e none) levels.new growing.new) }
    {
        let mut visits = Vec::new(self.alloc);
        visits.push(Visit::Begin(form))?;
        for _turn in 0..usize::MAX {
            let Some(visit) = visits.pop() else {
                return growing.add_form();
            };
            self.visit(visit, levels, &mut visits, growing)?;
        }
        Err(AllocError)
    }

    fn visit(
        &self,
        visit: Visit,
        levels: &mut Levels,
        visits: &mut Vec<Visit>,
        growing: &mut Growing,
    ) -> Result<(), AllocError>
        ensures ready { OnOk result (IsReady growing.old → IsReady growing.new) }
        ensures goes { OnOk result ((c : Course) → Goes (walk self.now c) (visits.old.items ++ visit ∷ []) levels.old growing.old → Goes (walk self.now c) visits.new.items levels.new growing.new) }
    {
        match visit {
            Visit::Begin(id) => self.begin(id, levels, visits, growing),
            Visit::End(id) => self.end(id, levels, growing),
            Visit::Restore { level, number } => levels.set(level, number),
        }
    }

    /// Adds an expression that has no parts, or goes on with its parts.
    fn begin(
        &self,
        id: u32,
        levels: &mut Levels,
        visits: &mut Vec<Visit>,
        growing: &mut Growing,
    ) -> Result<(), AllocError>
        ensures ready { OnOk result (IsReady growing.old → IsReady growing.new) }
        ensures goes { OnOk result ((c : Course) → Goes (walk self.now c) (visits.old.items ++ Begin id ∷ []) levels.old growing.old → Goes (walk self.now c) visits.new.items levels.new growing.new) }
    {
        let draft = self.draft(id)?;
        match &draft.what {
            What::Const(constant) => {
                let literal = self.literal(*constant, growing)?;
                growing.add(What::Const(literal), draft.pos)
            }
            What::Ref(variable) => {
                let var = self.var(*variable, levels)?;
                growing.add(What::Ref(var), draft.pos)
            }
            _ => self.open(id, draft, levels, visits),
        }
    }

    fn draft(&self, id: u32) -> Result<&Draft, AllocError>
        ensures { IfOk result (λ draft. slice_get self.now.drafts.now.exprs.items id ≡ Some draft.now) }
    {
        match self.drafts.exprs.get(id as usize) {
            Some(draft) => Ok(draft),
            None => Err(AllocError),
        }
    }

    /// Goes on with the parts of an expression, and numbers the variables that it binds.
    fn open(
        &self,
        id: u32,
        draft: &Draft,
        levels: &mut Levels,
        visits: &mut Vec<Visit>,
    ) -> Result<(), AllocError>
        ensures { OnOk result (Opens self.now.words.now id draft.now.what levels.old levels.new visits.old.items visits.new.items) }
    {
        number_bound(draft, levels, visits)?;
        visits.push(Visit::End(id))?;
        push_visits(self.alloc, draft, visits)
    }

    /// Adds an expression whose parts were done last.
    fn end(&self, id: u32, levels: &Levels, growing: &mut Growing) -> Result<(), AllocError>
        ensures ready { OnOk result (IsReady growing.old → IsReady growing.new) }
        ensures goes { OnOk result ((c : Course) (visits : List Visit) → Goes (walk self.now c) (visits ++ End id ∷ []) levels.now growing.old → Goes (walk self.now c) visits levels.now growing.new) }
    {
        let draft = self.draft(id)?;
        let what = self.closed(&draft.what, levels, growing)?;
        growing.add(what, draft.pos)
    }

    /// An expression whose parts were done last.
    fn closed(
        &self,
        what: &What<Variable>,
        levels: &Levels,
        growing: &mut Growing,
    ) -> Result<What<Var>, AllocError>
        ensures { IfOk result (Closes (var_of self.now.words.now (number_in levels.now.numbers.items)) what.now growing.old growing.new) }
    {
        match what {
            What::Const(_) | What::Ref(_) => Err(AllocError),
            What::Set { var, .. } => {
                let var = self.var(*var, levels)?;
                let value = growing.take()?;
                Ok(What::Set { var, value })
            }
            What::Define { var, .. } => {
                let var = self.var(*var, levels)?;
                let value = growing.take()?;
                Ok(What::Define { var, value })
            }
            What::If { .. } => conditional(growing),
            What::Lambda { params, rest, .. } => {
                let params = self.vars(params.as_slice(), levels)?;
                let rest = self.rest(*rest, levels)?;
                let body = growing.take()?;
                Ok(What::Lambda { params, rest, body })
            }
            What::Call { operands, .. } => {
                let operands = growing.take_all(self.alloc, operands.len())?;
                let operator = growing.take()?;
                Ok(What::Call { operator, operands })
            }
            What::Prim { op, operands } => {
                let op = *op;
                let operands = growing.take_all(self.alloc, operands.len())?;
                Ok(What::Prim { op, operands })
            }
            What::Seq { items } => {
                let items = growing.take_all(self.alloc, items.len())?;
                Ok(What::Seq { items })
            }
            What::Fix { vars, lambdas, .. } => {
                let vars = self.vars(vars.as_slice(), levels)?;
                let body = growing.take()?;
                let lambdas = growing.take_all(self.alloc, lambdas.len())?;
                Ok(What::Fix {
                    vars,
                    lambdas,
                    body,
                })
            }
        }
    }

    /// Adds the literals of a constant, and gives the number of the first.
    fn literal(&self, constant: u32, growing: &mut Growing) -> Result<u32, AllocError>
        ensures { IfOk result (AddsLiteral (symbol_list (map (word_name self.now.words.now) self.now.symbols.now)) self.now.nodes.now self.now.drafts.now.constants.items constant growing.old growing.new) }
    {
        let Some(constant) = self.drafts.constants.get(constant as usize) else {
            return Err(AllocError);
        };
        let literal = number(growing.lits.len())?;
        lay_constant(
            self.alloc,
            self.nodes,
            self.words,
            self.symbols,
            *constant,
            &mut growing.lits,
        )?;
        Ok(literal)
    }

    /// A variable by its name; a fresh one has its number behind a dot.
    pub fn var(&self, variable: Variable, levels: &Levels) -> Result<Var, AllocError>
        ensures { IfOk result (λ x. x ≡ var_of self.now.words.now (number_in levels.now.numbers.items) variable) }
    {
        match variable {
            Variable::Local { word, .. } | Variable::Top { word } => self.word_var(word, false),
            Variable::Library { word } => self.word_var(word, true),
            Variable::Fresh { level } => fresh_var(self.alloc, levels.at(level)),
        }
    }

    fn word_var(&self, word: u32, lib: bool) -> Result<Var, AllocError>
        ensures { IfOk result (λ x. x ≡ record { name = word_name self.now.words.now word; lib = lib }) }
    {
        let name = Bytes::from_slice(self.alloc, name_of(self.words, word)?)?;
        Ok(Var { name, lib })
    }

    fn vars(&self, variables: &[Variable], levels: &Levels) -> Result<Vars, AllocError>
        ensures { IfOk result (λ xs. xs ≡ map (var_of self.now.words.now (number_in levels.now.numbers.items)) variables.now) }
    {
        let mut vars = List::new(self.alloc);
        for variable in variables {
            vars.push(self.var(*variable, levels)?)?;
        }
        Ok(vars)
    }

    fn rest(&self, rest: Option<Variable>, levels: &Levels) -> Result<Option<Var>, AllocError>
        ensures { IfOk result (λ x. x ≡ option_map (var_of self.now.words.now (number_in levels.now.numbers.items)) rest) }
    {
        match rest {
            Some(variable) => {
                let var = self.var(variable, levels)?;
                Ok(Some(var))
            }
            None => Ok(None),
        }
    }
}

/// Gives numbers to the fresh variables that an expression binds.
fn number_bound(
    draft: &Draft,
    levels: &mut Levels,
    visits: &mut Vec<Visit>,
) -> Result<(), AllocError>
    ensures { OnOk result ((words : List (Bor (List ℕ))) (g : Given) → Gives levels.old.numbers.items g → NumbersAll words (bound_in draft.now.what) levels.old levels.new visits.old.items visits.new.items g) }
{
    match &draft.what {
        What::Lambda { params, .. } => levels.number_all(params.as_slice(), visits),
        What::Fix { vars, .. } => levels.number_all(vars.as_slice(), visits),
        _ => Ok(()),
    }
}

fn fresh_var(alloc: Global, number: u64) -> Result<Var, AllocError>
    ensures { IfOk result (λ x. x ≡ var (codes "." ++ decimal number)) }
{
    let mut name = Bytes::from_slice(alloc, b".")?;
    let mut buffer = Buffer::new();
    name.extend_from_slice(buffer.format(number).as_bytes())?;
    Ok(Var { name, lib: false })
}

fn conditional(growing: &mut Growing) -> Result<What<Var>, AllocError>
    ensures { IfOk result (λ what. (test : ℕ) × (this : ℕ) × (that : ℕ) × Takes growing.old growing.new (test ∷ this ∷ that ∷ []) × (what ≡ If test this that)) }
{
    let no = growing.take()?;
    let yes = growing.take()?;
    let test = growing.take()?;
    Ok(What::If { test, yes, no })
}

/// Puts the parts of an expression, the last first, behind what is still to be done.
fn push_visits(alloc: Global, draft: &Draft, visits: &mut Vec<Visit>) -> Result<(), AllocError>
    ensures { OnOk result (visits.new.items ≡ visits.old.items ++ map (λ part. Begin part) (reverse (ids_in draft.now.what))) }
{
    let mut parts = Vec::new(alloc);
    push_parts(draft, &mut parts)?;
    for part in &parts {
        visits.push(Visit::Begin(*part))?;
    }
    Ok(())
}
