//! The expansion of a form, step by step.

ghost use Rattle.std.specs.Prelude.{◌≡◌, [], ◌∷◌, List as Seq, Option as Perhaps, None, OnOk, IfOk, length, nat_lt, slice_get, true};
ghost use Rattle.scheme_base.specs.Constants.{Constant as Value};
ghost use Rattle.datum_form.specs.Data.{Items};
ghost use Rattle.draft_form.specs.Drafts.{Const};
ghost use Rattle.draft_form.specs.Drawn.{name_of, word_name};
ghost use Rattle.draft_form.specs.Quoted.{IsHeld};
ghost use Rattle.scheme_expand.specs.Forms.{Word};
ghost use Rattle.scheme_expand.specs.Grammar.{exprs as all_exprs};
ghost use Rattle.scheme_expand.specs.Faults.{Fault as Broken, fault, least, in_exps, in_word, in_words};
ghost use Rattle.scheme_expand.specs.Making.{AllCome, AreRight, ComesTo};
ghost use Rattle.scheme_expand.specs.Noted.{level_in, meant, number_of};
ghost use Rattle.scheme_expand.specs.Rewriting.{meaning, names as names_of};
ghost use Rattle.scheme_expand.specs.Viewed.{AreFree, AreHelpers, Fits, IsView, Leaves, Puts, Spells, Turns, Ends};
ghost use Rattle.scheme_expand.specs.Views.{Context, View, all_seen, bind, empty_view, pushed, scope_of};
ghost use Rattle.scheme_expand.specs.Waiting.{Reads, ReadAll, Waits, AllWait, Adds, Keeps, Done, named_datum, named_data};

use crate::fault::{Fault, Rule};
use crate::make::Maker;
use crate::source::Source;
use crate::step::Step;
use crate::words::Helpers;
use draft_form::{Constant, Variable};
use scheme_base::Pos;
use std::alloc::{AllocError, Global};

/// How far an expansion has come.
#[derive(Drop)]
pub(crate) struct Expander<'a> {
    pub(crate) alloc: Global,
    pub(crate) source: Source<'a>,
    /// By name, whether it is the library's where nothing binds it.
    pub(crate) library: &'a [bool],
    /// By name, whether the library's variable is assigned or defined.
    pub(crate) changed: Vec<bool>,
    /// The first broken form.
    pub(crate) fault: Option<Fault>,
    /// What is still to be done, the next step last.
    pub(crate) steps: Vec<Step<'a>>,
    pub(crate) maker: Maker,
}

impl<'a> Expander<'a> {
    pub(crate) fn new(
        alloc: Global,
        source: Source<'a>,
        helpers: Helpers,
        library: &'a [bool],
    ) -> Result<Expander<'a>, AllocError>
        ensures fault { IfOk result (λ new. (new.source ≡ source.entry) × (new.steps.items ≡ []) × (new.fault ≡ None)) }
        ensures core { IfOk result (λ new. (c : Context) → Fits c → source.entry ≡ c.source → AreHelpers c.names helpers → AreFree c.names c.side library.now → length library.now ≡ length c.names → IsView c new (empty_view c.names)) }
    {
        let mut changed = Vec::new(alloc);
        changed.resize(library.len(), false)?;
        Ok(Expander {
            alloc,
            source,
            library,
            changed,
            fault: None,
            steps: Vec::new(alloc),
            maker: Maker::new(alloc, helpers, library.len())?,
        })
    }

    /// Does what is to be done.
    pub(crate) fn run(&mut self) -> Result<(), AllocError>
        ensures fault { OnOk result ((due : Perhaps Broken) → AllWait self.old.source self.old.steps.items due → Done self.old self.new due) }
        ensures core { OnOk result ((c : Context) (v w : View) → IsView c self.old v → AllCome c self.old.steps.items v w → Ends c self.new w) }
    {
        for _turn in 0..usize::MAX {
            let Some(step) = self.steps.pop() else {
                return Ok(());
            };
            self.step(step)?;
        }
        Err(AllocError)
    }

    /// Does one step.
    fn step(&mut self, step: Step<'a>) -> Result<(), AllocError>
        ensures fault { OnOk result ((due : Perhaps Broken) → Waits self.old.source step.entry due → Adds self.old self.new due) }
        ensures core { OnOk result ((c : Context) (v w : View) → IsView c self.old v → ComesTo c step.entry v w → Turns c self.old self.new w) }
    {
        match step {
            Step::Expr(id) => self.expr(id),
            Step::Exprs(ids) => self.exprs(ids),
            Step::Defined(id) => self.defined(id),
            Step::Leave(level) => {
                self.maker.scope.leave(level);
                Ok(())
            }
            Step::Conjuncts(pos, exprs) => self.conjuncts(pos, exprs),
            Step::Alternatives(pos, exprs, level) => self.alternatives(pos, exprs, level),
            Step::Clauses(pos, clauses, level) => self.clauses(pos, clauses, level),
            Step::Cases(pos, clauses, level) => self.cases(pos, clauses, level),
            other => self.maker.add(other),
        }
    }

    /// Puts steps behind the others.
    pub(crate) fn wait(&mut self, steps: &[Step<'a>]) -> Result<(), AllocError>
        ensures fault { OnOk result ((due : Perhaps Broken) → AllWait self.old.source steps.now due → Adds self.old self.new due) }
        ensures core { OnOk result (Puts self.old self.new steps.now) }
    {
        self.steps.extend_from_slice(steps)?;
        Ok(())
    }

    fn exprs(&mut self, ids: &'a [u32]) -> Result<(), AllocError>
        ensures fault { OnOk result ((ds : Items) → ReadAll self.old.source ids.now ds → Adds self.old self.new (least (in_exps (all_exprs ds)))) }
        ensures core { OnOk result ((c : Context) (v : View) (ds : Items) → IsView c self.old v → ReadAll c.source ids.now ds → AreRight (all_exprs ds) → Turns c self.old self.new (all_seen c (all_exprs ds) v)) }
    {
        let Some((first, others)) = ids.split_first() else {
            return Ok(());
        };
        self.wait(&[Step::Exprs(others), Step::Expr(*first)])
    }

    /// Notes that a form breaks a rule.
    pub(crate) fn note(&mut self, pos: Pos, rule: Rule)
        ensures fault { Adds self.old self.new (least (fault pos (number_of rule) ∷ [])) }
        ensures core { Puts self.old self.new [] }
    {
        let fault = Fault { pos, rule };
        match self.fault {
            Some(first) if !fault.is_before(first) => {}
            _ => self.fault = Some(fault),
        }
    }

    /// Notes a broken form, and makes an expression in its place.
    pub(crate) fn broken(&mut self, pos: Pos, rule: Rule) -> Result<(), AllocError>
        ensures { OnOk result (Adds self.old self.new (least (fault pos (number_of rule) ∷ []))) }
    {
        self.note(pos, rule);
        self.wait(&[Step::Unspecified(pos)])
    }

    pub(crate) fn constant(&mut self, constant: Constant, pos: Pos) -> Result<(), AllocError>
        ensures fault { Keeps self.old self.new }
        ensures core { OnOk result ((c : Context) (v : View) (a : Value) → IsView c self.old v → IsHeld c.source.nodes.now constant a → Leaves c self.old self.new (pushed (Const pos a) v)) }
    {
        self.maker.constant(constant, pos)
    }

    /// The variable that a name means here.
    pub(crate) fn variable(&self, word: u32) -> Variable
        ensures fault { result ≡ meant (level_in (slice_get self.now.maker.scope.innermost.items word)) (slice_get self.now.library.now word) word }
        ensures core { (c : Context) (v : View) → IsView c self.now v → nat_lt word (length c.names) ≡ true → name_of c.names result ≡ meaning (scope_of c v) (word_name c.names word) }
    {
        if let Some(level) = self.maker.scope.find(word) {
            return Variable::Local { level, word };
        }
        match self.library.get(word as usize) {
            Some(true) => Variable::Library { word },
            _ => Variable::Top { word },
        }
    }

    /// The number of a name that stands where a variable does.
    pub(crate) fn name(&mut self, id: u32) -> Result<u32, AllocError>
        ensures fault { OnOk result ((w : Word) → Reads self.old.source id (named_datum w) → Adds self.old self.new (least (in_word w))) }
        ensures core { IfOk result (λ word. Puts self.old self.new [] × ((c : Context) (w : Word) → Fits c → Reads c.source id (named_datum w) → self.old.source ≡ c.source → Spells c.names word w.name)) }
    {
        let Some(word) = self.source.word(id) else {
            return Err(AllocError);
        };
        match self.source.keyword(id) {
            Some(_) => {
                let pos = self.source.pos(id);
                self.note(pos, Rule::Keyword);
                Ok(word)
            }
            None => Ok(word),
        }
    }

    /// Binds names, which are names.
    pub(crate) fn enter(&mut self, names: &[u32]) -> Result<(), AllocError>
        ensures fault { OnOk result ((ws : Seq Word) → ReadAll self.old.source names.now (named_data ws) → Adds self.old self.new (least (in_words ws))) }
        ensures core { OnOk result ((c : Context) (v : View) (ws : Seq Word) → IsView c self.old v → ReadAll c.source names.now (named_data ws) → Leaves c self.old self.new (bind (names_of ws) v)) }
    {
        let mut rest = names;
        while let Some((first, others)) = rest.split_first() {
            let word = self.name(*first)?;
            self.maker.scope.bind(word)?;
            rest = others;
        }
        Ok(())
    }
}
