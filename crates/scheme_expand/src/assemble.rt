//! The forms of a core: the library's definitions that the program reaches, the program's own variables of
//! public names, and the program's forms.

ghost use Rattle.std.specs.Prelude.{ℕ, ◌+◌, ◌≡◌, ◌<◌, ◌≤◌, List, [], ◌∷◌, ◌++◌, length, map, nat_lt, slice_get, Some, None, OnOk, IfOk, IfSome};
ghost use Rattle.prelude_text.specs.Closure.{AreNumbers, AreUses, Increases};
ghost use Rattle.core_form.specs.Text.{HasText};
ghost use Rattle.draft_form.specs.Drafts.{Draft as Tree, Drafts as Forms, Part, ◌then◌, parts};
ghost use Rattle.draft_form.specs.Drawn.{word_name, AllDrawn, Data, Drawn, Names};
ghost use Rattle.draft_form.specs.Growing.{IsReady};
ghost use Rattle.draft_form.specs.Numbered.{HasNumbered};
ghost use Rattle.draft_form.specs.Numbering.{symbols_of};
ghost use Rattle.draft_form.specs.Quoted.{symbol_list};
ghost use Rattle.scheme_expand.specs.Assembled.{whole_of, ArePicked, IsMadeOf, IsWhole};
ghost use Rattle.scheme_expand.specs.ByWord.{at_most_one, flag_at, joined, library_words, reached_from, top_words, uses_in, with_number, AreTaken, HaveOneWord, IsIndex, Marks};
ghost use Rattle.scheme_expand.specs.Order.{AreParts};
ghost use Rattle.scheme_expand.specs.Programs.{libraries, numbers_of, starts, symbols, IsNumbered};
ghost use Rattle.scheme_expand.specs.Symbols.{AreSpelled, TakesNames};

use crate::first::Firsts;
use crate::order::{order_of, preorder, variables_of};
use crate::source::Source;
use crate::symbol::take_symbols;
use crate::words::Words;
use core_form::{Core, What};
use draft_form::{Drafts, Growing, Levels, Text, Variable};
use prelude_text::closure_of;
use scheme_base::{Ids, Pos, Uses};
use std::alloc::{AllocError, Global};

/// The place of what stands in no text.
const NOWHERE: Pos = Pos { line: 0, col: 0 };

/// Expanded forms, and the data of their constants.
#[derive(Clone, Copy)]
pub(crate) struct Expanded<'a> {
    pub(crate) source: Source<'a>,
    pub(crate) drafts: &'a Drafts,
    pub(crate) forms: &'a [u32],
}

/// What a core is made of.
#[derive(Clone, Copy)]
pub(crate) struct Whole<'a> {
    pub(crate) words: &'a Words<'a>,
    /// Definition k is form k - 1.
    pub(crate) library: Expanded<'a>,
    /// The names that the library's definitions define.
    pub(crate) defined: &'a [u32],
    pub(crate) program: Expanded<'a>,
    /// By name, whether it is a public name of which the program has a variable of its own.
    pub(crate) own: &'a [bool],
}

impl Whole<'_> {
    /// What is assembled is the definition's core, where the expressions stand for the definition's drafts.
    pub(crate) fn core(self, alloc: Global) -> Result<Core, AllocError>
        ensures text { IfOk result HasText }
        ensures made { IfOk result (λ core. (own : List (List ℕ)) (ds es : Forms) → IsWhole own ds es self.entry → IsNumbered (whole_of own ds es self.entry) core) }
    {
        let order = order_of(alloc, self.program.drafts, self.program.forms)?;
        let variables = variables_of(alloc, self.program.drafts, &order)?;
        let own_names = self.own_names(alloc, &variables)?;
        let reached = self.reached(alloc, &variables, &own_names.taken)?;
        let definitions = self.definitions(alloc, reached.as_slice())?;
        let library_order = order_of(alloc, self.library.drafts, &definitions)?;
        let mut symbols = Firsts::new(alloc, all_listed(alloc, self.words.len())?);
        self.library
            .take_symbols(alloc, &library_order, &mut symbols)?;
        self.program.take_symbols(alloc, &order, &mut symbols)?;
        let core = self.numbered(alloc, &definitions, &own_names.taken, &symbols.taken)?;
        Ok(core)
    }

    /// The forms that are the definitions of the library with these numbers.
    fn definitions(self, alloc: Global, numbers: &[u32]) -> Result<Vec<u32>, AllocError>
        ensures { IfOk result (λ forms. ArePicked 1 self.entry.library.forms.now numbers.now forms.items) }
    {
        let mut forms = Vec::new(alloc);
        for number in numbers {
            forms.push(self.definition(*number)?)?;
        }
        Ok(forms)
    }

    /// The form that is definition k of the library.
    fn definition(self, number: u32) -> Result<u32, AllocError>
        ensures { IfOk result (λ form. ArePicked 1 self.entry.library.forms.now (number ∷ []) (form ∷ [])) }
    {
        let index = index_of(number)?;
        let form = form_at(self.library.forms, index)?;
        Ok(form)
    }

    /// The program's own names among its variables, in the order in which they first stand.
    fn own_names(self, alloc: Global, variables: &[Variable]) -> Result<Firsts, AllocError>
        ensures { IfOk result (λ firsts. (names : Names) (own : List (List ℕ)) → HaveOneWord names own → Marks names own self.entry.own.now → AreTaken names own (map (word_name names) (top_words variables.now)) firsts) }
    {
        let mut firsts = Firsts::new(alloc, self.own.to_vec(alloc)?);
        for variable in variables {
            take_top(*variable, &mut firsts)?;
        }
        Ok(firsts)
    }

    /// The numbers of the library's definitions that are reached from own names and variables, in their order.
    fn reached(
        self,
        alloc: Global,
        variables: &[Variable],
        own_names: &[u32],
    ) -> Result<Ids, AllocError>
        ensures increasing { IfOk result (Increases 0) }
        ensures exact { IfOk result (λ ids. (names : Names) (nodes : Data) (ds : Forms) → HaveOneWord names (map (word_name names) self.entry.defined.now) → length self.entry.defined.now ≡ length self.entry.library.forms.now → AllDrawn names nodes self.entry.library.drafts.now self.entry.library.forms.now ds → ids ≡ reached_from (map (word_name names) self.entry.defined.now) ds (map (word_name names) (own_names.now ++ library_words variables.now))) }
    {
        let numbers = self.numbers(alloc)?;
        let uses = self.uses(alloc, &numbers)?;
        let count = uses.len();
        if count > u32::MAX as usize {
            return Err(AllocError);
        }
        let mut words = own_names.to_vec(alloc)?;
        push_library_words(variables, &mut words)?;
        let from = known_numbers(alloc, &words, &numbers, count)?;
        let ids = closure_of(alloc, &uses, &from)?;
        Ok(ids)
    }

    /// For each definition of the library, the numbers of those whose variables stand in it.
    fn uses(self, alloc: Global, numbers: &[Option<u32>]) -> Result<Uses, AllocError>
        ensures within { IfOk result (λ uses. AreUses (length uses) uses) }
        ensures count { IfOk result (λ uses. length uses ≡ length self.entry.library.forms.now) }
        ensures exact { IfOk result (λ uses. (names : Names) (nodes : Data) (defined : List (List ℕ)) (ds : Forms) → IsIndex names defined numbers.now → length defined ≡ length self.entry.library.forms.now → AllDrawn names nodes self.entry.library.drafts.now self.entry.library.forms.now ds → uses ≡ uses_in defined ds) }
    {
        let count = self.library.forms.len();
        let mut uses = Uses::new(alloc);
        for form in self.library.forms {
            let used = uses_of(alloc, self.library.drafts, *form, numbers, count)?;
            uses.push(used)?;
        }
        Ok(uses)
    }

    /// By name, the number of the first definition that defines it.
    fn numbers(self, alloc: Global) -> Result<Vec<Option<u32>>, AllocError>
        ensures { IfOk result (λ numbers. (names : Names) → HaveOneWord names (map (word_name names) self.entry.defined.now) → IsIndex names (map (word_name names) self.entry.defined.now) numbers.items) }
    {
        let mut numbers = unnumbered(alloc, self.words.len())?;
        let mut number = 0;
        for name in self.defined {
            number = next(number)?;
            set_number(&mut numbers, *name, number)?;
        }
        Ok(numbers)
    }

    /// The core of these definitions and these own names, whose literal symbols are these.
    fn numbered(
        self,
        alloc: Global,
        definitions: &[u32],
        own_names: &[u32],
        symbols: &[u32],
    ) -> Result<Core, AllocError>
        ensures text { IfOk result HasText }
        ensures made { IfOk result (λ core. (ds es : Forms) → AllDrawn self.entry.words.now.names.keys self.entry.library.source.nodes.now self.entry.library.drafts.now definitions.now ds → AllDrawn self.entry.words.now.names.keys self.entry.program.source.nodes.now self.entry.program.drafts.now self.entry.program.forms.now es → IsMadeOf (symbol_list (map (word_name self.entry.words.now.names.keys) symbols.now)) (ds then (starts (map (word_name self.entry.words.now.names.keys) own_names.now) then es)) core) }
    {
        let mut levels = Levels::new(alloc);
        let mut growing = Growing::new(alloc);
        let library = self.library.text(alloc, self.words.all(), symbols);
        let program = self.program.text(alloc, self.words.all(), symbols);
        add_forms(library, definitions, &mut levels, &mut growing)?;
        add_own_variables(program, own_names, &levels, &mut growing)?;
        add_forms(program, self.program.forms, &mut levels, &mut growing)?;
        Ok(growing.into_core())
    }
}

impl<'a> Expanded<'a> {
    /// Takes the names that are symbols in the constants of expressions.
    fn take_symbols(
        self,
        alloc: Global,
        order: &[u32],
        firsts: &mut Firsts,
    ) -> Result<(), AllocError>
        ensures { OnOk result ((names : Names) (found : List Part) → AreSpelled names self.entry.source.nodes.now self.entry.source.words.now → AreParts names self.entry.source.nodes.now self.entry.drafts.now order.now found → TakesNames names (symbols found) firsts.old firsts.new) }
    {
        take_symbols(alloc, self.source, self.drafts, order, firsts)
    }

    fn text(self, alloc: Global, words: &'a [&'a [u8]], symbols: &'a [u32]) -> Text<'a>
        ensures { result ≡ record { alloc = alloc; nodes = self.entry.source.nodes; drafts = self.entry.drafts; words = words.entry; symbols = symbols.entry } }
    {
        Text {
            alloc,
            nodes: self.source.nodes,
            drafts: self.drafts,
            words,
            symbols,
        }
    }
}

/// Flags that are all set.
fn all_listed(alloc: Global, count: usize) -> Result<Vec<bool>, AllocError>
    ensures { IfOk result (λ flags. (w : ℕ) → flag_at flags.items w ≡ nat_lt w count) }
{
    let flags = vec![in alloc; true; count]?;
    Ok(flags)
}

/// Adds forms.
fn add_forms(
    text: Text,
    forms: &[u32],
    levels: &mut Levels,
    growing: &mut Growing,
) -> Result<(), AllocError>
    ensures ready { OnOk result (IsReady growing.old → IsReady growing.new) }
    ensures numbered { OnOk result ((before es : Forms) → HasNumbered (symbols_of text.entry) before levels.old growing.old → AllDrawn text.entry.words.now text.entry.nodes.now text.entry.drafts.now forms.now es → HasNumbered (symbols_of text.entry) (before then es) levels.new growing.new) }
{
    for form in forms {
        text.add_form(*form, levels, growing)?;
    }
    Ok(())
}

/// Adds variables of the program's own of public names.
fn add_own_variables(
    text: Text,
    names: &[u32],
    levels: &Levels,
    growing: &mut Growing,
) -> Result<(), AllocError>
    ensures ready { OnOk result (IsReady growing.old → IsReady growing.new) }
    ensures numbered { OnOk result ((before : Forms) → HasNumbered (symbols_of text.entry) before levels.now growing.old → HasNumbered (symbols_of text.entry) (before then starts (map (word_name text.entry.words.now) names.now)) levels.now growing.new) }
{
    for word in names {
        add_own_variable(text, *word, levels, growing)?;
    }
    Ok(())
}

/// A variable of the program's own of a public name, which starts with the library's value.
fn add_own_variable(
    text: Text,
    word: u32,
    levels: &Levels,
    growing: &mut Growing,
) -> Result<(), AllocError>
    ensures ready { OnOk result (IsReady growing.old → IsReady growing.new) }
    ensures numbered { OnOk result ((before : Forms) → HasNumbered (symbols_of text.entry) before levels.now growing.old → HasNumbered (symbols_of text.entry) (before then starts (word_name text.entry.words.now word ∷ [])) levels.now growing.new) }
{
    let library = text.var(Variable::Library { word }, levels)?;
    growing.add(What::Ref(library), NOWHERE)?;
    let var = text.var(Variable::Top { word }, levels)?;
    let value = growing.take()?;
    growing.add(What::Define { var, value }, NOWHERE)?;
    growing.add_form()
}

/// Takes the name of a top-level variable.
fn take_top(variable: Variable, firsts: &mut Firsts) -> Result<(), AllocError>
    ensures { OnOk result ((names : Names) (listed text : List (List ℕ)) → HaveOneWord names listed → AreTaken names listed text firsts.old → AreTaken names listed (text ++ map (word_name names) (top_words (variable ∷ []))) firsts.new) }
{
    match variable {
        Variable::Top { word } => firsts.take(word),
        _ => Ok(()),
    }
}

/// The index of what has a number that is counted from 1.
fn index_of(number: u32) -> Result<usize, AllocError>
    ensures { IfOk result (λ index. number ≡ 1 + index) }
{
    match (number as usize).checked_sub(1) {
        Some(index) => Ok(index),
        None => Err(AllocError),
    }
}

fn form_at(forms: &[u32], index: usize) -> Result<u32, AllocError>
    ensures { IfOk result (λ form. slice_get forms.now index ≡ Some form) }
{
    match forms.get(index) {
        Some(form) => Ok(*form),
        None => Err(AllocError),
    }
}

/// The next number.
fn next(number: u32) -> Result<u32, AllocError>
    ensures { IfOk result (λ n. n ≡ number + 1) }
{
    match number.checked_add(1) {
        Some(next) => Ok(next),
        None => Err(AllocError),
    }
}

/// For each name no number.
fn unnumbered(alloc: Global, count: usize) -> Result<Vec<Option<u32>>, AllocError>
    ensures { IfOk result (λ numbers. (w : ℕ) → joined (slice_get numbers.items w) ≡ None) }
{
    let numbers = vec![in alloc; None; count]?;
    Ok(numbers)
}

/// Gives a name the number of a definition, where it has none.
fn set_number(numbers: &mut Vec<Option<u32>>, word: u32, number: u32) -> Result<(), AllocError>
    ensures there { OnOk result (word < length numbers.old.items) }
    ensures set { OnOk result (numbers.new.items ≡ with_number (slice_get numbers.old.items word) word number numbers.old.items) }
{
    match number_at(numbers, word)? {
        Some(_) => Ok(()),
        None => {
            numbers[word as usize] = Some(number);
            Ok(())
        }
    }
}

fn number_at(numbers: &[Option<u32>], word: u32) -> Result<Option<u32>, AllocError>
    ensures { IfOk result (λ found. slice_get numbers.now word ≡ Some found) }
{
    match numbers.get(word as usize) {
        Some(found) => Ok(*found),
        None => Err(AllocError),
    }
}

/// Puts the words of the library's variables behind others.
fn push_library_words(variables: &[Variable], words: &mut Vec<u32>) -> Result<(), AllocError>
    ensures { OnOk result (words.new.items ≡ words.old.items ++ library_words variables.now) }
{
    for variable in variables {
        push_library_word(*variable, words)?;
    }
    Ok(())
}

fn push_library_word(variable: Variable, words: &mut Vec<u32>) -> Result<(), AllocError>
    ensures { OnOk result (words.new.items ≡ words.old.items ++ library_words (variable ∷ [])) }
{
    match variable {
        Variable::Library { word } => {
            words.push(word)?;
            Ok(())
        }
        _ => Ok(()),
    }
}

/// The numbers, among so many, of the definitions whose variables stand in a form.
fn uses_of(
    alloc: Global,
    drafts: &Drafts,
    form: u32,
    numbers: &[Option<u32>],
    count: usize,
) -> Result<Ids, AllocError>
    ensures within { IfOk result (λ ids. AreNumbers count ids) }
    ensures exact { IfOk result (λ ids. (names : Names) (nodes : Data) (defined : List (List ℕ)) (e : Tree) → IsIndex names defined numbers.now → length defined ≤ count → Drawn names nodes drafts.now form e → ids ≡ numbers_of defined (libraries (parts e))) }
{
    let mut order = Vec::new(alloc);
    preorder(alloc, drafts, form, &mut order)?;
    let variables = variables_of(alloc, drafts, &order)?;
    let mut words = Vec::new(alloc);
    push_library_words(&variables, &mut words)?;
    let ids = known_numbers(alloc, &words, numbers, count)?;
    Ok(ids)
}

/// The numbers, among so many, of the definitions of names.
fn known_numbers(
    alloc: Global,
    words: &[u32],
    numbers: &[Option<u32>],
    count: usize,
) -> Result<Ids, AllocError>
    ensures within { IfOk result (λ ids. AreNumbers count ids) }
    ensures exact { IfOk result (λ ids. (names : Names) (defined : List (List ℕ)) → IsIndex names defined numbers.now → length defined ≤ count → ids ≡ numbers_of defined (map (word_name names) words.now)) }
{
    let mut ids = Ids::new(alloc);
    for word in words {
        add_number(numbers, *word, count, &mut ids)?;
    }
    Ok(ids)
}

/// Adds the number of the definition of a name, if it is one of so many.
#[tactic(auto, using(crate::proofs::NumbersBehind::number_added))]
fn add_number(
    numbers: &[Option<u32>],
    word: u32,
    count: usize,
    ids: &mut Ids,
) -> Result<(), AllocError>
    ensures within { OnOk result (AreNumbers count ids.old → AreNumbers count ids.new) }
    ensures exact { OnOk result (AreNumbers count (at_most_one (joined (slice_get numbers.now word))) → ids.new ≡ ids.old ++ at_most_one (joined (slice_get numbers.now word))) }
{
    match known_number(numbers, word, count) {
        Some(number) => {
            ids.push(number)?;
            Ok(())
        }
        None => Ok(()),
    }
}

/// The number of the definition of a name, if it is one of so many.
fn known_number(numbers: &[Option<u32>], word: u32, count: usize) -> Option<u32>
    ensures low { IfSome result (λ number. 1 ≤ number) }
    ensures high { IfSome result (λ number. number ≤ count) }
    ensures exact { AreNumbers count (at_most_one (joined (slice_get numbers.now word))) → result ≡ joined (slice_get numbers.now word) }
{
    match listed_number(numbers, word) {
        Some(number) => within(number, count),
        None => None,
    }
}

fn listed_number(numbers: &[Option<u32>], word: u32) -> Option<u32>
    ensures { result ≡ joined (slice_get numbers.now word) }
{
    match numbers.get(word as usize) {
        Some(number) => *number,
        None => None,
    }
}

/// A number, if it is one of so many.
fn within(number: u32, count: usize) -> Option<u32>
    ensures low { IfSome result (λ n. 1 ≤ n) }
    ensures high { IfSome result (λ n. n ≤ count) }
    ensures exact { 1 ≤ number → number ≤ count → result ≡ Some number }
{
    if number == 0 {
        return None;
    }
    if number as usize > count {
        return None;
    }
    Some(number)
}
