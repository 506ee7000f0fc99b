//! The core of a program's data: the public call.

ghost use Rattle.std.specs.Prelude.{ℕ, ◌≡◌, List, [], ◌∷◌, length, map, IfOk};
ghost use Rattle.prelude_text.specs.Text.{library_text};
ghost use Rattle.datum_form.specs.Data.{Items};
ghost use Rattle.datum_form.specs.Stands.{Holds};
ghost use Rattle.datum_reader.specs.Answer.{Reads};
ghost use Rattle.core_form.specs.Text.{HasText};
ghost use Rattle.draft_form.specs.Drafts.{Drafts as Trees};
ghost use Rattle.draft_form.specs.Drawn.{word_name, AllDrawn};
ghost use Rattle.scheme_expand.specs.Assembled.{whole_with, AreJoined, AreNumbered};
ghost use Rattle.scheme_expand.specs.ByWord.{flags_where as flags_with, one_flag as one_of, AreListed, Marks};
ghost use Rattle.scheme_expand.specs.Faults.{in_forms};
ghost use Rattle.scheme_expand.specs.Grammar.{forms};
ghost use Rattle.scheme_expand.specs.Laws.{IsLibrary};
ghost use Rattle.scheme_expand.specs.Noted.{IsLeast};
ghost use Rattle.scheme_expand.specs.Programs.{drafts_with, faults, library_scope, own_names, placed as placed_from, program_scope, public_names as public_names_of, Answers, IsNumbered, Library};
ghost use Rattle.scheme_expand.specs.Rewriting.{form_cores, OfLibrary, OfProgram};
ghost use Rattle.scheme_expand.specs.Viewed.{Suits};
ghost use Rattle.scheme_expand.specs.Views.{Context};
ghost use Rattle.scheme_expand.specs.Waiting.{ReadAll};

use crate::assemble::{Expanded, Whole};
use crate::defined::{defined_names, public_names};
use crate::expander::Expander;
use crate::fault::Fault;
use crate::placed::placed;
use crate::source::Source;
use crate::words::Words;
use core_form::Core;
use datum_form::{Datums, FormErr};
use datum_reader::read_program;
use draft_form::Drafts;
use prelude_text::library;
use std::alloc::{AllocError, Global};

/// The core of a program's data, or its first broken form.
///
/// The fault is the least of the broken forms: the first in place, and there the one of the least rule.
pub fn expand(alloc: Global, datums: &Datums) -> Result<Core, FormErr>
    ensures text { IfOk result HasText }
    ensures core { (ds : Items) → Holds datums.now ds → Answers ds result }
{
    let Ok(library) = read_program(alloc, library().as_bytes()) else {
        return Err(FormErr::NoMemory);
    };
    let Ok(library) = placed(alloc, &library) else {
        return Err(FormErr::NoMemory);
    };
    let Ok(answer) = answer(alloc, &library, datums) else {
        return Err(FormErr::NoMemory);
    };
    match answer {
        Ok(core) => Ok(core),
        Err(fault) => Err(FormErr::Broken {
            pos: fault.pos,
            rule: fault.rule as u32,
        }),
    }
}

/// Expanded forms.
#[derive(Drop)]
struct Forms {
    drafts: Drafts,
    forms: Vec<u32>,
}

impl Forms {
    fn in_source<'a>(&'a self, source: Source<'a>) -> Expanded<'a>
        ensures source { result.source ≡ source.entry }
        ensures drafts { result.drafts.now ≡ self.now.drafts }
        ensures forms { result.forms.now ≡ self.now.forms.items }
    {
        Expanded {
            source,
            drafts: &self.drafts,
            forms: &self.forms,
        }
    }
}

/// A program's expanded forms, and by name, whether it is a public name of which the program has a variable of
/// its own.
#[derive(Drop)]
struct Program {
    forms: Forms,
    own: Vec<bool>,
}

/// The two texts of a core, with their names.
#[derive(Clone, Copy)]
struct Texts<'a> {
    words: &'a Words<'a>,
    library: Source<'a>,
    program: Source<'a>,
}

fn answer<'a>(
    alloc: Global,
    library: &'a Datums,
    program: &'a Datums,
) -> Result<Result<Core, Fault>, AllocError>
    ensures text { IfOk result (λ answer. IfOk answer HasText) }
    ensures fault { IfOk result (λ answer. (ds : Items) → Holds program.now ds → IsLeast (faults ds) answer) }
    ensures core { IfOk result (λ answer. IfOk answer (λ core. (lib ds : Items) → Reads library_text lib → Holds library.now (placed_from 1 lib) → Holds program.now ds → IsNumbered (drafts_with lib ds) core)) }
{
    let library_nodes = library.nodes.as_slice();
    let program_nodes = program.nodes.as_slice();
    let mut words: Words<'a> = Words::new(alloc)?;
    let library_words = words.numbers(alloc, library_nodes)?;
    let program_words = words.numbers(alloc, program_nodes)?;
    core_of(
        alloc,
        &words,
        Source::new(library_nodes, &library_words),
        library.tops.as_slice(),
        Source::new(program_nodes, &program_words),
        program.tops.as_slice(),
    )
}

/// The core of a program, with the definitions of a library.
fn core_of(
    alloc: Global,
    words: &Words,
    library: Source,
    definitions: &[u32],
    program: Source,
    tops: &[u32],
) -> Result<Result<Core, Fault>, AllocError>
    ensures text { IfOk result (λ answer. IfOk answer HasText) }
    ensures fault { IfOk result (λ answer. (ds : Items) → ReadAll program.entry tops.now ds → IsLeast (faults ds) answer) }
    ensures core { IfOk result (λ answer. IfOk answer (λ core. (lib ds : Items) → IsLibrary lib → AreNumbered words.now library.entry program.entry → ReadAll library.entry definitions.now (placed_from 1 lib) → ReadAll program.entry tops.now ds → IsNumbered (drafts_with lib ds) core)) }
{
    let texts = Texts {
        words,
        library,
        program,
    };
    let defined = defined_names(alloc, library, definitions)?;
    let public = public_names(alloc, words, &defined)?;
    match expand_program(alloc, &texts, &public, tops)? {
        Ok(program) => {
            let library = expand_library(alloc, &texts, definitions)?;
            let core = joined(alloc, &texts, &library, &defined, &program)?;
            Ok(Ok(core))
        }
        Err(fault) => Ok(Err(fault)),
    }
}

/// The core of expanded forms.
fn joined(
    alloc: Global,
    texts: &Texts,
    library: &Forms,
    defined: &[u32],
    program: &Program,
) -> Result<Core, AllocError>
    ensures text { IfOk result HasText }
    ensures made { IfOk result (λ core. (own : List (List ℕ)) (ds es : Trees) → AreJoined own ds es texts.now library.now defined.now program.now → IsNumbered (whole_with own ds es (map (word_name texts.now.words.now.names.keys) defined.now)) core) }
{
    let whole = Whole {
        words: texts.words,
        library: library.in_source(texts.library),
        defined,
        program: program.forms.in_source(texts.program),
        own: &program.own,
    };
    whole.core(alloc)
}

/// Expands a program's forms. A public name that the program assigns or defines is its own: it has a
/// variable of its own of that name.
fn expand_program(
    alloc: Global,
    texts: &Texts,
    public: &[bool],
    tops: &[u32],
) -> Result<Result<Program, Fault>, AllocError>
    ensures fault { IfOk result (λ answer. (ds : Items) → ReadAll texts.now.program tops.now ds → IsLeast (faults ds) answer) }
    ensures core { IfOk result (λ answer. IfOk answer (λ program. (c : Context) (library : Library) (ds : Items) → Suits c texts.now.words.now texts.now.program → c.side ≡ OfProgram (public_names_of library.names) [] → Marks c.names (public_names_of library.names) public.now → length public.now ≡ length c.names → AreListed c.names (public_names_of library.names) → ReadAll c.source tops.now ds → Marks c.names (own_names library (forms ds)) program.own.items × AllDrawn c.names c.source.nodes.now program.forms.drafts program.forms.forms.items (form_cores (forms ds) (program_scope library (own_names library (forms ds)))))) }
{
    let mut expander = Expander::new(alloc, texts.program, texts.words.helpers, public)?;
    expander.forms(tops)?;
    match expander.fault {
        Some(fault) => return Ok(Err(fault)),
        None => {}
    }
    let own = flags_where(alloc, true, public, &expander.changed)?;
    if !one_flag(&own) {
        let maker = expander.maker;
        let forms = Forms {
            drafts: maker.drafts,
            forms: maker.made,
        };
        return Ok(Ok(Program { forms, own }));
    }
    let others = flags_where(alloc, false, public, &own)?;
    let mut expander = Expander::new(alloc, texts.program, texts.words.helpers, &others)?;
    expander.forms(tops)?;
    let maker = expander.maker;
    let forms = Forms {
        drafts: maker.drafts,
        forms: maker.made,
    };
    Ok(Ok(Program { forms, own }))
}

/// The flags of the first list that stand where the second has this one.
fn flags_where(
    alloc: Global,
    wanted: bool,
    all: &[bool],
    some: &[bool],
) -> Result<Vec<bool>, AllocError>
    ensures { IfOk result (λ flags. flags.items ≡ flags_with wanted all.now some.now) }
{
    let mut flags = Vec::new(alloc);
    let mut rest = all;
    let mut others = some;
    while let Some((flag, more)) = rest.split_first() {
        let Some((other, less)) = others.split_first() else {
            return Ok(flags);
        };
        flags.push(*flag && *other == wanted)?;
        rest = more;
        others = less;
    }
    Ok(flags)
}

/// Whether a flag stands.
fn one_flag(flags: &[bool]) -> bool
    ensures { result ≡ one_of flags.now }
{
    let mut rest = flags;
    while let Some((flag, others)) = rest.split_first() {
        if *flag {
            return true;
        }
        rest = others;
    }
    false
}

/// Expands the library's definitions.
fn expand_library(alloc: Global, texts: &Texts, tops: &[u32]) -> Result<Forms, AllocError>
    ensures { IfOk result (λ made. (c : Context) (ds : Items) → Suits c texts.now.words.now texts.now.library → c.side ≡ OfLibrary → ReadAll c.source tops.now ds → in_forms (forms ds) ≡ [] → AllDrawn c.names c.source.nodes.now made.drafts made.forms.items (form_cores (forms ds) library_scope)) }
{
    let mut all = Vec::new(alloc);
    all.resize(texts.words.len(), true)?;
    let mut expander = Expander::new(alloc, texts.library, texts.words.helpers, &all)?;
    expander.forms(tops)?;
    let maker = expander.maker;
    Ok(Forms {
        drafts: maker.drafts,
        forms: maker.made,
    })
}
