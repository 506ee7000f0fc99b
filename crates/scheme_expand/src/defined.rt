//! The names that the library's definitions define, and which of them are a program's to use.

ghost use Rattle.std.specs.Prelude.{◌≡◌, ℕ, map, length, if◌then◌else◌, slice_set, true, IfOk};
ghost use Rattle.datum_form.specs.Data.{Datum, Items};
ghost use Rattle.draft_form.specs.Drawn.{word_name, Names};
ghost use Rattle.scheme_expand.specs.ByWord.{AreDefined, DefinesWord, HaveOneWord, Marks};
ghost use Rattle.scheme_expand.specs.Programs.{is_public, public_names};
ghost use Rattle.scheme_expand.specs.Symbols.{AreSpelled};
ghost use Rattle.scheme_expand.specs.Waiting.{Reads, ReadAll};

use crate::body::read_definition;
use crate::source::Source;
use crate::words::Words;
use std::alloc::{AllocError, Global};

/// The words of the names that definitions define, each of which is of one name.
pub(crate) fn defined_names(
    alloc: Global,
    source: Source,
    tops: &[u32],
) -> Result<Vec<u32>, AllocError>
    ensures names { IfOk result (λ words. (names : Names) (ds : Items) → AreSpelled names source.entry.nodes.now source.entry.words.now → ReadAll source.entry tops.now ds → AreDefined names words.items ds) }
    ensures count { IfOk result (λ words. length words.items ≡ length tops.now) }
{
    let mut words = Vec::new(alloc);
    let mut rest = tops;
    while let Some((first, others)) = rest.split_first() {
        let word = defined_name(source, *first)?;
        words.push(word)?;
        rest = others;
    }
    Ok(words)
}

/// The word of the name that a definition defines.
fn defined_name(source: Source, top: u32) -> Result<u32, AllocError>
    ensures { IfOk result (λ word. (names : Names) (d : Datum) → AreSpelled names source.entry.nodes.now source.entry.words.now → Reads source.entry top d → DefinesWord names word d) }
{
    if !source.defines(top) {
        return Err(AllocError);
    }
    let Ok(definition) = read_definition(source, top) else {
        return Err(AllocError);
    };
    let Some(word) = source.word(definition.name) else {
        return Err(AllocError);
    };
    Ok(word)
}

/// By word, whether it is that of a public name among these: one that does not begin with `%`.
pub(crate) fn public_names(
    alloc: Global,
    words: &Words,
    names: &[u32],
) -> Result<Vec<bool>, AllocError>
    ensures marks { IfOk result (λ flags. HaveOneWord words.now.names.keys (map (word_name words.now.names.keys) names.now) → Marks words.now.names.keys (public_names (map (word_name words.now.names.keys) names.now)) flags.items) }
    ensures size { IfOk result (λ flags. length flags.items ≡ length words.now.names.keys) }
{
    let mut public = Vec::new(alloc);
    public.resize(words.len(), false)?;
    for name in names {
        raise_if(&mut public, *name, is_public(words.name(*name)));
    }
    Ok(public)
}

/// Whether a name does not begin with `%`.
fn is_public(name: &[u8]) -> bool
    ensures { result ≡ is_public name.now }
{
    match name.first() {
        Some(first) => *first != b'%',
        None => false,
    }
}

/// Raises the flag of a word, if it is to be raised.
fn raise_if(flags: &mut Vec<bool>, word: u32, raised: bool)
    ensures { flags.new.items ≡ (if raised then slice_set flags.old.items word true else flags.old.items) }
{
    if !raised {
        return;
    }
    if flags.len() <= word as usize {
        return;
    }
    flags[word as usize] = true;
}
