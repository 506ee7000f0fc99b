//! The formals of a lambda expression (R4RS 4.1.4).

ghost use Rattle.std.specs.Prelude.{◌≡◌, List as Seq, Option as Perhaps, IfOk, MatchOption, true, false};
ghost use Rattle.datum_form.specs.Data.{Datum, Items};
ghost use Rattle.scheme_expand.specs.declared.source.Source.{Source as From};
ghost use Rattle.scheme_expand.specs.Forms.{Word};
ghost use Rattle.scheme_expand.specs.Grammar.{are_formals, params_of, rest_of, and_rest, words, twice as some_twice};
ghost use Rattle.scheme_expand.specs.Waiting.{Reads, ReadAll, named_data};
ghost use Rattle.scheme_expand.specs.Shapes.{AreFormals, ReadTail, all_names, end_word};

use crate::source::Source;
use datum_form::Kind;
use indexmap::IndexSet;
use std::alloc::{AllocError, Global};

/// The names of parameters, and of a rest parameter.
#[derive(Clone, Copy)]
pub(crate) struct Formals<'a> {
    pub(crate) params: &'a [u32],
    pub(crate) rest: Option<u32>,
}

impl Formals<'_> {
    /// All names, the rest parameter last.
    pub(crate) fn names(self, alloc: Global) -> Result<Vec<u32>, AllocError>
        ensures { IfOk result (λ names. (from : From) (ws : Seq Word) (r : Perhaps Word) → AreFormals from self.entry ws r → ReadAll from names.items (named_data (and_rest ws r))) }
    {
        let mut names = Vec::new(alloc);
        names.extend_from_slice(self.params)?;
        match self.rest {
            Some(rest) => {
                names.push(rest)?;
                Ok(names)
            }
            None => Ok(names),
        }
    }
}

/// Formals: a name, or names in a list.
pub(crate) fn read_formals<'a>(source: Source<'a>, id: u32) -> Option<Formals<'a>>
    ensures { (d : Datum) → Reads source.entry id d → MatchOption result (are_formals d ≡ false) (λ formals. (are_formals d ≡ true) × AreFormals source.entry formals (params_of d) (rest_of d)) }
{
    match source.kind(id)? {
        Kind::Name(_) => Some(Formals {
            params: &[],
            rest: Some(id),
        }),
        Kind::List { items, tail } => read_params(source, items.as_slice(), *tail),
        _ => None,
    }
}

/// The formals that are these items of a list and its tail, if all are names.
pub(crate) fn read_params<'a>(
    source: Source<'a>,
    params: &'a [u32],
    rest: Option<u32>,
) -> Option<Formals<'a>>
    ensures { (ds : Items) (end : Perhaps Datum) → ReadAll source.entry params.now ds → ReadTail source.entry rest end → MatchOption result (all_names ds end ≡ false) (λ formals. (all_names ds end ≡ true) × AreFormals source.entry formals (words ds) (end_word end)) }
{
    let mut left = params;
    while let Some((first, others)) = left.split_first() {
        source.word(*first)?;
        left = others;
    }
    match rest {
        Some(id) => {
            source.word(id)?;
            Some(Formals {
                params,
                rest: Some(id),
            })
        }
        None => Some(Formals { params, rest: None }),
    }
}

/// Whether a name is twice among these.
pub(crate) fn twice(alloc: Global, source: Source, names: &[u32]) -> Result<bool, AllocError>
    ensures { IfOk result (λ found. (ws : Seq Word) → ReadAll source.entry names.now (named_data ws) → found ≡ some_twice ws) }
{
    let mut seen = IndexSet::new(alloc);
    let mut left = names;
    while let Some((last, others)) = left.split_last() {
        let Some(word) = source.word(*last) else {
            return Err(AllocError);
        };
        let (_, is_new) = seen.insert_full(word)?;
        if !is_new {
            return Ok(true);
        }
        left = others;
    }
    Ok(false)
}
