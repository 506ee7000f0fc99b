//! Data whose names have numbers.

ghost use Rattle.std.specs.Prelude.{◌≡◌, MatchOption, slice_get, false};
ghost use Rattle.datum_form.specs.Data.{Datum};
ghost use Rattle.datum_form.specs.Pending.{IsKind};
ghost use Rattle.quasi_expand.specs.Shapes.{is_list, is_word};
ghost use Rattle.scheme_expand.specs.Grammar.{is_define, expr};
ghost use Rattle.scheme_expand.specs.Making.{IsRight};
ghost use Rattle.scheme_expand.specs.Rewriting.{is_lambda as is_procedure};
ghost use Rattle.scheme_expand.specs.Noted.{level_in};
ghost use Rattle.scheme_expand.specs.Shapes.{is_listed, IsListed};
ghost use Rattle.scheme_expand.specs.Waiting.{Reads, IsList, place, keyword_of as keyword_word, head_of, name_of};

use crate::words::{Keyword, keyword_of};
use datum_form::{Kind, Node};
use scheme_base::Pos;

/// Some data, and the number of the name that each node is.
#[derive(Clone, Copy)]
pub(crate) struct Source<'a> {
    pub(crate) nodes: &'a [Node],
    pub(crate) words: &'a [Option<u32>],
}

impl<'a> Source<'a> {
    pub(crate) fn new(nodes: &'a [Node], words: &'a [Option<u32>]) -> Source<'a>
        ensures nodes { result.nodes.now ≡ nodes.now }
        ensures words { result.words.now ≡ words.now }
    {
        Source { nodes, words }
    }

    pub(crate) fn pos(self, id: u32) -> Pos
        ensures { (d : Datum) → Reads self.entry id d → result ≡ place d }
    {
        match self.nodes.get(id as usize) {
            Some(node) => node.pos,
            None => Pos { line: 0, col: 0 },
        }
    }

    pub(crate) fn kind(self, id: u32) -> Option<&'a Kind>
        ensures { (d : Datum) → Reads self.entry id d → MatchOption result ⊥ (λ kind. IsKind self.entry.nodes.now kind.now d) }
    {
        let node = self.nodes.get(id as usize)?;
        Some(&node.kind)
    }

    /// The number of a name.
    pub(crate) fn word(self, id: u32) -> Option<u32>
        ensures { result ≡ level_in (slice_get self.entry.words.now id) }
    {
        *self.words.get(id as usize)?
    }

    pub(crate) fn keyword(self, id: u32) -> Option<Keyword>
        ensures { (d : Datum) → Reads self.entry id d → result ≡ keyword_word d }
    {
        keyword_of(self.word(id)?)
    }

    /// Whether a datum is this keyword.
    pub(crate) fn is_keyword(self, id: u32, keyword: Keyword) -> bool
        ensures { (d : Datum) → Reads self.entry id d → result ≡ is_word (name_of keyword) d }
    {
        match self.keyword(id) {
            Some(found) => found == keyword,
            None => false,
        }
    }

    /// The items of a list that has no tail.
    pub(crate) fn list(self, id: u32) -> Option<&'a [u32]>
        ensures { (d : Datum) → Reads self.entry id d → MatchOption result (is_list d ≡ false) (λ ids. IsList self.entry ids.now d) }
    {
        match self.kind(id)? {
            Kind::List { items, tail: None } => Some(items.as_slice()),
            _ => None,
        }
    }

    /// The items of a list, and its tail.
    pub(crate) fn listed(self, id: u32) -> Option<(&'a [u32], Option<u32>)>
        ensures { (d : Datum) → Reads self.entry id d → MatchOption result (is_listed d ≡ false) (λ parts. IsListed self.entry parts.0.now parts.1 d) }
    {
        match self.kind(id)? {
            Kind::List { items, tail } => Some((items.as_slice(), *tail)),
            _ => None,
        }
    }

    /// Whether this is a list that begins with `define`.
    pub(crate) fn defines(self, id: u32) -> bool
        ensures { (d : Datum) → Reads self.entry id d → result ≡ is_define d }
    {
        match self.head(id) {
            Some(keyword) => keyword.is_define(),
            None => false,
        }
    }

    /// Whether this is a lambda expression, if it is a good form.
    pub(crate) fn is_lambda(self, id: u32) -> bool
        ensures { (d : Datum) → Reads self.entry id d → IsRight (expr d) → result ≡ is_procedure (expr d) }
    {
        match self.head(id) {
            Some(keyword) => keyword.is_lambda(),
            None => false,
        }
    }

    /// The keyword with which a list begins, whether it has a tail or not.
    pub(crate) fn head(self, id: u32) -> Option<Keyword>
        ensures { (d : Datum) → Reads self.entry id d → result ≡ head_of d }
    {
        match self.kind(id)? {
            Kind::List { items, .. } => self.keyword(*items.as_slice().first()?),
            _ => None,
        }
    }
}
