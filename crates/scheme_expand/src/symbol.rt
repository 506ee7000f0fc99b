//! The symbols in the constants of expressions.

ghost use Rattle.std.specs.Prelude.{◌≡◌, ℕ, List, [], ◌∷◌, ◌++◌, reverse, drop, Some, slice_get, OnOk, IfOk};
ghost use Rattle.core_form.specs.declared.program.What.{What as Expr};
ghost use Rattle.scheme_base.specs.declared.pos.Pos.{Pos as Place};
ghost use Rattle.core_form.specs.Trees.{IsNode};
ghost use Rattle.draft_form.specs.declared.draft.Variable.{Variable};
ghost use Rattle.draft_form.specs.Drafts.{Part};
ghost use Rattle.draft_form.specs.Drawn.{Names};
ghost use Rattle.scheme_expand.specs.ByWord.{at_most_one};
ghost use Rattle.scheme_expand.specs.Order.{AreParts, IsPart, IsQuoted};
ghost use Rattle.scheme_expand.specs.Programs.{symbols};
ghost use Rattle.scheme_expand.specs.Symbols.{data_of, items_from, items_of, AreSpelled, TakesNames, TakesSome, Wait};

use crate::first::Firsts;
use crate::order::draft_at;
use crate::source::Source;
use core_form::What;
use datum_form::Kind;
use draft_form::{Constant, Drafts, push_reversed};
use std::alloc::{AllocError, Global};

/// Takes the names that are symbols in the constants of expressions.
pub(crate) fn take_symbols(
    alloc: Global,
    source: Source,
    drafts: &Drafts,
    order: &[u32],
    firsts: &mut Firsts,
) -> Result<(), AllocError>
    ensures { OnOk result ((names : Names) (found : List Part) → AreSpelled names source.entry.nodes.now source.entry.words.now → AreParts names source.entry.nodes.now drafts.now order.now found → TakesNames names (symbols found) firsts.old firsts.new) }
{
    for id in order {
        take_in_expression(alloc, source, drafts, *id, firsts)?;
    }
    Ok(())
}

fn take_in_expression(
    alloc: Global,
    source: Source,
    drafts: &Drafts,
    id: u32,
    firsts: &mut Firsts,
) -> Result<(), AllocError>
    ensures { OnOk result ((names : Names) (what : Expr Variable) (p : Place) (found : List Part) → AreSpelled names source.entry.nodes.now source.entry.words.now → IsNode drafts.now.exprs.items id what p → IsPart names source.entry.nodes.now drafts.now what found → TakesNames names (symbols found) firsts.old firsts.new) }
{
    let draft = draft_at(drafts, id)?;
    match &draft.what {
        What::Const(number) => {
            let constant = constant_at(drafts, *number)?;
            take_in_constant(alloc, source, constant, firsts)
        }
        _ => Ok(()),
    }
}

fn constant_at(drafts: &Drafts, number: u32) -> Result<Constant, AllocError>
    ensures { IfOk result (λ constant. slice_get drafts.now.constants.items number ≡ Some constant) }
{
    match drafts.constants.get(number as usize) {
        Some(constant) => Ok(*constant),
        None => Err(AllocError),
    }
}

fn take_in_constant(
    alloc: Global,
    source: Source,
    constant: Constant,
    firsts: &mut Firsts,
) -> Result<(), AllocError>
    ensures { OnOk result ((names : Names) (found : List Part) → AreSpelled names source.entry.nodes.now source.entry.words.now → IsQuoted source.entry.nodes.now constant found → TakesNames names (symbols found) firsts.old firsts.new) }
{
    let mut waiting = Vec::new(alloc);
    push_data(source, constant, &mut waiting)?;
    take_in_data(source, &mut waiting, firsts)?;
    Ok(())
}

/// Puts the data that a constant is of, the last first, behind others.
fn push_data(source: Source, constant: Constant, to: &mut Vec<u32>) -> Result<(), AllocError>
    ensures { OnOk result (to.new.items ≡ to.old.items ++ reverse (data_of source.entry.nodes.now constant)) }
{
    match constant {
        Constant::Datum(id) => {
            to.push(id)?;
            Ok(())
        }
        Constant::Rest { node, from } => push_items(source, node, from, to),
        _ => Ok(()),
    }
}

/// Takes the symbols in all data that wait, of which the last is next.
fn take_in_data(
    source: Source,
    waiting: &mut Vec<u32>,
    firsts: &mut Firsts,
) -> Result<(), AllocError>
    ensures { OnOk result ((names : Names) (xs : List (List ℕ)) → AreSpelled names source.entry.nodes.now source.entry.words.now → Wait source.entry.nodes.now waiting.old.items xs → TakesNames names xs firsts.old firsts.new) }
{
    for _turn in 0..usize::MAX {
        let Some(id) = waiting.pop() else {
            return Ok(());
        };
        take_in_datum(source, id, waiting, firsts)?;
    }
    Err(AllocError)
}

/// Takes a symbol, or lets the parts of a datum wait.
fn take_in_datum(
    source: Source,
    id: u32,
    waiting: &mut Vec<u32>,
    firsts: &mut Firsts,
) -> Result<(), AllocError>
    ensures { OnOk result ((names : Names) (xs : List (List ℕ)) → AreSpelled names source.entry.nodes.now source.entry.words.now → Wait source.entry.nodes.now (waiting.old.items ++ id ∷ []) xs → TakesSome names source.entry.nodes.now xs waiting.new.items firsts.old firsts.new) }
{
    match source.word(id) {
        Some(word) => firsts.take(word),
        None => push_items(source, id, 0, waiting),
    }
}

/// Puts what a list or a vector has from an index on, the last first, behind others.
fn push_items(source: Source, id: u32, from: u32, to: &mut Vec<u32>) -> Result<(), AllocError>
    ensures { OnOk result (to.new.items ≡ to.old.items ++ reverse (items_of from (slice_get source.entry.nodes.now id))) }
{
    match source.nodes.get(id as usize) {
        Some(node) => push_parts_of(&node.kind, from, to),
        None => Err(AllocError),
    }
}

fn push_parts_of(kind: &Kind, from: u32, to: &mut Vec<u32>) -> Result<(), AllocError>
    ensures { OnOk result (to.new.items ≡ to.old.items ++ reverse (items_from from kind.now)) }
{
    match kind {
        Kind::List { items, tail } => {
            push_tail(*tail, to)?;
            push_rest(items.as_slice(), from, to)
        }
        Kind::Vector { items } => push_rest(items.as_slice(), from, to),
        _ => Ok(()),
    }
}

fn push_tail(tail: Option<u32>, to: &mut Vec<u32>) -> Result<(), AllocError>
    ensures { OnOk result (to.new.items ≡ to.old.items ++ at_most_one tail) }
{
    match tail {
        Some(id) => {
            to.push(id)?;
            Ok(())
        }
        None => Ok(()),
    }
}

fn push_rest(ids: &[u32], from: u32, to: &mut Vec<u32>) -> Result<(), AllocError>
    ensures { OnOk result (to.new.items ≡ to.old.items ++ reverse (drop from ids.now)) }
{
    match ids.get(from as usize..) {
        Some(rest) => push_reversed(rest, to),
        None => Err(AllocError),
    }
}
