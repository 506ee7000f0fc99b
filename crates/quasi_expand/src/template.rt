//! The template of a quasiquote (R4RS 4.2.6).

ghost use Rattle.std.specs.Prelude.{◌≡◌, ◌++◌, ℕ, suc, [], ◌∷◌, List as Seq, Option as Perhaps, OnOk, IfOk, None, codes};
ghost use Rattle.scheme_base.specs.declared.pos.Pos.{Pos as Place};
ghost use Rattle.datum_form.specs.Data.{Datum, Datum as datum_tree, Items};
ghost use Rattle.datum_form.specs.Stands.{Stands, StandAll};
ghost use Rattle.quasi_expand.specs.declared.template.Part.TheVariants as step;
ghost use Rattle.quasi_expand.specs.Levels.{evaluated};
ghost use Rattle.quasi_expand.specs.Making.{MakeAll, value as value_of, link as link_of, links};
ghost use Rattle.quasi_expand.specs.Steps.{exprs_in, marks, Gives, MayGive, GivesAt, Lists, IsNext, TailStands, HasRests, IsMarked, EndsIn, IsSplit, IsSpliced};
ghost use Rattle.quasi_expand.specs.Templates.{Template, template as template_at, template_chain, entries, entry as entry_of, marked as marked_by, unquoted as unquoted_by};

use crate::shape::{is_word, kind_at, list_items};
use datum_form::{Kind, Node};
use std::alloc::{AllocError, Global};

/// A step of making a template's value, in postfix order: what an operation is made of stands before it.
#[derive(Clone, Copy, Debug)]
pub enum Part {
    /// A datum as it stands.
    Datum(u32),
    /// The list of what a list or a vector has from this index on, as it stands.
    Rest { node: u32, from: u32 },
    /// The value of an expression.
    Expr(u32),
    /// A pair of the two values before, the car first.
    Cons,
    /// The items of the first of the two values before in front of the second.
    Join,
    /// The vector of the items of the value before.
    Vector,
}

/// The steps that make the value of a template. A datum in which no expression stands is one step.
pub fn read_template(alloc: Global, nodes: &[Node], template: u32) -> Result<Vec<Part>, AllocError>
    ensures exprs { IfOk result (λ parts. (d : Datum) → Stands nodes.now template d → StandAll nodes.now (exprs_in parts.items) (evaluated d 0)) }
    ensures made { IfOk result (λ parts. (d : Datum) → Stands nodes.now template d → MakeAll nodes.now parts.items [] (template_at d 0 ∷ [])) }
{
    let mut parts = Vec::new(alloc);
    datum(nodes, template, 0, nodes.len(), &mut parts)?;
    Ok(parts)
}

/// How a list ends.
#[derive(Clone, Copy, Debug)]
enum End {
    Empty,
    Tail(u32),
    /// The last two items are a mark and its operand, as in `(a . ,b)`.
    Marked(Mark, u32, u32),
}

/// The words of marks.
#[derive(Clone, Copy, Debug, PartialEq, Eq)]
enum Mark {
    Unquote,
    Quasiquote,
}

/// The mark that a name is.
fn mark_of(nodes: &[Node], name: u32) -> Option<Mark>
    ensures { (d : Datum) → Stands nodes.now name d → result ≡ marks d }
{
    if is_word(nodes, name, b"unquote") {
        return Some(Mark::Unquote);
    }
    if is_word(nodes, name, b"quasiquote") {
        return Some(Mark::Quasiquote);
    }
    None
}

/// The items of a list, without those that are its end.
fn split_end<'a>(nodes: &[Node], items: &'a [u32], tail: Option<u32>) -> (&'a [u32], End)
    ensures { (ds : Items) (d : Perhaps Datum) → StandAll nodes.now items.now ds → TailStands nodes.now tail d → IsSplit nodes.now result.0.now result.1 ds d }
{
    match tail {
        Some(tail) => (items, End::Tail(tail)),
        None => split_marked(nodes, items),
    }
}

/// The items of a list that has no tail, without a mark and its operand at its end.
fn split_marked<'a>(nodes: &[Node], items: &'a [u32]) -> (&'a [u32], End)
    ensures { (ds : Items) → StandAll nodes.now items.now ds → IsSplit nodes.now result.0.now result.1 ds None }
{
    let Some((operand, others)) = items.split_last() else {
        return (items, End::Empty);
    };
    let Some((name, before)) = others.split_last() else {
        return (items, End::Empty);
    };
    match mark_of(nodes, *name) {
        Some(mark) => (before, End::Marked(mark, *name, *operand)),
        None => (items, End::Empty),
    }
}

/// The name and the expression of an `(unquote-splicing e)`.
fn spliced(nodes: &[Node], item: u32) -> Option<(u32, u32)>
    ensures { (d : Datum) → Stands nodes.now item d → IsSpliced nodes.now item result d }
{
    let [name, expr] = list_items(nodes, item)? else {
        return None;
    };
    if is_word(nodes, *name, b"unquote-splicing") {
        Some((*name, *expr))
    } else {
        None
    }
}

/// Adds the steps of a datum at a level of quasiquotes, and tells whether an expression stands in it.
/// `depth` bounds its nesting.
#[cycle(template)]
fn datum(
    nodes: &[Node],
    id: u32,
    level: usize,
    depth: usize,
    parts: &mut Vec<Part>,
) -> Result<bool, AllocError>
    ensures { IfOk result (λ found. (d : Datum) → Stands nodes.now id d → Gives nodes.now found parts.old.items parts.new.items (template_at d level)) }
{
    let Some(kind) = kind_at(nodes, id) else {
        return Err(AllocError);
    };
    if depth == 0 {
        return Err(AllocError);
    }
    match kind {
        Kind::List { items, tail } => {
            chain(nodes, id, items.as_slice(), *tail, level, depth - 1, parts)
        }
        Kind::Vector { items } => row(nodes, id, items.as_slice(), level, depth - 1, parts),
        _ => {
            parts.push(Part::Datum(id))?;
            Ok(false)
        }
    }
}

/// Adds the steps of a vector of some items.
#[cycle(template)]
fn row(
    nodes: &[Node],
    node: u32,
    items: &[u32],
    level: usize,
    depth: usize,
    parts: &mut Vec<Part>,
) -> Result<bool, AllocError>
    ensures { IfOk result (λ found. (p : Place) (ds : Items) → StandAll nodes.now items.now ds → Stands nodes.now node (datum_tree.Vector p ds) → HasRests nodes.now node items.now None → Gives nodes.now found parts.old.items parts.new.items (template_at (datum_tree.Vector p ds) level)) }
{
    let found = chain(nodes, node, items, None, level, depth, parts)?;
    if found {
        parts.push(Part::Vector)?;
        return Ok(true);
    }
    Ok(false)
}

/// Adds the steps of the list of some items before a tail, which stand in this node. What stands after the
/// last expression in it is one step.
#[cycle(template)]
fn chain(
    nodes: &[Node],
    node: u32,
    items: &[u32],
    tail: Option<u32>,
    level: usize,
    depth: usize,
    parts: &mut Vec<Part>,
) -> Result<bool, AllocError>
    ensures { IfOk result (λ found. (ds : Items) (d : Perhaps Datum) → StandAll nodes.now items.now ds → TailStands nodes.now tail d → HasRests nodes.now node items.now tail → GivesAt nodes.now node found parts.old.items parts.new.items (template_chain ds d level)) }
{
    let start = parts.len();
    let (before, end) = split_end(nodes, items, tail);
    let listed = elements(nodes, before, level, depth, parts)?;
    if ending(nodes, node, items.len(), end, level, depth, parts)? {
        link(nodes, before, level, parts)?;
        return Ok(true);
    }
    if !listed.found {
        parts.truncate(start);
        parts.push(Part::Datum(node))?;
        return Ok(false);
    }
    let steps = parts.len();
    parts.truncate(steps.saturating_sub(listed.plain));
    let made = before.len().saturating_sub(listed.plain);
    push_rest(node, made, parts)?;
    let Some(front) = before.get(..made) else {
        return Err(AllocError);
    };
    link(nodes, front, level, parts)?;
    Ok(true)
}

/// Whether an expression stands in some items, and how many stand after the last one in which one does.
#[derive(Clone, Copy)]
struct Listed {
    found: bool,
    plain: usize,
}

/// Adds the steps of items of a list.
#[cycle(template)]
fn elements(
    nodes: &[Node],
    items: &[u32],
    level: usize,
    depth: usize,
    parts: &mut Vec<Part>,
) -> Result<Listed, AllocError>
    ensures { IfOk result (λ listed. (ds : Items) → StandAll nodes.now items.now ds → Lists nodes.now listed.plain listed.found parts.old.items parts.new.items (entries ds level)) }
{
    let mut listed = Listed {
        found: false,
        plain: 0,
    };
    let mut rest = items;
    while let Some((first, others)) = rest.split_first() {
        let found = element(nodes, *first, level, depth, parts)?;
        listed = listed.and(found)?;
        rest = others;
    }
    Ok(listed)
}

impl Listed {
    /// The same with one item more.
    fn and(self, found: bool) -> Result<Listed, AllocError>
        ensures { IfOk result (λ listed. IsNext found self listed) }
    {
        if found {
            return Ok(Listed {
                found: true,
                plain: 0,
            });
        }
        let Some(plain) = self.plain.checked_add(1) else {
            return Err(AllocError);
        };
        Ok(Listed {
            found: self.found,
            plain,
        })
    }
}

/// Adds the steps of an item of a list. An item in which no expression stands is one step.
#[cycle(template)]
fn element(
    nodes: &[Node],
    item: u32,
    level: usize,
    depth: usize,
    parts: &mut Vec<Part>,
) -> Result<bool, AllocError>
    ensures { IfOk result (λ found. (d : Datum) → Stands nodes.now item d → Gives nodes.now found parts.old.items parts.new.items (value_of (entry_of d level (template_at d level)))) }
{
    let Some((name, operand)) = spliced(nodes, item) else {
        return datum(nodes, item, level, depth, parts);
    };
    let marked = Marked {
        name,
        operand,
        node: item,
        count: 2,
    };
    if unquoted(nodes, marked, level, depth, parts)? {
        return Ok(true);
    }
    parts.push(Part::Datum(item))?;
    Ok(false)
}

/// Adds the steps of a list's end, if an expression stands in it. `count` is how many items the list has.
#[cycle(template)]
fn ending(
    nodes: &[Node],
    node: u32,
    count: usize,
    end: End,
    level: usize,
    depth: usize,
    parts: &mut Vec<Part>,
) -> Result<bool, AllocError>
    ensures { IfOk result (λ found. (inside : ℕ → Template) → EndsIn nodes.now node count end inside → MayGive nodes.now found parts.old.items parts.new.items (inside level)) }
{
    match end {
        End::Empty => Ok(false),
        End::Tail(tail) => inner(nodes, tail, level, depth, parts),
        End::Marked(Mark::Unquote, name, operand) => {
            let marked = Marked {
                name,
                operand,
                node,
                count,
            };
            unquoted(nodes, marked, level, depth, parts)
        }
        End::Marked(Mark::Quasiquote, name, operand) => {
            let marked = Marked {
                name,
                operand,
                node,
                count,
            };
            quasiquoted(nodes, marked, level, depth, parts)
        }
    }
}

/// A mark and its operand, which are the last two of so many items of a node.
#[derive(Clone, Copy)]
struct Marked {
    name: u32,
    operand: u32,
    node: u32,
    count: usize,
}

/// Adds the steps of what is unquoted: of an expression, or of the list of the mark's name and its operand at the
/// level below, if an expression stands in it.
#[cycle(template)]
fn unquoted(
    nodes: &[Node],
    marked: Marked,
    level: usize,
    depth: usize,
    parts: &mut Vec<Part>,
) -> Result<bool, AllocError>
    ensures { IfOk result (λ found. (x : Seq ℕ) (e : Datum) → IsMarked nodes.now x marked e → MayGive nodes.now found parts.old.items parts.new.items (unquoted_by x level e (template_at e))) }
{
    if level == 0 {
        parts.push(Part::Expr(marked.operand))?;
        return Ok(true);
    }
    named(nodes, marked, level - 1, depth, parts)
}

/// Adds the steps of the list of a further quasiquote's name and its operand, if an expression stands in it.
#[cycle(template)]
fn quasiquoted(
    nodes: &[Node],
    marked: Marked,
    level: usize,
    depth: usize,
    parts: &mut Vec<Part>,
) -> Result<bool, AllocError>
    ensures { IfOk result (λ found. (e : Datum) → IsMarked nodes.now (codes "quasiquote") marked e → MayGive nodes.now found parts.old.items parts.new.items (marked_by (codes "quasiquote") (template_at e (suc level)))) }
{
    let Some(further) = level.checked_add(1) else {
        return Err(AllocError);
    };
    named(nodes, marked, further, depth, parts)
}

/// Adds the steps of the list of a mark's name and its operand at a level, if an expression stands in it.
#[cycle(template)]
fn named(
    nodes: &[Node],
    marked: Marked,
    level: usize,
    depth: usize,
    parts: &mut Vec<Part>,
) -> Result<bool, AllocError>
    ensures { IfOk result (λ found. (x : Seq ℕ) (e : Datum) → IsMarked nodes.now x marked e → MayGive nodes.now found parts.old.items parts.new.items (marked_by x (template_at e level))) }
{
    let start = parts.len();
    parts.push(Part::Datum(marked.name))?;
    if !inner(nodes, marked.operand, level, depth, parts)? {
        parts.truncate(start);
        return Ok(false);
    }
    push_rest(marked.node, marked.count, parts)?;
    parts.extend_from_slice(&[Part::Cons, Part::Cons])?;
    Ok(true)
}

/// Adds the steps of a datum at a level, if an expression stands in it.
#[cycle(template)]
fn inner(
    nodes: &[Node],
    id: u32,
    level: usize,
    depth: usize,
    parts: &mut Vec<Part>,
) -> Result<bool, AllocError>
    ensures { IfOk result (λ found. (d : Datum) → Stands nodes.now id d → MayGive nodes.now found parts.old.items parts.new.items (template_at d level)) }
{
    let start = parts.len();
    if datum(nodes, id, level, depth, parts)? {
        return Ok(true);
    }
    parts.truncate(start);
    Ok(false)
}

/// Adds the list of what a node has from an index on.
fn push_rest(node: u32, from: usize, parts: &mut Vec<Part>) -> Result<(), AllocError>
    ensures { OnOk result (parts.new.items ≡ parts.old.items ++ step.Rest node from ∷ []) }
{
    let Ok(from) = u32::try_from(from) else {
        return Err(AllocError);
    };
    parts.push(Part::Rest { node, from })?;
    Ok(())
}

/// Puts items, the last first, before a list.
fn link(
    nodes: &[Node],
    items: &[u32],
    level: usize,
    parts: &mut Vec<Part>,
) -> Result<(), AllocError>
    ensures { OnOk result ((ds : Items) → StandAll nodes.now items.now ds → parts.new.items ≡ parts.old.items ++ links (entries ds level)) }
{
    let mut rest = items;
    while let Some((last, others)) = rest.split_last() {
        parts.push(linking(nodes, *last, level))?;
        rest = others;
    }
    Ok(())
}

/// The step that puts an item before a list.
fn linking(nodes: &[Node], item: u32, level: usize) -> Part
    ensures { (d : Datum) → Stands nodes.now item d → result ≡ link_of (entry_of d level (template_at d level)) }
{
    match spliced(nodes, item) {
        Some(_) if level == 0 => Part::Join,
        _ => Part::Cons,
    }
}
