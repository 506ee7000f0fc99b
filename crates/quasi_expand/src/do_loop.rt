//! `do` (R4RS 4.2.4).

ghost use Rattle.std.specs.Prelude.{◌≡◌, Some, None, if◌then◌else◌};
ghost use Rattle.datum_form.specs.Data.{Datum, Items};
ghost use Rattle.datum_form.specs.Stands.{Stands, StandAll};
ghost use Rattle.quasi_expand.specs.Agreement.{Agree};
ghost use Rattle.quasi_expand.specs.Loops.{IsDo, IsStep, do_of, step_of};
ghost use Rattle.quasi_expand.specs.Shapes.{all_items, is_step, is_name as names};

use crate::shape::{is_name, list_items};
use datum_form::Node;

/// `(do (binding ..) (test result ..) command ..)`.
#[derive(Clone, Copy, Debug)]
pub struct DoLoop<'a> {
    pub bindings: &'a [u32],
    pub test: u32,
    pub results: &'a [u32],
    pub commands: &'a [u32],
}

/// `(name init step)`, or `(name init)` where the variable keeps its value.
#[derive(Clone, Copy, Debug)]
pub struct DoBinding {
    pub name: u32,
    pub init: u32,
    pub step: Option<u32>,
}

/// The parts of a `do` with these items, if it has bindings, each of which is one, and a test clause.
pub fn read_do<'a>(nodes: &'a [Node], items: &'a [u32]) -> Option<DoLoop<'a>>
    ensures { (ds : Items) → StandAll nodes.now items.now ds → Agree (IsDo nodes.now) result (do_of ds) }
{
    match items {
        [_, bindings, clause, commands @ ..] => {
            match (list_items(nodes, *bindings), list_items(nodes, *clause)) {
                (Some(bindings), Some([test, results @ ..])) => {
                    if each_is_binding(nodes, bindings) {
                        Some(DoLoop {
                            bindings,
                            test: *test,
                            results,
                            commands,
                        })
                    } else {
                        None
                    }
                }
                _ => None,
            }
        }
        _ => None,
    }
}

/// Whether these are bindings.
fn each_is_binding(nodes: &[Node], bindings: &[u32]) -> bool
    ensures { (ds : Items) → StandAll nodes.now bindings.now ds → result ≡ all_items is_step ds }
{
    let mut rest = bindings;
    while let Some((binding, others)) = rest.split_first() {
        if do_binding(nodes, *binding).is_none() {
            return false;
        }
        rest = others;
    }
    true
}

/// The parts of a binding.
pub fn do_binding(nodes: &[Node], binding: u32) -> Option<DoBinding>
    ensures { (d : Datum) → Stands nodes.now binding d → Agree (IsStep nodes.now) result (step_of d) }
{
    match list_items(nodes, binding) {
        Some([name, init]) => binding_of(nodes, *name, *init, None),
        Some([name, init, step]) => binding_of(nodes, *name, *init, Some(*step)),
        _ => None,
    }
}

/// The binding of a variable, if it is a name.
fn binding_of(nodes: &[Node], name: u32, init: u32, step: Option<u32>) -> Option<DoBinding>
    ensures { (d : Datum) → Stands nodes.now name d → result ≡ (if names d then Some (record { name = name; init = init; step = step }) else None) }
{
    if is_name(nodes, name) {
        Some(DoBinding { name, init, step })
    } else {
        None
    }
}
