//! The expressions of a form in the order of its text, and the variables in it.

ghost use Rattle.std.specs.Prelude.{◌≡◌, ◌++◌, Some, slice_get, OnOk, IfOk};
ghost use Rattle.draft_form.specs.Drafts.{Draft as Tree, Drafts as Forms, parts, all_parts};
ghost use Rattle.draft_form.specs.Drawn.{Names, Data, Drawn, AllDrawn};
ghost use Rattle.scheme_expand.specs.ByWord.{at_most_one, variables_at};
ghost use Rattle.scheme_expand.specs.Order.{variable_at, AreParts, Lists};

use core_form::What;
use draft_form::{Draft, Drafts, Variable, push_parts};
use std::alloc::{AllocError, Global};

/// Puts the numbers of a form's expressions, each before its parts, behind others.
pub(crate) fn preorder(
    alloc: Global,
    drafts: &Drafts,
    form: u32,
    order: &mut Vec<u32>,
) -> Result<(), AllocError>
    ensures { OnOk result ((names : Names) (nodes : Data) (e : Tree) → Drawn names nodes drafts.now form e → Lists names nodes drafts.now order.old.items order.new.items (parts e)) }
{
    let mut waiting = Vec::new(alloc);
    waiting.push(form)?;
    for _turn in 0..usize::MAX {
        let Some(id) = waiting.pop() else {
            return Ok(());
        };
        let draft = draft_at(drafts, id)?;
        order.push(id)?;
        push_parts(draft, &mut waiting)?;
    }
    Err(AllocError)
}

pub(crate) fn draft_at(drafts: &Drafts, id: u32) -> Result<&Draft, AllocError>
    ensures { IfOk result (λ draft. slice_get drafts.now.exprs.items id ≡ Some draft.now) }
{
    match drafts.exprs.get(id as usize) {
        Some(draft) => Ok(draft),
        None => Err(AllocError),
    }
}

/// The numbers of the expressions of forms, in the order of their text.
pub(crate) fn order_of(
    alloc: Global,
    drafts: &Drafts,
    forms: &[u32],
) -> Result<Vec<u32>, AllocError>
    ensures { IfOk result (λ order. (names : Names) (nodes : Data) (es : Forms) → AllDrawn names nodes drafts.now forms.now es → AreParts names nodes drafts.now order.items (all_parts es)) }
{
    let mut order = Vec::new(alloc);
    for form in forms {
        preorder(alloc, drafts, *form, &mut order)?;
    }
    Ok(order)
}

/// The variables that expressions refer to, assign or define.
pub(crate) fn variables_of(
    alloc: Global,
    drafts: &Drafts,
    order: &[u32],
) -> Result<Vec<Variable>, AllocError>
    ensures { IfOk result (λ variables. variables.items ≡ variables_at drafts.now.exprs.items order.now) }
{
    let mut variables = Vec::new(alloc);
    for id in order {
        push_variable(drafts, *id, &mut variables)?;
    }
    Ok(variables)
}

fn push_variable(drafts: &Drafts, id: u32, variables: &mut Vec<Variable>) -> Result<(), AllocError>
    ensures { OnOk result (variables.new.items ≡ variables.old.items ++ at_most_one (variable_at drafts.now.exprs.items id)) }
{
    match variable_of(drafts, id) {
        Some(variable) => {
            variables.push(variable)?;
            Ok(())
        }
        None => Ok(()),
    }
}

/// The variable that an expression refers to, assigns or defines.
fn variable_of(drafts: &Drafts, id: u32) -> Option<Variable>
    ensures { result ≡ variable_at drafts.now.exprs.items id }
{
    let draft: &Draft = drafts.exprs.get(id as usize)?;
    match &draft.what {
        What::Ref(variable) => Some(*variable),
        What::Set { var, .. } | What::Define { var, .. } => Some(*var),
        _ => None,
    }
}
