ghost use Rattle.std.specs.Prelude.{◌≡◌, ◌∷◌, [], ◌++◌, map, IfOk, OnOk};
ghost use Rattle.core_form.specs.declared.program.Var.{Var};
ghost use Rattle.core_form.specs.Trees.{Tree, Trees, Stands, Holds};
ghost use Rattle.alpha_core.specs.Depth.{deepest};
ghost use Rattle.alpha_core.specs.Levels.{Leaves};

use core_form::{Core, What};
use scheme_base::Ids;
use std::alloc::{AllocError, Global};

/// An expression that is still to be looked at, and how many expressions it stands in.
#[derive(Clone, Copy, Debug)]
struct Level {
    expr: u32,
    around: u64,
}

/// The depth of a core: 1 for an expression without parts, else one more than the deepest part; the
/// greatest of its forms, and 0 of none.
pub(crate) fn depth_of(alloc: Global, core: &Core) -> Result<u64, AllocError>
    ensures { IfOk result (λ depth. (forms : Trees Var) → Holds core.now forms → depth ≡ deepest forms) }
{
    let mut levels = Vec::new(alloc);
    push_all(&core.forms, 0, &mut levels)?;
    let mut deepest: u64 = 0;
    let mut visits: u64 = 0;
    while let Some(level) = levels.pop() {
        let Some(next) = visits.checked_add(1) else {
            return Err(AllocError);
        };
        visits = next;
        let Some(depth) = level.around.checked_add(1) else {
            return Err(AllocError);
        };
        deepest = deepest.max(depth);
        push_parts(core, level.expr, depth, &mut levels)?;
    }
    Ok(deepest)
}

/// Leaves the parts of an expression, which stand in `depth` expressions.
fn push_parts(core: &Core, expr: u32, depth: u64, levels: &mut Vec<Level>) -> Result<(), AllocError>
    ensures { OnOk result ((e : Tree Var) → Stands core.now.exprs expr e → Leaves core.now.exprs depth e levels.old.items levels.new.items) }
{
    let Some(node) = core.exprs.get(expr as usize) else {
        return Err(AllocError);
    };
    match &node.what {
        What::Const(_) => Ok(()),
        What::Ref(_) => Ok(()),
        What::Lambda { body, .. } => push_part(*body, depth, levels),
        What::If { test, yes, no } => {
            push_part(*test, depth, levels)?;
            push_part(*yes, depth, levels)?;
            push_part(*no, depth, levels)
        }
        What::Set { value, .. } => push_part(*value, depth, levels),
        What::Call { operator, operands } => {
            push_part(*operator, depth, levels)?;
            push_all(operands, depth, levels)
        }
        What::Prim { operands, .. } => push_all(operands, depth, levels),
        What::Seq { items } => push_all(items, depth, levels),
        What::Fix { lambdas, body, .. } => {
            push_all(lambdas, depth, levels)?;
            push_part(*body, depth, levels)
        }
        What::Define { value, .. } => push_part(*value, depth, levels),
    }
}

fn push_part(expr: u32, around: u64, levels: &mut Vec<Level>) -> Result<(), AllocError>
    ensures { OnOk result (levels.new.items ≡ levels.old.items ++ record { expr = expr; around = around } ∷ []) }
{
    levels.push(Level { expr, around })?;
    Ok(())
}

fn push_all(exprs: &Ids, around: u64, levels: &mut Vec<Level>) -> Result<(), AllocError>
    ensures { OnOk result (levels.new.items ≡ levels.old.items ++ map (λ i. record { expr = i; around = around }) exprs.now) }
{
    let mut rest = exprs.as_slice();
    while let Some((expr, others)) = rest.split_first() {
        push_part(*expr, around, levels)?;
        rest = others;
    }
    Ok(())
}
