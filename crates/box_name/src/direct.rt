ghost use Rattle.std.specs.Prelude.{◌≡◌, false, IfSome, IfNone};
ghost use Rattle.core_form.specs.declared.program.VarRef.{VarRef as Ref};
ghost use Rattle.core_form.specs.Trees.{Tree, Stands};
ghost use Rattle.core_form.specs.Valid.{is_hole as has_no_value};
ghost use Rattle.box_name.specs.NamingSteps.{IsDirect};
ghost use Rattle.box_name.specs.Told.{is_direct};

use core_form::{Renamed, VarRef, What};
use scheme_base::{List, Lit};

/// A lambda expression that is called where it stands.
#[derive(Clone, Copy, Debug)]
pub(crate) struct Direct<'a> {
    pub(crate) params: &'a List<VarRef>,
    pub(crate) body: u32,
}

/// The lambda expression that a call binds in place: its operator, where that has no rest parameter and as
/// many parameters as the call has operands.
pub(crate) fn direct_lambda<'a>(
    core: &'a Renamed,
    operator: u32,
    count: usize,
) -> Option<Direct<'a>>
    ensures some { IfSome result (λ d. (f : Tree Ref) → Stands core.now.exprs operator f → IsDirect core.now.exprs d.params.now d.body count f) }
    ensures none { IfNone result ((f : Tree Ref) → Stands core.now.exprs operator f → is_direct f count ≡ false) }
{
    let node = core.exprs.get(operator as usize)?;
    match &node.what {
        What::Lambda {
            params,
            rest: None,
            body,
        } if params.len() == count => Some(Direct {
            params,
            body: *body,
        }),
        _ => None,
    }
}

/// Whether an expression is the undefined value.
pub(crate) fn is_hole(core: &Renamed, expr: u32) -> bool
    ensures { (e : Tree Ref) → Stands core.now.exprs expr e → result ≡ has_no_value core.now.lits e }
{
    match core.exprs.get(expr as usize) {
        Some(node) => match &node.what {
            What::Const(lit) => matches!(core.lits.get(*lit as usize), Some(Lit::Undefined)),
            _ => false,
        },
        None => false,
    }
}
