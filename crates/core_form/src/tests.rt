ghost use Rattle.std.specs.Prelude.{◌≡◌, [], ◌∷◌, IfOk};
ghost use Rattle.scheme_base.specs.declared.lit.Lit.TheVariants as lit;
ghost use Rattle.core_form.specs.declared.program.What.TheVariants as expr;

use crate::{Core, Expr, What, core_text};
use scheme_base::{List, Lit, Pos};
use std::alloc::{AllocError, Global};
use std::test::Fail;

/// `'(#\a)`
fn sample(alloc: Global) -> Result<Core, AllocError>
    ensures exprs { IfOk result (λ core. core.exprs ≡ record { what = expr.Const 0; pos = record { line = 1; col = 1 } } ∷ []) }
    ensures forms { IfOk result (λ core. core.forms ≡ 0 ∷ []) }
    ensures lits { IfOk result (λ core. core.lits ≡ lit.Pair 1 2 ∷ lit.Char 97 ∷ lit.Nil ∷ []) }
{
    let expr = Expr {
        what: What::Const(0),
        pos: Pos { line: 1, col: 1 },
    };
    let exprs = List::from_vec(vec![in alloc; expr]?);
    let forms = List::from_vec(vec![in alloc; 0u32]?);
    let lits = List::from_vec(vec![in alloc; Lit::Pair(1, 2), Lit::Char(b'a'), Lit::Nil]?);
    Ok(Core { exprs, forms, lits })
}

#[test]
fn literal_is_written(rt: HostRuntime) -> Result<(), Fail> {
    let core = sample(rt.alloc())?;
    let text = core_text(rt.alloc(), &core)?;
    assert_eq!(rt; text.as_slice(), b"(const (#\\a))\n".as_slice());
    Ok(())
}
