ghost use Rattle.std.specs.Prelude.{◌≡◌, [], ◌∷◌, None, Some, IfOk};
ghost use Rattle.named_form.specs.Code.{Ends, Then, Const as Literal, If as Choice};
ghost use Rattle.named_form.specs.Written.{code};

use crate::{Act, Block, Named, Plan, Proc, Step};
use scheme_base::{List, Pos};
use sqlite_items::Items;
use std::alloc::{AllocError, Global};
use std::test::Fail;

/// A block without steps.
fn arm(alloc: Global, value: u32) -> Block
    ensures { code result ≡ Ends (Some value) }
{
    Block {
        steps: Items::new(alloc),
        value: Some(value),
    }
}

/// A step that binds one variable, at 1:1.
fn step(alloc: Global, var: u32, act: Act) -> Result<Step, AllocError>
    ensures vars { IfOk result (λ step. step.vars ≡ var ∷ []) }
    ensures act { IfOk result (λ step. step.act ≡ act) }
    ensures pos { IfOk result (λ step. step.pos ≡ record { line = 1; col = 1 }) }
{
    Ok(Step {
        vars: List::from_vec(vec![in alloc; var]?),
        act,
        pos: Pos { line: 1, col: 1 },
    })
}

/// `(if #t x x)`, where variable 0 is x
fn sample(alloc: Global) -> Result<Block, AllocError>
    ensures { IfOk result (λ block. code block ≡ Then (record { line = 1; col = 1 }) (1 ∷ []) (Literal 0) (Then (record { line = 1; col = 1 }) (2 ∷ []) (Choice 1 (Ends (Some 0)) (Ends (Some 0))) (Ends None))) }
{
    let test = step(alloc, 1, Act::Const { lit: 0 })?;
    let choice = Act::If {
        test: 1,
        yes: arm(alloc, 0),
        no: arm(alloc, 0),
    };
    let choice = step(alloc, 2, choice)?;
    Ok(Block {
        steps: Items::from_vec(vec![in alloc; test, choice]?),
        value: None,
    })
}

#[test]
fn block_is_its_steps(rt: HostRuntime) -> Result<(), Fail> {
    let block = sample(rt.alloc())?;
    assert_eq!(rt; block.steps.len(), 2);
    Ok(())
}

/// The program without forms.
fn empty(alloc: Global) -> Result<Named, AllocError> {
    let program = Proc {
        params: List::new(alloc),
        rest: None,
        body: Block {
            steps: Items::new(alloc),
            value: None,
        },
        pos: Pos { line: 0, col: 0 },
    };
    Ok(Named {
        procs: List::from_vec(vec![in alloc; program]?),
        tops: 0,
        lits: List::new(alloc),
    })
}

#[test]
fn every_procedure_has_its_kept_variables(rt: HostRuntime) -> Result<(), Fail> {
    let named = empty(rt.alloc())?;
    let plan = Plan::plain(rt.alloc(), &named)?;
    assert_eq!(rt; plan.slots.kept.len(), 1);
    Ok(())
}
