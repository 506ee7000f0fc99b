//! Blocks: their steps in order, and how each ends.

ghost use Rattle.std.specs.Prelude.{◌≡◌, ◌+◌, true, OnOk};
ghost use Rattle.flat_form.specs.FlatWritten.{act as act_of, code as code_of};
ghost use Rattle.tail_codegen.specs.Items.{Puts};
ghost use Rattle.tail_codegen.specs.Templates as templates;
ghost use Rattle.tail_codegen.specs.Written.{end_of, known, unit as unit_of};

use crate::call::{call, call_with_continuation, call_with_list, give_back};
use crate::emit::{go, here, instruction, number};
use crate::make::{closure, empty_box, fix, full_box};
use crate::operation::{bne, operation};
use crate::place::{constant, copy, get, put};
use crate::unit::{Spot, Unit, fresh_label};
use crate::variable::{set_box, top_define, top_get, top_set, unbox};
use const_data::Label;
use flat_form::{At, FlatAct, FlatBlock, FlatStep, Mode, Place};
use rv_asm::{Asm, Routine};
use scheme_base::Stated;
use std::alloc::AllocError;

/// What becomes of a block's value.
#[derive(Clone, Copy)]
pub(crate) enum End {
    /// It goes back to the caller.
    Return,
    /// It goes to a place, and the code goes on.
    Goes(Place),
    /// The program ends.
    Finish,
}

/// A block: its steps, then its end.
#[cycle(code)]
pub(crate) fn block(
    asm: &mut Asm,
    unit: &Unit,
    labels: &mut u32,
    block: &FlatBlock,
    end: End,
) -> Result<(), AllocError>
    ensures items { OnOk result (Puts asm.old asm.new (templates.block (unit_of unit.now) labels.old true (code_of block.now) (end_of end))) }
    ensures labels { OnOk result (labels.new ≡ labels.old + templates.labels_in (code_of block.now)) }
{
    let mut open = true;
    for step in block.steps.as_slice() {
        if step.reached {
            let spot = Spot {
                to: first_place(step.to.as_slice()),
                pos: step.pos,
                checked: step.checked,
            };
            act(asm, unit, labels, &step.act, step.to.as_slice(), spot)?;
            open = !ends(&step.act);
        } else {
            open = true;
        }
    }
    if open {
        close(asm, unit, block.value, end)?;
    }
    Ok(())
}

/// Whether nothing comes after what a step does: a tail call, or a choice in tail position.
fn ends(act: &FlatAct) -> bool
    ensures { result ≡ templates.ends (act_of act.now) }
{
    match act {
        FlatAct::Call { mode, .. } => leaves(*mode),
        FlatAct::Apply { mode, .. } => leaves(*mode),
        FlatAct::CallCC { mode, .. } => leaves(*mode),
        FlatAct::If { tail, .. } => *tail,
        _ => false,
    }
}

/// Whether a call does not come back to its caller.
fn leaves(mode: Mode) -> bool
    ensures { result ≡ templates.leaves mode }
{
    !matches!(mode, Mode::Stack | Mode::Record)
}

/// The end of a block whose last step goes on.
fn close(asm: &mut Asm, unit: &Unit, value: Option<Place>, end: End) -> Result<(), AllocError>
    ensures { OnOk result (Puts asm.old asm.new (templates.close (unit_of unit.now) value (end_of end))) }
{
    let Some(value) = value else {
        return finish(asm);
    };
    match end {
        End::Return => give_back(asm, unit, value)?,
        End::Goes(to) => {
            get(asm, unit, 10, value)?;
            put(asm, unit, 10, to)?;
        }
        End::Finish => finish(asm)?,
    }
    Ok(())
}

/// The end of the program.
fn finish(asm: &mut Asm) -> Result<(), AllocError>
    ensures { OnOk result (Puts asm.old asm.new templates.finish) }
{
    go(asm, Routine::Finish.label())?;
    Ok(())
}

/// What a step does that is reached.
#[cycle(code)]
fn act(
    asm: &mut Asm,
    unit: &Unit,
    labels: &mut u32,
    act: &FlatAct,
    to: &[Place],
    spot: Spot,
) -> Result<(), AllocError>
    requires { spot.to ≡ templates.first_place to.now }
    ensures items { OnOk result (Puts asm.old asm.new (templates.step (unit_of unit.now) labels.old (known spot) to.now (act_of act.now))) }
    ensures labels { OnOk result (labels.new ≡ labels.old + templates.labels_of (act_of act.now)) }
{
    match act {
        FlatAct::Const { lit } => constant(asm, unit, *lit, spot.to)?,
        FlatAct::Copy { from } => copy(asm, unit, *from, spot.to)?,
        FlatAct::Prim { op, operands, mark } => {
            operation(asm, unit, *op, operands.as_slice(), *mark, spot)?
        }
        FlatAct::Call {
            operator,
            operands,
            mode,
        } => call(
            asm,
            unit,
            labels,
            *operator,
            operands.as_slice(),
            *mode,
            spot,
        )?,
        FlatAct::Apply {
            operator,
            list,
            mode,
        } => call_with_list(asm, unit, labels, *operator, *list, *mode, spot)?,
        FlatAct::CallCC { operator, mode } => {
            call_with_continuation(asm, unit, labels, *operator, *mode, spot)?
        }
        FlatAct::If {
            test,
            tail,
            yes,
            no,
        } => {
            let end = arm_end(*tail, spot.to);
            match yes {
                None => match no {
                    None => {}
                    Some(that) => block(asm, unit, labels, that, end)?,
                },
                Some(this) => match no {
                    None => block(asm, unit, labels, this, end)?,
                    Some(that) => {
                        let other = fresh_label(unit.proc, labels)?;
                        let behind = fresh_label(unit.proc, labels)?;
                        choose(asm, unit, *test, other)?;
                        block(asm, unit, labels, this, end)?;
                        go(asm, behind)?;
                        here(asm, other)?;
                        block(asm, unit, labels, that, end)?;
                        here(asm, behind)?;
                    }
                },
            }
        }
        FlatAct::Closure { made } => closure(asm, unit, made, spot.to)?,
        FlatAct::Fix { made } => fix(asm, unit, made.as_slice(), to)?,
        FlatAct::MakeBox { from, mark } => full_box(asm, unit, *from, *mark, spot.to)?,
        FlatAct::MakeHole { mark } => empty_box(asm, unit, *mark, spot.to)?,
        FlatAct::Unbox { boxed, checked } => unbox(asm, unit, *boxed, *checked, spot)?,
        FlatAct::SetBox { boxed, from } => set_box(asm, unit, *boxed, *from, spot.to)?,
        FlatAct::TopGet { top, checked } => top_get(asm, unit, *top, *checked, spot)?,
        FlatAct::TopSet { top, from, checked } => top_set(asm, unit, *top, *from, *checked, spot)?,
        FlatAct::TopDefine { top, from } => top_define(asm, unit, *top, *from, spot.to)?,
    }
    Ok(())
}

/// The place of a step that binds one, and no place where it binds none.
fn first_place(places: &[Place]) -> Place
    ensures { result ≡ templates.first_place places.now }
{
    match places {
        [] => Place {
            at: At::Stated(Stated::Unspecified),
            raw: false,
        },
        [first, ..] => *first,
    }
}

/// What becomes of the value of a choice's arm.
fn arm_end(tail: bool, to: Place) -> End
    ensures { end_of result ≡ templates.arm_end tail to }
{
    if tail { End::Return } else { End::Goes(to) }
}

/// The jump to the second arm of a choice, unless its test has a true value.
fn choose(asm: &mut Asm, unit: &Unit, test: Place, other: Label) -> Result<(), AllocError>
    ensures { OnOk result (Puts asm.old asm.new (templates.choose (unit_of unit.now) test other)) }
{
    get(asm, unit, 10, test)?;
    number(asm, 11, 1)?;
    instruction(asm, bne(10, 11, 12))?;
    go(asm, other)?;
    Ok(())
}
