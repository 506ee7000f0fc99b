//! The slots of a program.

ghost use Rattle.std.specs.Prelude.{◌≡◌, ◌++◌, length, map, IfOk, IsTrue, OnOk};
ghost use Rattle.std.specs.List.{filter, flat_map};
ghost use Rattle.flow_constraints.specs.Layout.{flow_of as flow_is};
ghost use Rattle.least_set.specs.Least.{all_below};
ghost use Rattle.named_form.specs.PlainPlan.{all_free};
ghost use Rattle.named_form.specs.Valid.{WellFormed, numbers_from};
ghost use Rattle.named_form.specs.Written.{form, procedure};
ghost use Rattle.plan_facts.specs.Places.{places_of};
ghost use Rattle.plan_facts.specs.Slotted.{IsSlots};
ghost use Rattle.slot_facts.specs.Choice.{IsChosen, chosen_by, fictions_at, fictions_by, global_by, kept_by, own_vars, placed_by};
ghost use Rattle.slot_facts.specs.Fits.{FitsSlots};
ghost use Rattle.slot_facts.specs.Graph.{AllClose};
ghost use Rattle.slot_facts.specs.Known.{NeedOf};
ghost use Rattle.slot_facts.specs.Marks.{MarksOf};

use crate::compare::compared;
use crate::ends::ends;
use crate::graph::{behind, known, search};
use crate::marks::{is_marked, marked, marks_of, number_of, put_if};
use crate::needs::{grouped, makings, needed, references};
use crate::own::own_variables;
use crate::values::values;
use flow_constraints::{Flow, flow_of};
use flow_form::Rows;
use named_form::{Fiction, Fictions, Named, Plan, Proc, Slots};
use plan_facts::{Place, places};
use scheme_base::{Ids, List, Stated, Uses};
use std::alloc::{AllocError, Global};

/// The slots of a program whose values are as the rows say, where these procedures may be captured in a
/// continuation. Takes time linear in the steps, the words of their rows and the lists of free variables, up to the
/// logarithm of a list's length.
pub fn slots(
    alloc: Global,
    named: &Named,
    rows: &Rows,
    capturing: &Ids,
) -> Result<Slots, AllocError>
    ensures exact { WellFormed (form named.now) → IfOk result (λ slots. IsSlots (form named.now) rows.now capturing.now slots) }
    ensures fits { WellFormed (form named.now) → IfOk result (λ slots. FitsSlots (form named.now).procs slots) }
{
    let procs = named.procs.as_slice();
    let flow = flow_of(alloc, named)?;
    let listed = places(alloc, named)?;
    let steps = listed.steps.as_slice();
    let needed = needs_of(alloc, named, &flow, rows, steps)?;
    let compared = compared(alloc, procs.len(), &flow, rows, steps)?;
    let values = values(alloc, procs.len(), &flow, rows)?;
    let slots = choose(
        alloc,
        procs,
        capturing.as_slice(),
        compared.as_slice(),
        values.as_slice(),
        needed.as_slice(),
    )?;
    Ok(slots)
}

/// The slots of these procedures, from what is captured, what is compared, what is known of each variable, and what
/// each procedure needs.
fn choose(
    alloc: Global,
    procs: &[Proc],
    capturing: &[u32],
    compared: &[u32],
    values: &[Option<Stated>],
    needed: &[Ids],
) -> Result<Slots, AllocError>
    requires compared { IsTrue (all_below (length procs.now) compared.now) }
    requires closures { AllClose (length procs.now) values.now }
    requires needed { length needed.now ≡ length procs.now }
    ensures { IfOk result (λ slots. IsChosen (length procs.now) (own_vars (map procedure procs.now) capturing.now) compared.now values.now needed.now slots) }
{
    let own = own_marks(alloc, procs, values.len(), capturing)?;
    let marks = search(alloc, procs.len(), compared, values, needed, own.as_slice())?;
    let placed = placed_of(alloc, procs.len(), values.len(), marks.as_slice())?;
    let met = marks_of(alloc, procs.len(), compared)?;
    let slots = chosen(
        alloc,
        needed,
        values,
        own.as_slice(),
        placed.as_slice(),
        met.as_slice(),
    )?;
    Ok(slots)
}

/// The slots, from what each procedure needs, what is known of each variable, and marks: of the variables that have
/// a cell for good if they have a place, of those that have a place, and of the procedures that are compared.
fn chosen(
    alloc: Global,
    needed: &[Ids],
    values: &[Option<Stated>],
    own: &[bool],
    placed: &[bool],
    met: &[bool],
) -> Result<Slots, AllocError>
    ensures { IfOk result (λ slots. slots ≡ chosen_by (length met.now) needed.now values.now own.now placed.now met.now) }
{
    let kept = kept_of(alloc, needed, placed, own)?;
    let fictitious = fictions_of(alloc, values, placed)?;
    let global = globals_of(alloc, values.len(), placed, own)?;
    let compared = marked(alloc, met.len(), met)?;
    Ok(Slots {
        kept,
        fictitious,
        global,
        compared,
    })
}

/// What each procedure needs of the variables that are free in it.
fn needs_of(
    alloc: Global,
    named: &Named,
    flow: &Flow,
    rows: &Rows,
    steps: &[Place],
) -> Result<Vec<Ids>, AllocError>
    requires flow { flow.now ≡ flow_is (form named.now) }
    requires steps { steps.now ≡ places_of (form named.now) }
    ensures many { IfOk result (λ needed. length needed.items ≡ length named.now.procs) }
    ensures need { IfOk result (λ needed. WellFormed (form named.now) → NeedOf (form named.now) rows.now needed.items) }
{
    let procs = named.procs.as_slice();
    let free = free_variables(alloc, named)?;
    let ends = ends(alloc, procs)?;
    let references = references(alloc, flow, rows, steps, ends.as_slice())?;
    let makings = makings(alloc, flow, rows, steps)?;
    let referred = grouped(alloc, procs.len(), references.as_slice())?;
    let made = grouped(alloc, procs.len(), makings.as_slice())?;
    let lists = needed(
        alloc,
        procs.len(),
        free.as_slice(),
        referred.as_slice(),
        made.as_slice(),
    )?;
    Ok(lists)
}

/// The free variables of each procedure, which are those that the plain plan keeps.
fn free_variables(alloc: Global, named: &Named) -> Result<Uses, AllocError>
    ensures { IfOk result (λ free. WellFormed (form named.now) → free ≡ all_free (form named.now).procs) }
{
    let plain = Plan::plain(alloc, named)?;
    let slots = plain.slots;
    Ok(slots.kept)
}

/// Marks of the variables that have a cell for good, if they have a place: the program's own, where nothing
/// captures.
fn own_marks(
    alloc: Global,
    procs: &[Proc],
    vars: usize,
    capturing: &[u32],
) -> Result<Vec<bool>, AllocError>
    ensures { IfOk result (λ marks. MarksOf vars (own_vars (map procedure procs.now) capturing.now) marks.items) }
{
    let own = own_variables(alloc, procs, capturing)?;
    let marks = marks_of(alloc, vars, own.as_slice())?;
    Ok(marks)
}

/// For each variable, whether its node is marked.
fn placed_of(
    alloc: Global,
    procs: usize,
    vars: usize,
    marks: &[bool],
) -> Result<Vec<bool>, AllocError>
    ensures { IfOk result (λ placed. placed.items ≡ placed_by procs vars marks.now) }
{
    let mut placed = Vec::new(alloc);
    for var in 0..vars {
        placed.push(is_marked(marks, behind(procs, var)?))?;
    }
    Ok(placed)
}

/// For each procedure the variables that its closures keep: what it needs that has a place and no cell for good.
fn kept_of(alloc: Global, needed: &[Ids], placed: &[bool], own: &[bool]) -> Result<Uses, AllocError>
    ensures { IfOk result (λ kept. kept ≡ map (filter (kept_by placed.now own.now)) needed.now) }
{
    let mut kept = List::new(alloc);
    for vars in needed {
        kept.push(kept_in(alloc, vars.as_slice(), placed, own)?)?;
    }
    Ok(kept)
}

/// Those of these variables that have a place and no cell for good.
fn kept_in(alloc: Global, vars: &[u32], placed: &[bool], own: &[bool]) -> Result<Ids, AllocError>
    ensures { IfOk result (λ kept. kept ≡ filter (kept_by placed.now own.now) vars.now) }
{
    let mut kept = List::new(alloc);
    for var in vars {
        put_if(&mut kept, *var, is_kept(placed, own, *var as usize))?;
    }
    Ok(kept)
}

/// The variables that have no place, with their values.
fn fictions_of(
    alloc: Global,
    values: &[Option<Stated>],
    placed: &[bool],
) -> Result<Fictions, AllocError>
    ensures { IfOk result (λ fictions. fictions ≡ flat_map (fictions_at values.now placed.now) (numbers_from 0 (length values.now))) }
{
    let mut fictions = List::new(alloc);
    for at in 0..values.len() {
        put_fiction(
            &mut fictions,
            number_of(at)?,
            is_marked(placed, at),
            known(values, at),
        )?;
    }
    Ok(fictions)
}

/// Puts a variable with its value at the end of a list, if it has no place and its value is known.
fn put_fiction(
    fictions: &mut Fictions,
    var: u32,
    is_placed: bool,
    value: Option<Stated>,
) -> Result<(), AllocError>
    ensures { OnOk result (fictions.new ≡ fictions.old ++ fictions_by is_placed var value) }
{
    match value {
        Some(value) if !is_placed => fictions.push(Fiction { var, value }),
        _ => Ok(()),
    }
}

/// The variables that have a place, and a cell for good.
fn globals_of(alloc: Global, vars: usize, placed: &[bool], own: &[bool]) -> Result<Ids, AllocError>
    ensures { IfOk result (λ globals. globals ≡ filter (global_by placed.now own.now) (numbers_from 0 vars)) }
{
    let mut globals = List::new(alloc);
    for at in 0..vars {
        put_if(&mut globals, number_of(at)?, is_global(placed, own, at))?;
    }
    Ok(globals)
}

/// Whether a variable has a place and no cell for good.
fn is_kept(placed: &[bool], own: &[bool], var: usize) -> bool
    ensures { result ≡ kept_by placed.now own.now var }
{
    is_marked(placed, var) && !is_marked(own, var)
}

/// Whether a variable has a place, and a cell for good.
fn is_global(placed: &[bool], own: &[bool], var: usize) -> bool
    ensures { result ≡ global_by placed.now own.now var }
{
    is_marked(placed, var) && is_marked(own, var)
}
