//! Whole programs.

ghost use Rattle.std.specs.Prelude.{◌≡◌, ◌+◌, [], suc, length, map, true, IfOk, OnOk};
ghost use Rattle.flat_form.specs.FlatWritten.{form as flat_form_of, procedure as flat_procedure_of, part as flat_part_of, code as flat_code_of};
ghost use Rattle.named_form.specs.Code.{past_code, labelled, rest_lists as lists_in, option_list, program};
ghost use Rattle.named_form.specs.Written.{code, form, procedure as procedure_of};
ghost use Rattle.closure_conv.specs.FlatOf.{flat_of, flat_code, flat_proc, greatest as greatest_of, part as part_of, parts as parts_of};
ghost use Rattle.closure_conv.specs.Tables.{Rests, Runs, Enters, Leaves, scene, counts, next_block, lambda, slotted_of};

use crate::block::block;
use crate::counts::{Counts, past_block, plus};
use crate::literals::copy_of;
use crate::tables::{Tables, is_block_reached, keeps, mark_of, place_of_any, places_of, slotted};
use flat_form::{Cells, Flat, FlatBlock, FlatPart, FlatParts, FlatProc, FlatProcs};
use named_form::{Named, Plan, Proc};
use scheme_base::{List, Mark};
use std::alloc::{AllocError, Global};

/// The flat program of a program in named form under a storage plan.
pub fn flatten(alloc: Global, named: &Named, plan: &Plan) -> Result<Flat, AllocError>
    ensures { IfOk result (λ flat. flat_form_of flat ≡ flat_of plan.now named.now.tops (program (form named.now).procs (form named.now).lits)) }
{
    let mut tables = Tables::of(alloc, named, plan)?;
    let mut procs: FlatProcs = List::new(alloc);
    let mut list_site = named.procs.len().saturating_sub(1);
    let mut at = Counts {
        steps: 0,
        sites: plus(list_site, rest_lists(named)?)?,
        blocks: 0,
    };
    for proc in named.procs.as_slice() {
        procs.push(procedure(alloc, plan, &mut tables, list_site, &mut at, proc)?)?;
        list_site = past_list(list_site, proc)?;
        tables.proc = tables.proc.checked_add(1).ok_or(AllocError)?;
    }
    Ok(Flat {
        procs,
        cells: Cells {
            tops: named.tops,
            globals: length_of(plan.slots.global.len())?,
        },
        lits: copy_of(alloc, &named.lits)?,
    })
}

/// The next site of a rest list, where that of this procedure is `site` if it has one.
fn past_list(site: usize, proc: &Proc) -> Result<usize, AllocError>
    ensures { IfOk result (λ next. next ≡ site + length (option_list proc.now.rest)) }
{
    if proc.rest.is_some() {
        plus(site, 1)
    } else {
        Ok(site)
    }
}

/// How many procedures make a rest list.
fn rest_lists(named: &Named) -> Result<usize, AllocError>
    ensures { IfOk result (λ lists. lists ≡ lists_in (form named.now).procs) }
{
    let mut lists = 0;
    for proc in named.procs.as_slice() {
        lists = past_list(lists, proc)?;
    }
    Ok(lists)
}

/// A length as a number that names things.
fn length_of(length: usize) -> Result<u32, AllocError>
    ensures { IfOk result (λ number. number ≡ length) }
{
    match u32::try_from(length) {
        Ok(length) => Ok(length),
        Err(_) => Err(AllocError),
    }
}

/// The procedure that runs, `at` its body's number; afterwards `at` is past its body.
fn procedure(
    alloc: Global,
    plan: &Plan,
    tables: &mut Tables,
    list_site: usize,
    at: &mut Counts,
    proc: &Proc,
) -> Result<FlatProc, AllocError>
    requires { Rests plan.now tables.old }
    ensures rests { OnOk result (Rests plan.now tables.new) }
    ensures proc { OnOk result (tables.new.proc ≡ tables.old.proc) }
    ensures tops { OnOk result (tables.new.tops ≡ tables.old.tops) }
    ensures flat { IfOk result (λ p. flat_procedure_of p ≡ flat_proc (record { plan = plan.now; tops = tables.old.tops; proc = tables.old.proc; slots = slotted_of plan.now (procedure_of proc.now) }) (lambda (counts at.old) list_site (procedure_of proc.now))) }
    ensures past { OnOk result (counts at.new ≡ past_code (next_block (counts at.old)) (code proc.now.body)) }
{
    enter(alloc, plan, tables, proc)?;
    let made = running(alloc, plan, tables, list_site, at, proc)?;
    leave(plan, tables);
    Ok(made)
}

/// Numbers the variables of the procedure that runs.
fn enter(alloc: Global, plan: &Plan, tables: &mut Tables, proc: &Proc) -> Result<(), AllocError>
    requires { Rests plan.now tables.old }
    ensures { OnOk result (Enters plan.now tables.old tables.new (procedure_of proc.now)) }
{
    tables.slotted = slotted(alloc, tables, proc)?;
    tables.slots.fill(tables.slotted.as_slice())?;
    tables.kept.fill(keeps(plan, tables.proc))?;
    Ok(())
}

/// Takes the numbers from the variables of the procedure that ran.
fn leave(plan: &Plan, tables: &mut Tables)
    requires { Runs plan.now tables.old }
    ensures { Leaves plan.now tables.old tables.new }
{
    tables.slots.clear(tables.slotted.as_slice());
    tables.kept.clear(keeps(plan, tables.proc));
}

/// How many operands a procedure takes at most.
fn greatest(rest: Option<u32>, least: u32) -> Option<u32>
    ensures { result ≡ greatest_of rest least }
{
    match rest {
        None => Some(least),
        Some(_) => None,
    }
}

/// How many slots a frame of the running procedure has, that of the closure among them.
fn frame_slots(tables: &Tables) -> Result<u32, AllocError>
    ensures { IfOk result (λ slots. slots ≡ suc (length tables.now.slotted)) }
{
    length_of(tables.slotted.len())?
        .checked_add(1)
        .ok_or(AllocError)
}

/// The procedure that runs, once its variables are numbered.
fn running(
    alloc: Global,
    plan: &Plan,
    tables: &Tables,
    list_site: usize,
    at: &mut Counts,
    proc: &Proc,
) -> Result<FlatProc, AllocError>
    requires { Runs plan.now tables.now }
    ensures flat { IfOk result (λ p. flat_procedure_of p ≡ flat_proc (scene plan.now tables.now) (lambda (counts at.old) list_site (procedure_of proc.now))) }
    ensures past { OnOk result (counts at.new ≡ past_code (next_block (counts at.old)) (code proc.now.body)) }
{
    let reached = is_block_reached(plan, at.blocks);
    *at = at.inside()?;
    let least = length_of(proc.params.len())?;
    Ok(FlatProc {
        reached,
        capturing: tables.capturing.contains(tables.proc),
        slots: frame_slots(tables)?,
        least,
        greatest: greatest(proc.rest, least),
        parts: parts(alloc, plan, tables, list_site, reached, at, proc)?,
    })
}

/// The one part of a procedure, if it is reached.
fn parts(
    alloc: Global,
    plan: &Plan,
    tables: &Tables,
    list_site: usize,
    reached: bool,
    at: &mut Counts,
    proc: &Proc,
) -> Result<FlatParts, AllocError>
    requires { Runs plan.now tables.now }
    ensures parts { IfOk result (λ parts. map flat_part_of parts ≡ parts_of reached (part_of (scene plan.now tables.now) proc.now.params proc.now.rest list_site (flat_code (scene plan.now tables.now) (labelled (counts at.old) true (code proc.now.body))))) }
    ensures past { OnOk result (counts at.new ≡ past_code (counts at.old) (code proc.now.body)) }
{
    let mut parts = List::new(alloc);
    if reached {
        let body = block(alloc, plan, tables, true, at, &proc.body)?;
        parts.push(part(alloc, plan, tables, list_site, proc, body)?)?;
    } else {
        *at = past_block(*at, &proc.body)?;
    }
    Ok(parts)
}

/// A part with this body.
fn part(
    alloc: Global,
    plan: &Plan,
    tables: &Tables,
    list_site: usize,
    proc: &Proc,
    body: FlatBlock,
) -> Result<FlatPart, AllocError>
    requires { Runs plan.now tables.now }
    ensures { IfOk result (λ p. flat_part_of p ≡ part_of (scene plan.now tables.now) proc.now.params proc.now.rest list_site (flat_code_of body)) }
{
    let rest_mark = if proc.rest.is_some() {
        mark_of(plan, list_site)
    } else {
        Mark::Global
    };
    Ok(FlatPart {
        params: places_of(alloc, plan, tables, proc.params.as_slice())?,
        rest: place_of_any(plan, tables, proc.rest)?,
        rest_mark,
        body,
    })
}
