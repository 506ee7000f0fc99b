//! Programs with their storage plans, which were worked out by hand.

mod worked;

use alpha_core::rename;
use box_name::name;
use callcc_conv::captures;
use datum_reader::read_program;
use escape_facts::escapes;
use flow_constraints::generate;
use flow_plain::solve_plain;
use named_form::{Fiction, Named, Plan, Repr, Reprs, Slots};
use region_infer::regions;
use repr_choice::reprs;
use scheme_base::{Mark, Stated};
use scheme_expand::expand;
use slot_facts::slots;
use std::alloc::{AllocError, Global};
use std::test::Fail;
use worked::{Held, Storage, Worked};

/// The named form of a program.
fn named_of(alloc: Global, source: &[u8]) -> Result<Named, Fail> {
    let datums = read_program(alloc, source)?;
    let Ok(core) = expand(alloc, &datums) else {
        return Err("not expanded".into());
    };
    let Ok(renamed) = rename(alloc, &core) else {
        return Err("not renamed".into());
    };
    Ok(name(alloc, &renamed)?)
}

/// The storage plan of a program by the least solution of its rules.
fn plan_of(alloc: Global, named: &Named) -> Result<Plan, Fail> {
    let constraints = generate(alloc, named)?;
    let rows = solve_plain(alloc, &constraints)?;
    let capturing = captures(alloc, named, &rows)?;
    let escaping = escapes(alloc, named, &rows, &capturing)?;
    let marks = regions(alloc, named, &escaping)?;
    let slots = slots(alloc, named, &rows, &capturing.procs)?;
    let reprs = reprs(alloc, named, &rows, &slots)?;
    Ok(Plan {
        capturing,
        slots,
        marks,
        reprs,
    })
}

/// Each variable that is kept, after the procedure whose closures keep it.
fn kept(alloc: Global, slots: &Slots) -> Result<Vec<(usize, u32)>, AllocError> {
    let mut all = Vec::new(alloc);
    for (proc, vars) in slots.kept.as_slice().iter().enumerate() {
        for var in vars.as_slice() {
            all.push((proc, *var))?;
        }
    }
    Ok(all)
}

/// Each variable that needs no slot, with its value.
fn known(alloc: Global, slots: &Slots) -> Result<Vec<(u32, Stated)>, AllocError> {
    let mut all = Vec::new(alloc);
    for Fiction { var, value } in slots.fictitious.as_slice() {
        all.push((*var, *value))?;
    }
    Ok(all)
}

/// The sites whose objects end with the activation that makes them.
fn local(alloc: Global, marks: &[Mark]) -> Result<Vec<usize>, AllocError> {
    let mut sites = Vec::new(alloc);
    for (site, mark) in marks.iter().enumerate() {
        if *mark == Mark::Local {
            sites.push(site)?;
        }
    }
    Ok(sites)
}

/// The variables that are held so.
fn held(alloc: Global, reprs: &Reprs, repr: Repr) -> Result<Vec<u32>, AllocError> {
    let mut vars = Vec::new(alloc);
    let mut var = 0u32;
    for held in reprs.vars.as_slice() {
        if *held == repr {
            vars.push(var)?;
        }
        var = var.checked_add(1).ok_or(AllocError)?;
    }
    Ok(vars)
}

/// The blocks that are not reached.
fn idle_blocks(alloc: Global, reprs: &Reprs) -> Result<Vec<usize>, AllocError> {
    let mut blocks = Vec::new(alloc);
    for (block, reached) in reprs.blocks.as_slice().iter().enumerate() {
        if !*reached {
            blocks.push(block)?;
        }
    }
    Ok(blocks)
}

/// The steps that are not reached.
fn idle_steps(alloc: Global, reprs: &Reprs) -> Result<Vec<usize>, AllocError> {
    let mut steps = Vec::new(alloc);
    for (step, used) in reprs.steps.as_slice().iter().enumerate() {
        if !used.reached {
            steps.push(step)?;
        }
    }
    Ok(steps)
}

/// The steps whose checks are dropped.
fn unchecked(alloc: Global, reprs: &Reprs) -> Result<Vec<usize>, AllocError> {
    let mut steps = Vec::new(alloc);
    for (step, used) in reprs.steps.as_slice().iter().enumerate() {
        if !used.checked {
            steps.push(step)?;
        }
    }
    Ok(steps)
}

/// The variables of these that are known.
fn vars_of(alloc: Global, known: &[(u32, Stated)]) -> Result<Vec<u32>, AllocError> {
    let mut vars = Vec::new(alloc);
    for (var, _value) in known {
        vars.push(*var)?;
    }
    Ok(vars)
}

/// The parts of a plan's storage that are others than were worked out.
fn other_storage(
    alloc: Global,
    plan: &Plan,
    want: &Storage,
) -> Result<Vec<&'static str>, AllocError> {
    let Plan {
        capturing,
        slots,
        marks,
        reprs,
    } = plan;
    let kept = kept(alloc, slots)?;
    let local = local(alloc, marks.as_slice())?;
    let idle = idle_blocks(alloc, reprs)?;
    let parts = [
        ("capturing", capturing.procs.as_slice() == want.capturing),
        (
            "recording",
            capturing.recording.as_slice() == want.recording,
        ),
        ("procedures", slots.kept.len() == want.procedures),
        ("kept", kept.as_slice() == want.kept),
        ("global", slots.global.as_slice() == want.global),
        ("compared", slots.compared.as_slice() == want.compared),
        ("sites", marks.len() == want.sites),
        ("local", local.as_slice() == want.local),
        ("blocks", reprs.blocks.len() == want.blocks),
        ("idle blocks", idle.as_slice() == want.idle_blocks),
    ];
    others(alloc, &parts)
}

/// The parts of a plan that say how values are held, and are others than were worked out.
fn other_held(alloc: Global, plan: &Plan, want: &Held) -> Result<Vec<&'static str>, AllocError> {
    let Plan { slots, reprs, .. } = plan;
    let known = known(alloc, slots)?;
    let bare = held(alloc, reprs, Repr::Raw)?;
    let nothing = held(alloc, reprs, Repr::Nothing)?;
    let idle = idle_steps(alloc, reprs)?;
    let unchecked = unchecked(alloc, reprs)?;
    let parts = [
        ("variables", reprs.vars.len() == want.variables),
        ("known", known.as_slice() == want.known),
        ("bare", bare.as_slice() == want.bare),
        (
            "nothing",
            nothing.as_slice() == vars_of(alloc, want.known)?.as_slice(),
        ),
        ("steps", reprs.steps.len() == want.steps),
        ("idle steps", idle.as_slice() == want.idle_steps),
        ("unchecked", unchecked.as_slice() == want.unchecked),
    ];
    others(alloc, &parts)
}

/// The names of the parts that are not the same.
fn others(alloc: Global, parts: &[(&'static str, bool)]) -> Result<Vec<&'static str>, AllocError> {
    let mut names = Vec::new(alloc);
    for (name, same) in parts {
        if !*same {
            names.push(*name)?;
        }
    }
    Ok(names)
}

/// The parts in which the plan of a program is another one than was worked out.
fn other_parts(alloc: Global, want: &Worked) -> Result<Vec<&'static str>, Fail> {
    let named = named_of(alloc, want.source)?;
    let plan = plan_of(alloc, &named)?;
    let mut parts = other_storage(alloc, &plan, &want.storage)?;
    if let Some(held) = &want.held {
        parts.append(&mut other_held(alloc, &plan, held)?)?;
    }
    Ok(parts)
}

#[test]
fn continuation_is_entered_again(rt: HostRuntime) -> Result<(), Fail> {
    let others = other_parts(rt.alloc(), &worked::REENTERED)?;
    assert!(rt; others.is_empty(), "{others:?}");
    Ok(())
}

#[test]
fn pairs_escape_or_end(rt: HostRuntime) -> Result<(), Fail> {
    let others = other_parts(rt.alloc(), &worked::PAIRS)?;
    assert!(rt; others.is_empty(), "{others:?}");
    Ok(())
}

#[test]
fn integers_are_held_bare(rt: HostRuntime) -> Result<(), Fail> {
    let others = other_parts(rt.alloc(), &worked::INTEGERS)?;
    assert!(rt; others.is_empty(), "{others:?}");
    Ok(())
}

#[test]
fn closures_keep_variables(rt: HostRuntime) -> Result<(), Fail> {
    let others = other_parts(rt.alloc(), &worked::CLOSURES)?;
    assert!(rt; others.is_empty(), "{others:?}");
    Ok(())
}

#[test]
fn programs_are_refused_as_they_run(rt: HostRuntime) -> Result<(), Fail> {
    for want in [&worked::APPLIED, &worked::REFUSED] {
        let others = other_parts(rt.alloc(), want)?;
        assert!(rt; others.is_empty(), "{others:?}");
    }
    Ok(())
}

#[test]
fn programs_of_the_tables_are_stored(rt: HostRuntime) -> Result<(), Fail> {
    for want in [&worked::EXITS, &worked::COUNTERS, &worked::LOOPS] {
        let others = other_parts(rt.alloc(), want)?;
        assert!(rt; others.is_empty(), "{others:?}");
    }
    Ok(())
}
