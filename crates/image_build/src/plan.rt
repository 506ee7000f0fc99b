//! The storage plan of a program, by what its analysis says.

ghost use Rattle.std.specs.Prelude.{◌≡◌, IfOk};
ghost use Rattle.named_form.specs.Valid.{WellFormed};
ghost use Rattle.named_form.specs.Written.{form};
ghost use Rattle.image_build.specs.Planned.{Plans};

use callcc_conv::captures;
use escape_facts::escapes;
use flow_form::Rows;
use named_form::{Named, Plan};
use region_infer::regions;
use repr_choice::reprs;
use slot_facts::slots;
use std::alloc::{AllocError, Global};

/// The storage plan of a well-formed program with these rows: what continuations capture, which objects outlive the activation that
/// makes them, which variables need slots, and how values are held.
pub(crate) fn plan_of(alloc: Global, named: &Named, rows: &Rows) -> Result<Plan, AllocError>
    requires { WellFormed (form named.now) }
    ensures { IfOk result (Plans (form named.now) rows.now) }
{
    let capturing = captures(alloc, named, rows)?;
    let escaping = escapes(alloc, named, rows, &capturing)?;
    let marks = regions(alloc, named, &escaping)?;
    let slots = slots(alloc, named, rows, &capturing.procs)?;
    let reprs = reprs(alloc, named, rows, &slots)?;
    Ok(Plan {
        capturing,
        slots,
        marks,
        reprs,
    })
}
