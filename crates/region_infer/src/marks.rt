//! A mark for each site.

ghost use Rattle.std.specs.Prelude.{◌≡◌, length, slice_set, IfOk};
ghost use Rattle.scheme_base.specs.declared.place.Mark.TheVariants.{Global as for_good};
ghost use Rattle.named_form.specs.Code.{totals};
ghost use Rattle.named_form.specs.Written.{form};
ghost use Rattle.region_infer.specs.Regions.{AreMarks};

use named_form::{Marks, Named, Sites};
use plan_facts::places;
use scheme_base::{List, Mark};
use std::alloc::{AllocError, Global};

/// The marks of a program's sites: those that escape are made for good, the others with their activation.
pub fn regions(alloc: Global, named: &Named, escaping: &Sites) -> Result<Marks, AllocError>
    ensures exact { IfOk result (λ marks. AreMarks escaping.now marks) }
    ensures fits { IfOk result (λ marks. length marks ≡ (totals (form named.now).procs).sites) }
{
    let sites = places(alloc, named)?.totals.sites;
    let marks = marks_of(alloc, sites, escaping.as_slice())?;
    Ok(List::from_vec(marks))
}

/// The marks of so many sites.
fn marks_of(alloc: Global, sites: u32, escaping: &[u32]) -> Result<Vec<Mark>, AllocError>
    ensures exact { IfOk result (λ marks. AreMarks escaping.now marks.items) }
    ensures fits { IfOk result (λ marks. length marks.items ≡ sites) }
{
    let mut marks = vec![in alloc; Mark::Local; sites as usize]?;
    for site in escaping {
        mark(&mut marks, *site);
    }
    Ok(marks)
}

/// Marks a site that escapes, if it is there.
fn mark(marks: &mut Vec<Mark>, site: u32)
    ensures { marks.new.items ≡ slice_set marks.old.items site for_good }
{
    let at = site as usize;
    if at < marks.len() {
        marks[at] = Mark::Global;
    }
}
