ghost use Rattle.std.specs.Prelude.{◌≡◌, ℕ, suc, not, if◌then◌else◌, IfOk, OnOk};
ghost use Rattle.core_form.specs.declared.program.VarRef.{VarRef as Ref};
ghost use Rattle.core_form.specs.Trees.{Tree, Trees, Holds, Stands};
ghost use Rattle.indexmap.specs.IndexMap.{get};
ghost use Rattle.alpha_core.specs.declared.name.Name.{Name as Key};
ghost use Rattle.alpha_core.specs.Names.{same_name, var_of};
ghost use Rattle.box_name.specs.Sureness.{IsDefined, is_checked, or_since, plain_form};
ghost use Rattle.box_name.specs.Told.{told, all_told};
ghost use Rattle.box_name.specs.Whole.{defines, is_plain_definition as is_plain_one, is_plain as is_plain_value, is_sure as is_sure_in};

use alpha_core::Name;
use core_form::{Renamed, VarRef, What};
use indexmap::IndexMap;
use std::alloc::{AllocError, Global};

/// The forms from which on each top-level variable is sure to be defined when it is met.
#[derive(Drop)]
pub(crate) struct Sure<'a> {
    from: IndexMap<Name<'a>, u32>,
}

impl<'a> Sure<'a> {
    /// Goes over the forms, and notes the first definition of each variable.
    pub(crate) fn new(alloc: Global, core: &'a Renamed) -> Result<Sure<'a>, AllocError>
        ensures { IfOk result (λ sure. (forms : Trees Ref) → Holds core.now forms → (k : Key) (f : ℕ) → is_checked sure f k ≡ not (is_sure_in (all_told core.now.lits forms) f (var_of k))) }
    {
        let mut sure = Sure {
            from: IndexMap::new(alloc),
        };
        let mut next: u32 = 0;
        let mut since = 0;
        let mut left = core.forms.as_slice();
        while let Some((form, others)) = left.split_first() {
            let Some(after) = next.checked_add(1) else {
                return Err(AllocError);
            };
            since = since_form(core, *form, since, after);
            sure.note(core, *form, since)?;
            next = after;
            left = others;
        }
        Ok(sure)
    }

    /// Notes a form's definition, if it is its variable's first one.
    fn note(&mut self, core: &'a Renamed, form: u32, since: u32) -> Result<(), AllocError>
        ensures { OnOk result ((e : Tree Ref) → Stands core.now.exprs form e → (k : Key) → get same_name self.new.from k ≡ or_since (get same_name self.old.from k) (defines (told core.now.lits e) (var_of k)) since) }
    {
        match defined(core, form)? {
            Some(name) => self.note_name(name, since),
            None => Ok(()),
        }
    }

    fn note_name(&mut self, name: Name<'a>, since: u32) -> Result<(), AllocError>
        ensures { OnOk result ((k : Key) → get same_name self.new.from k ≡ or_since (get same_name self.old.from k) (same_name name.entry k) since) }
    {
        if self.from.get(&name).is_some() {
            return Ok(());
        }
        self.from.insert(name, since)?;
        Ok(())
    }

    /// Whether a variable has a value each time that a run meets it in the form of this number.
    pub(crate) fn is_sure(&self, name: Name<'a>, form: u32) -> bool
        ensures { not result ≡ is_checked self.now form name.entry }
    {
        match self.from.get(&name) {
            Some(since) => *since <= form,
            None => false,
        }
    }
}

/// The variable that a form defines, which is a top-level one.
fn defined<'a>(core: &'a Renamed, form: u32) -> Result<Option<Name<'a>>, AllocError>
    ensures { IfOk result (λ name. (e : Tree Ref) → Stands core.now.exprs form e → IsDefined name (told core.now.lits e)) }
{
    match core.exprs.get(form as usize) {
        Some(node) => match &node.what {
            What::Define { var, .. } => match var {
                VarRef::Local(_) => Err(AllocError),
                VarRef::Top(var) => Ok(Some(Name::of(var))),
            },
            _ => Ok(None),
        },
        None => Err(AllocError),
    }
}

/// The number from which on a form's definition is sure: that after the last form so far that is no plain
/// definition.
fn since_form(core: &Renamed, form: u32, since: u32, after: u32) -> u32
    ensures { (e : Tree Ref) → Stands core.now.exprs form e → result ≡ (if is_plain_one (told core.now.lits e) then since else after) }
{
    if is_plain_definition(core, form) {
        since
    } else {
        after
    }
}

/// Whether a form is the definition of a lambda expression or of a literal.
fn is_plain_definition(core: &Renamed, form: u32) -> bool
    ensures { (e : Tree Ref) → Stands core.now.exprs form e → result ≡ is_plain_one (told core.now.lits e) }
{
    match core.exprs.get(form as usize) {
        Some(node) => match &node.what {
            What::Define { value, .. } => is_plain(core, *value),
            _ => false,
        },
        None => false,
    }
}

fn is_plain(core: &Renamed, expr: u32) -> bool
    ensures { (e : Tree Ref) → Stands core.now.exprs expr e → result ≡ is_plain_value (told core.now.lits e) }
{
    match core.exprs.get(expr as usize) {
        Some(node) => is_plain_form(&node.what),
        None => false,
    }
}

fn is_plain_form(what: &What<VarRef>) -> bool
    ensures { result ≡ plain_form what.now }
{
    matches!(what, What::Const(_) | What::Lambda { .. })
}
