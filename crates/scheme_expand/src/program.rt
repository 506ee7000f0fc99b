//! The forms of a program or of the library.

ghost use Rattle.std.specs.Prelude.{◌≡◌, [], OnOk, true};
ghost use Rattle.datum_form.specs.Data.{Datum, Items};
ghost use Rattle.datum_form.specs.Data.Items.{none, item};
ghost use Rattle.scheme_expand.specs.Forms.{no_binding};
ghost use Rattle.scheme_expand.specs.Grammar.{is_define, definitions_before, each_definition, forms as all_forms};
ghost use Rattle.scheme_expand.specs.Faults.{least, in_bindings, in_forms};
ghost use Rattle.scheme_expand.specs.Waiting.{Reads, ReadAll, Adds, Done};
ghost use Rattle.scheme_expand.specs.Rewriting.{defines, form_cores};
ghost use Rattle.scheme_expand.specs.Shapes.{AreDefinitions};
ghost use Rattle.scheme_expand.specs.Viewed.{IsView, Turns, Ends};
ghost use Rattle.scheme_expand.specs.Views.{Context, View, scope_of, visit_all};

use crate::body::{collect_definitions, read_definition};
use crate::expander::Expander;
use crate::step::Step;
use std::alloc::AllocError;

impl<'a> Expander<'a> {
    /// Expands data that are forms of a program (R4RS 5.1): their expressions are what is made, in order.
    pub(crate) fn forms(&mut self, tops: &[u32]) -> Result<(), AllocError>
        ensures fault { OnOk result ((ds : Items) → ReadAll self.old.source tops.now ds → self.old.steps.items ≡ [] → Done self.old self.new (least (in_forms (all_forms ds)))) }
        ensures core { OnOk result ((c : Context) (v : View) (ds : Items) → IsView c self.old v → ReadAll c.source tops.now ds → self.old.steps.items ≡ [] → in_forms (all_forms ds) ≡ [] → v.bound ≡ [] → Ends c self.new (visit_all c (form_cores (all_forms ds) (scope_of c v)) v)) }
    {
        let mut rest = tops;
        while let Some((first, others)) = rest.split_first() {
            self.one_form(*first)?;
            rest = others;
        }
        Ok(())
    }

    /// Expands a datum that is a form.
    fn one_form(&mut self, id: u32) -> Result<(), AllocError>
        ensures fault { OnOk result ((d : Datum) → Reads self.old.source id d → self.old.steps.items ≡ [] → Done self.old self.new (least (in_forms (all_forms (item d none))))) }
        ensures core { OnOk result ((c : Context) (v : View) (d : Datum) → IsView c self.old v → Reads c.source id d → self.old.steps.items ≡ [] → in_forms (all_forms (item d none)) ≡ [] → v.bound ≡ [] → Ends c self.new (visit_all c (form_cores (all_forms (item d none)) (scope_of c v)) v)) }
    {
        let mut definitions = Vec::new(self.alloc);
        if collect_definitions(self.alloc, self.source, id, &mut definitions)? {
            return self.definitions(&definitions);
        }
        self.wait(&[Step::Expr(id)])?;
        self.run()
    }

    /// Expands definitions of top-level variables.
    fn definitions(&mut self, ids: &[u32]) -> Result<(), AllocError>
        ensures fault { OnOk result ((ds : Items) → AreDefinitions self.old.source ids.now ds → self.old.steps.items ≡ [] → Done self.old self.new (least (in_bindings (each_definition ds no_binding)))) }
        ensures core { OnOk result ((c : Context) (v : View) (ds : Items) → IsView c self.old v → AreDefinitions c.source ids.now ds → self.old.steps.items ≡ [] → in_bindings (each_definition ds no_binding) ≡ [] → v.bound ≡ [] → Ends c self.new (visit_all c (defines (each_definition ds no_binding) (scope_of c v)) v)) }
    {
        let mut rest = ids;
        while let Some((first, others)) = rest.split_first() {
            self.definition(*first)?;
            rest = others;
        }
        Ok(())
    }

    /// A definition of a top-level variable.
    fn definition(&mut self, id: u32) -> Result<(), AllocError>
        ensures fault { OnOk result ((d : Datum) → Reads self.old.source id d → is_define d ≡ true → self.old.steps.items ≡ [] → Done self.old self.new (least (in_bindings (definitions_before d no_binding)))) }
        ensures core { OnOk result ((c : Context) (v : View) (d : Datum) → IsView c self.old v → Reads c.source id d → is_define d ≡ true → self.old.steps.items ≡ [] → in_bindings (definitions_before d no_binding) ≡ [] → v.bound ≡ [] → Ends c self.new (visit_all c (defines (definitions_before d no_binding) (scope_of c v)) v)) }
    {
        self.define(id)?;
        self.run()
    }

    /// Puts the steps of a definition of a top-level variable behind the others.
    fn define(&mut self, id: u32) -> Result<(), AllocError>
        ensures fault { OnOk result ((d : Datum) → Reads self.old.source id d → is_define d ≡ true → Adds self.old self.new (least (in_bindings (definitions_before d no_binding)))) }
        ensures core { OnOk result ((c : Context) (v : View) (d : Datum) → IsView c self.old v → Reads c.source id d → is_define d ≡ true → in_bindings (definitions_before d no_binding) ≡ [] → v.bound ≡ [] → Turns c self.old self.new (visit_all c (defines (definitions_before d no_binding) (scope_of c v)) v)) }
    {
        let pos = self.source.pos(id);
        match read_definition(self.source, id) {
            Ok(definition) => {
                let word = self.name(definition.name)?;
                let variable = self.variable(word);
                self.change(variable);
                self.wait(&[Step::Define(pos, variable), Step::Defined(id)])
            }
            Err(rule) => self.broken(pos, rule),
        }
    }
}
