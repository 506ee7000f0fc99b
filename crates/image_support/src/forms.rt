ghost use Rattle.std.specs.Prelude.{◌≡◌};
ghost use Rattle.image_support.specs.Text.{pick};

use rv_asm::AsmItem;

/// The code of a routine with the checks of its operands, and without.
pub type Forms = (&'static [AsmItem], &'static [AsmItem]);

/// One of the forms.
pub fn form(forms: Forms, checked: bool) -> &'static [AsmItem]
    ensures { result.now ≡ pick checked forms.entry.0.now forms.entry.1.now }
{
    if checked { forms.0 } else { forms.1 }
}
