ghost use Rattle.std.specs.Prelude.{◌≡◌};
ghost use Rattle.alpha_core.specs.Names.{var_of};

use core_form::Var;

/// A variable's name as the key of a map.
#[derive(Clone, Copy, Debug, PartialEq, Eq, Hash)]
pub struct Name<'a> {
    pub bytes: &'a [u8],
    pub lib: bool,
}

impl<'a> Name<'a> {
    /// The name of a variable.
    pub fn of(var: &'a Var) -> Name<'a>
        ensures { var_of result ≡ var.now }
    {
        Name {
            bytes: var.name.as_slice(),
            lib: var.lib,
        }
    }
}
