ghost use Rattle.std.specs.Prelude.{◌≡◌, ◌++◌, ◌∷◌, [], OnOk};
ghost use Rattle.core_form.specs.Text.{var_text, vars_text, rest_text};

use crate::Var;
use std::alloc::AllocError;

/// Writes a variable: its name, marked where it is the library's.
pub(crate) fn write_var(var: &Var, text: &mut Vec<u8>) -> Result<(), AllocError>
    ensures { OnOk result (text.new.items ≡ text.old.items ++ var_text var.now) }
{
    if var.lib {
        text.extend_from_slice(b"lib:")?;
    }
    text.extend_from_slice(var.name.as_slice())?;
    Ok(())
}

/// Writes variables in parentheses.
pub(crate) fn write_vars(vars: &[Var], text: &mut Vec<u8>) -> Result<(), AllocError>
    ensures { OnOk result (text.new.items ≡ text.old.items ++ vars_text vars.now) }
{
    let Some((first, others)) = vars.split_first() else {
        text.extend_from_slice(b"()")?;
        return Ok(());
    };
    text.push(b'(')?;
    write_var(first, text)?;
    let mut rest = others;
    while let Some((var, others)) = rest.split_first() {
        text.push(b' ')?;
        write_var(var, text)?;
        rest = others;
    }
    text.push(b')')?;
    Ok(())
}

/// Writes a rest parameter, or `#f` where there is none.
pub(crate) fn write_rest(rest: &Option<Var>, text: &mut Vec<u8>) -> Result<(), AllocError>
    ensures { OnOk result (text.new.items ≡ text.old.items ++ rest_text rest.now) }
{
    match rest {
        Some(var) => write_var(var, text),
        None => {
            text.extend_from_slice(b"#f")?;
            Ok(())
        }
    }
}
