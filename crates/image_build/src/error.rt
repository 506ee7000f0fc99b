//! Why a program has no image.

ghost use Rattle.std.specs.Prelude.{◌≡◌};
ghost use Rattle.image_build.specs.Emitted.{told_form, told_limit, told_read};

use datum_form::FormErr;
use datum_reader::ReadErr;
use scheme_base::{Limit, LimitErr, LimitKind};

/// Why a program has no image: the first pass that refuses it, and what that pass says.
#[derive(Debug, Drop)]
pub enum BuildErr {
    /// The text does not read as data. A length or a nesting past its limit is a `Limit`.
    Read(ReadErr),
    /// A form is broken.
    Form(FormErr),
    /// A count passes its limit.
    Limit(Limit),
    NoMemory,
}

/// The count that is told of data that nest too deep: the first that is too many.
const NESTING: u64 = 1001;

/// What is told of a text that does not read.
pub(crate) fn read_error(error: ReadErr) -> BuildErr
    ensures { result ≡ told_read error }
{
    match error {
        ReadErr::TooLong { len } => BuildErr::Limit(Limit {
            which: LimitKind::Source,
            count: len,
        }),
        ReadErr::TooDeep { pos: _ } => BuildErr::Limit(Limit {
            which: LimitKind::Nesting,
            count: NESTING,
        }),
        ReadErr::NoMemory => BuildErr::NoMemory,
        fault => BuildErr::Read(fault),
    }
}

/// What is told of a broken form.
pub(crate) fn form_error(error: FormErr) -> BuildErr
    ensures { result ≡ told_form error }
{
    match error {
        FormErr::NoMemory => BuildErr::NoMemory,
        fault => BuildErr::Form(fault),
    }
}

/// What is told of a limit that is passed.
pub(crate) fn limit_error(error: LimitErr) -> BuildErr
    ensures { result ≡ told_limit error }
{
    match error {
        LimitErr::Limit(limit) => BuildErr::Limit(limit),
        LimitErr::NoMemory => BuildErr::NoMemory,
    }
}
