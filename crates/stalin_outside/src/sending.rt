//! Writing a text to a channel of a console, up to the first call that fails.
ghost use Rattle.stalin_outside.specs.Sending.{Prints, Sends, joined};

use crate::console::{Console, Out};

/// Writes a text to the output, up to the first call that fails; tells whether none did.
pub fn print<C: Console>(console: &mut C, text: &[u8]) -> bool
    ensures { Prints text.now result (C.told console.old) (C.told console.new) }
{
    for byte in text {
        if console.out(*byte) == Out::Failed {
            return false;
        }
    }
    true
}

/// Writes the parts of a text to the output, up to the first call that fails; tells whether none did.
pub fn print_all<C: Console>(console: &mut C, parts: &[&[u8]]) -> bool
    ensures { Prints (joined parts.now) result (C.told console.old) (C.told console.new) }
{
    for part in parts {
        if !print(console, part) {
            return false;
        }
    }
    true
}

/// Writes a text to the errors, up to the first call that fails; tells whether none did.
pub fn send<C: Console>(console: &mut C, text: &[u8]) -> bool
    ensures { Sends text.now result (C.told console.old) (C.told console.new) }
{
    for byte in text {
        if console.err(*byte) == Out::Failed {
            return false;
        }
    }
    true
}

/// Writes the parts of a text to the errors, up to the first call that fails; tells whether none did.
pub fn send_all<C: Console>(console: &mut C, parts: &[&[u8]]) -> bool
    ensures { Sends (joined parts.now) result (C.told console.old) (C.told console.new) }
{
    for part in parts {
        if !send(console, part) {
            return false;
        }
    }
    true
}
