ghost use Rattle.std.specs.Prelude.{◌≤◌, length, IfSome};
ghost use Rattle.stalin_outside.specs.Streams.{ReadSome, WroteSome};

use std::io::{ErrorKind, Read, Write};

/// Reads once, again where a signal interrupts, and tells how many bytes came; None is a fault.
#[tactic(auto, using(crate::proofs::Interrupted::keeps_same, crate::proofs::Interrupted::keeps_then_keeps))]
pub fn read_some<R: Read>(reader: &mut R, buf: &mut [u8]) -> Option<usize>
    ensures within { IfSome result (λ count. count ≤ length buf.new) }
    ensures bytes { ReadSome (R.remaining reader.old) (R.remaining reader.new) buf.new result }
{
    for _turn in 0..u64::MAX {
        match reader.read(buf) {
            Ok(count) => return Some(count),
            Err(error) if error.kind() == ErrorKind::Interrupted => {}
            Err(_) => return None,
        }
    }
    None
}

/// Writes once, again where a signal interrupts, and tells how many bytes went; None is a fault.
#[tactic(auto, using(crate::proofs::Interrupted::keeps_same, crate::proofs::Interrupted::keeps_then_keeps))]
pub fn write_some<W: Write>(writer: &mut W, piece: &[u8]) -> Option<usize>
    ensures within { IfSome result (λ count. count ≤ length piece.now) }
    ensures bytes { WroteSome (W.contents writer.old) (W.contents writer.new) piece.now result }
{
    for _turn in 0..u64::MAX {
        match writer.write(piece) {
            Ok(count) => return Some(count),
            Err(error) if error.kind() == ErrorKind::Interrupted => {}
            Err(_) => return None,
        }
    }
    None
}
