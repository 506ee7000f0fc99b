//! Reading and writing the whole of a file over a shelf, in pieces.
ghost use Rattle.std.specs.Prelude.{◌≡◌, ◌≤◌, ◌<◌, ◌∷◌, length, ◌^◌};
ghost use Rattle.stalin_outside.specs.Causes.{HasCause};
ghost use Rattle.stalin_outside.specs.Shelf.{SameFiles, last_name};
ghost use Rattle.stalin_outside.specs.WholeFiles.{ReadsFile, ReadsRest, LeavesFile, LeavesRest, WritesFile, WritesRest, AskedToRead, AskedToWrite};

use crate::shelf::{Begun, Got, Kind, Shelf, Took};
use scheme_base::Bytes;
use std::alloc::Global;

/// How many bytes a read or a write asks for at a time, at most.
const PIECE: usize = 4096;

/// What reading a file gives.
#[derive(Drop)]
pub enum Reading {
    /// All its bytes.
    Whole(Bytes),
    /// It has more bytes than it may have.
    TooLong,
    /// A call of the shelf failed.
    Fault,
    NoMemory,
}

/// Reads the whole of a file, unless it has more than `most` bytes: it reads `most` + 1 of them at most.
pub fn read_file<H: Shelf>(alloc: Global, shelf: &mut H, name: &str, most: usize) -> Reading
    requires room { most < 2 ^ 32 }
    ensures content { ReadsFile most (H.files shelf.old) name.now result }
    ensures left { LeavesFile most (H.files shelf.old) name.now (H.left shelf.new) result }
    ensures files { SameFiles (H.files shelf.old) (H.files shelf.new) }
    ensures asks { AskedToRead name.now result (H.asks shelf.old) (H.asks shelf.new) }
    ensures cause { HasCause (H.faults shelf.old) (H.faults shelf.new) (result ≡ Reading.Fault) }
{
    match shelf.begin_read(name) {
        Begun::Ready => read_rest(alloc, shelf, most),
        Begun::Failed => Reading::Fault,
        Begun::NoMemory => Reading::NoMemory,
    }
}

/// Reads what is left of the file that is begun for reading.
fn read_rest<H: Shelf>(alloc: Global, shelf: &mut H, most: usize) -> Reading
    requires reading { H.begun shelf.old ≡ Kind.ForReading }
    requires room { most < 2 ^ 32 }
    ensures content { ReadsRest most (H.files shelf.old) (H.left shelf.old) result }
    ensures left { LeavesRest most (H.files shelf.old) (H.left shelf.old) (H.left shelf.new) result }
    ensures files { SameFiles (H.files shelf.old) (H.files shelf.new) }
    ensures asks { H.asks shelf.new ≡ H.asks shelf.old }
    ensures cause { HasCause (H.faults shelf.old) (H.faults shelf.new) (result ≡ Reading.Fault) }
{
    let mut text = Bytes::new(alloc);
    let mut buf = [0u8; PIECE];
    'reads: while text.len() <= most {
        let room = (most + 1 - text.len()).min(PIECE);
        match shelf.read(&mut buf[..room]) {
            Got::Bytes(count) => {
                if text.extend_from_slice(&buf[..count]).is_err() {
                    return Reading::NoMemory;
                }
            }
            Got::End => return Reading::Whole(text),
            Got::Failed => return Reading::Fault,
        }
    }
    Reading::TooLong
}

/// What writing a file gives.
#[derive(Clone, Copy, Debug, PartialEq, Eq)]
pub enum Writing {
    Done,
    /// A call of the shelf failed.
    Fault,
    NoMemory,
}

/// Writes the whole of a file, in place of what it held.
pub fn write_file<H: Shelf>(shelf: &mut H, name: &str, bytes: &[u8]) -> Writing
    ensures files { WritesFile name.now bytes.now result (H.files shelf.old) (H.files shelf.new) }
    ensures asks { AskedToWrite name.now result (H.asks shelf.old) (H.asks shelf.new) }
    ensures cause { HasCause (H.faults shelf.old) (H.faults shelf.new) (result ≡ Writing.Fault) }
{
    match shelf.begin_write(name) {
        Begun::Ready => write_rest(shelf, bytes),
        Begun::Failed => Writing::Fault,
        Begun::NoMemory => Writing::NoMemory,
    }
}

/// Writes bytes at the end of the file that is begun for writing.
fn write_rest<H: Shelf>(shelf: &mut H, bytes: &[u8]) -> Writing
    requires writing { H.begun shelf.old ≡ Kind.ForWriting }
    ensures files { WritesRest (last_name (H.asks shelf.old)) bytes.now result (H.files shelf.old) (H.files shelf.new) }
    ensures asks { H.asks shelf.new ≡ H.asks shelf.old }
    ensures cause { HasCause (H.faults shelf.old) (H.faults shelf.new) (result ≡ Writing.Fault) }
{
    let mut rest = bytes;
    'writes: while !rest.is_empty() {
        let piece = &rest[..rest.len().min(PIECE)];
        match shelf.write(piece) {
            Took::Bytes(count) => rest = &rest[count..],
            Took::Failed => return Writing::Fault,
        }
    }
    Writing::Done
}
