ghost use Rattle.std.specs.Prelude.{◌≡◌, ◌<◌, ◌≤◌, ◌+◌, ◌^◌, [], Some, length, min, take, OnOk, OnErr, IfOk};
ghost use Rattle.std.specs.Option.{option_copied};

use crate::asks::Asks;
use crate::calls::Calls;
use crate::shelf::{Begun, Got, Kind, Shelf, Took};
use file::MemFile;
use scheme_base::Numbers;
use std::alloc::{AllocError, Global};

mod file;
mod find;

/// A shelf of files in memory, of which chosen calls fail.
///
/// A call also fails where its file is not there, or where a write finds no room. A write takes as many
/// bytes as there is room for, and a read gives as many as are left and fit. Reads and writes take no
/// memory; a begin that finds none is not counted as a call.
#[derive(Drop)]
pub struct MemShelf {
    alloc: Global,
    files: Vec<MemFile>,
    kind: Kind,
    place: usize,
    asks: Asks,
    calls: Calls,
}

impl MemShelf {
    ghost use Rattle.stalin_outside.specs.Calls.{raised};
    ghost use Rattle.stalin_outside.specs.Stored.{Puts, contents};
    ghost use Rattle.stalin_outside.specs.MemShelf.{left_of};

    /// A shelf with no file, of which no call fails.
    pub fn new(alloc: Global) -> Result<MemShelf, AllocError>
        ensures files { IfOk result (λ shelf. shelf.files.items ≡ []) }
        ensures kind { IfOk result (λ shelf. shelf.kind ≡ Kind.Nothing) }
        ensures asks { IfOk result (λ shelf. shelf.asks ≡ []) }
        ensures calls { IfOk result (λ shelf. shelf.calls ≡ record { failing = []; made = 0; failed = 0 }) }
    {
        Ok(MemShelf {
            alloc,
            files: Vec::new(alloc),
            kind: Kind::Nothing,
            place: 0,
            asks: Asks::new(alloc),
            calls: Calls::new(Numbers::new(alloc)),
        })
    }

    /// Puts a file with these bytes on the shelf, in the place of one of that name that is there. Writes
    /// may later grow it to `room` bytes, which are taken here.
    pub fn add(&mut self, name: &str, bytes: &[u8], room: usize) -> Result<(), AllocError>
        requires { self.old.kind ≡ Kind.Nothing }
        ensures ok { OnOk result (Puts name.now (Some (record { name = name.now; bytes = bytes.now; room = room }))
            self.old.files.items self.new.files.items) }
        ensures err { OnErr result (self.new.files.items ≡ self.old.files.items) }
        ensures others { self.new ≡ record self.old { files = self.new.files } }
    {
        let file = MemFile::new(self.alloc, name.as_bytes(), bytes, room)?;
        find::put(&mut self.files, name.as_bytes(), file)
    }

    /// Lists the calls that are to fail, in the place of those listed before. Calls of all four kinds are
    /// counted together from 1, since the shelf was made.
    pub fn fail_at(&mut self, calls: &[u64]) -> Result<(), AllocError>
        ensures ok { OnOk result (self.new ≡ record self.old { calls = record self.old.calls { failing = calls.now } }) }
        ensures err { OnErr result (self.new ≡ self.old) }
    {
        self.calls.failing = Numbers::from_slice(self.alloc, calls)?;
        Ok(())
    }

    /// The bytes of the file of this name, where there is one.
    pub fn file(&self, name: &str) -> Option<&[u8]>
        ensures { option_copied result ≡ contents self.now.files.items name.now }
    {
        find::bytes_of(&self.files, name.as_bytes())
    }

    /// Ends what was begun, by a fault.
    fn fail(&mut self)
        ensures state { self.new ≡ record self.old {
          kind = Kind.Nothing;
          calls = record self.old.calls { failed = raised self.old.calls.failed };
        } }
        ensures later { self.old.calls.failed ≤ self.new.calls.failed }
    {
        self.calls.fault();
        self.kind = Kind::Nothing;
    }

    /// The bytes that are left of the file of the last ask.
    fn left(&self) -> &[u8]
        ensures bytes { result.now ≡ left_of self.now }
        ensures within { 0 < length result.now → self.now.place + length result.now < 2 ^ 64 }
    {
        match find::bytes_of(&self.files, self.asks.last_name()) {
            Some(bytes) => &bytes[self.place.min(bytes.len())..],
            None => &[],
        }
    }
}

impl Shelf for MemShelf {
    ghost use Rattle.stalin_outside.specs.declared.shelf.Ask.{Ask};
    ghost use Rattle.std.specs.Prelude.{Some};
    ghost use Rattle.stalin_outside.specs.Calls.{next_fails, after_call};
    ghost use Rattle.stalin_outside.specs.Causes.{HasCause};
    ghost use Rattle.stalin_outside.specs.Shelf.{Gives, asks_after, kind_after, kind_after_read, kind_after_write, last_name};
    ghost use Rattle.stalin_outside.specs.Stored.{Puts, contents, stored, free_room};
    ghost use Rattle.stalin_outside.specs.MemShelf.{left_of, can_begin, BeginsExactly, calls_after_begin, got, read_failed, took, write_failed, after_begin, after_write};

    ghost files = { λ shelf. Some (contents shelf.files.items) };

    ghost left = { left_of };

    ghost begun = { λ shelf. shelf.kind };

    ghost asks = { λ shelf. shelf.asks };

    ghost faults = { λ shelf. shelf.calls.failed };

    fn begin_read(&mut self, name: &str) -> Begun
        ensures exact { BeginsExactly (can_begin self.old name.now) result }
        ensures place { result ≡ Begun.Ready → self.new.place ≡ 0 }
        ensures kept { result ≡ Begun.NoMemory → self.new ≡ self.old }
        ensures files { self.new.files.items ≡ self.old.files.items }
        ensures begun { self.new.kind ≡ kind_after result Kind.ForReading self.old.kind }
        ensures asks { self.new.asks ≡ asks_after result (Ask.ToRead name.now) self.old.asks }
        ensures calls { self.new.calls ≡ calls_after_begin result self.old.calls }
        ensures cause { HasCause self.old.calls.failed self.new.calls.failed (result ≡ Begun.Failed) }
    {
        if self.asks.note_read(name).is_err() {
            return Begun::NoMemory;
        }
        if self.calls.count() || self.file(name).is_none() {
            self.fail();
            return Begun::Failed;
        }
        self.place = 0;
        self.kind = Kind::ForReading;
        Begun::Ready
    }

    fn read(&mut self, buf: &mut [u8]) -> Got
        requires reading { self.old.kind ≡ Kind.ForReading }
        requires room { 0 < length buf.old }
        ensures exact { result ≡ got (next_fails self.old.calls) (min (length (left_of self.old)) (length buf.old)) }
        ensures bytes { Gives (Some (contents self.old.files.items)) buf.new result (left_of self.old) (left_of self.new) }
        ensures files { self.new.files.items ≡ self.old.files.items }
        ensures begun { self.new.kind ≡ kind_after_read result }
        ensures asks { self.new.asks ≡ self.old.asks }
        ensures calls { self.new.calls ≡ after_call (read_failed result) self.old.calls }
        ensures cause { HasCause self.old.calls.failed self.new.calls.failed (result ≡ Got.Failed) }
    {
        if self.calls.count() {
            self.fail();
            return Got::Failed;
        }
        let left = self.left();
        let count = left.len().min(buf.len());
        if count == 0 {
            self.kind = Kind::Nothing;
            return Got::End;
        }
        buf[..count].copy_from_slice(&left[..count]);
        self.place += count;
        Got::Bytes(count)
    }

    fn begin_write(&mut self, name: &str) -> Begun
        ensures exact { BeginsExactly (can_begin self.old name.now) result }
        ensures kept { result ≡ Begun.NoMemory → self.new ≡ self.old }
        ensures files { Puts name.now (after_begin result (stored self.old.files.items name.now)) self.old.files.items self.new.files.items }
        ensures begun { self.new.kind ≡ kind_after result Kind.ForWriting self.old.kind }
        ensures asks { self.new.asks ≡ asks_after result (Ask.ToWrite name.now) self.old.asks }
        ensures calls { self.new.calls ≡ calls_after_begin result self.old.calls }
        ensures cause { HasCause self.old.calls.failed self.new.calls.failed (result ≡ Begun.Failed) }
    {
        if self.asks.note_write(name).is_err() {
            return Begun::NoMemory;
        }
        if self.calls.count() || !find::empty(&mut self.files, name.as_bytes()) {
            self.fail();
            return Begun::Failed;
        }
        self.kind = Kind::ForWriting;
        Begun::Ready
    }

    fn write(&mut self, piece: &[u8]) -> Took
        requires writing { self.old.kind ≡ Kind.ForWriting }
        requires some { 0 < length piece.now }
        ensures exact { result ≡ took (next_fails self.old.calls)
            (min (free_room (stored self.old.files.items (last_name self.old.asks))) (length piece.now)) }
        ensures files { Puts (last_name self.old.asks)
            (after_write result piece.now (stored self.old.files.items (last_name self.old.asks)))
            self.old.files.items self.new.files.items }
        ensures begun { self.new.kind ≡ kind_after_write result }
        ensures asks { self.new.asks ≡ self.old.asks }
        ensures calls { self.new.calls ≡ after_call (write_failed result) self.old.calls }
        ensures cause { HasCause self.old.calls.failed self.new.calls.failed (result ≡ Took.Failed) }
    {
        if self.calls.count() {
            self.fail();
            return Took::Failed;
        }
        let count = find::append(&mut self.files, self.asks.last_name(), piece);
        if count == 0 {
            self.fail();
            return Took::Failed;
        }
        Took::Bytes(count)
    }
}
