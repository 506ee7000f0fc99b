ghost use Rattle.std.specs.Prelude.{◌≡◌, ◌≤◌, IfOk, []};

use crate::asks::Asks;
use crate::retry::{read_some, write_some};
use crate::shelf::{Begun, Got, Kind, Shelf, Took};
use std::alloc::{AllocError, Global};
use std::fs::OpenOptions;
use std::os::unix::fs::OpenOptionsExt;
use std::rt::Files;
use std::{io, mem};

/// The permission bits of a file that is created, before the process's mask takes its own away: an image
/// can be executed as it is.
const CREATED_MODE: u32 = 0o777;

/// The file that is begun.
#[derive(Drop)]
pub enum Held<F: Drop> {
    Nothing,
    ToRead(F),
    ToWrite(F),
}

/// The files of the system. It tells no content by name; of the file that is begun each call says what its
/// stream tells of itself.
///
/// A file that is there keeps its mode when it is begun for writing. A read of a directory fails.
#[derive(Drop)]
pub struct FileShelf<R: Files + Drop> {
    rt: R,
    alloc: Global,
    held: Held<R::File>,
    asks: Asks,
    faults: u64,
}

impl<R: Files + Drop> FileShelf<R> {
    ghost use Rattle.stalin_outside.specs.Calls.{raised};
    ghost use Rattle.stalin_outside.specs.FileShelf.{kind_of};

    /// A shelf over the files that `rt` reaches, with no file begun.
    pub fn new(rt: R, alloc: Global) -> Result<FileShelf<R>, AllocError>
        ensures asks { IfOk result (λ shelf. shelf.asks ≡ []) }
        ensures kind { IfOk result (λ shelf. kind_of shelf.held ≡ Kind.Nothing) }
        ensures faults { IfOk result (λ shelf. shelf.faults ≡ 0) }
    {
        Ok(FileShelf {
            rt,
            alloc,
            held: Held::Nothing,
            asks: Asks::new(alloc),
            faults: 0,
        })
    }

    /// Ends what was begun, by a fault.
    fn fail(&mut self)
        ensures kind { kind_of self.new.held ≡ Kind.Nothing }
        ensures asks { self.new.asks ≡ self.old.asks }
        ensures cause { self.new.faults ≡ raised self.old.faults }
        ensures later { self.old.faults ≤ self.new.faults }
    {
        self.held = Held::Nothing;
        self.faults = self.faults.saturating_add(1);
    }
}

impl<R: Files + Drop> Shelf for FileShelf<R> {
    ghost use Rattle.std.specs.Prelude.{None, [], List, ℕ, ◌<◌, length};
    ghost use Rattle.stalin_outside.specs.Causes.{HasCause};
    ghost use Rattle.stalin_outside.specs.Shelf.{Gives, Appends, kind_after_read, kind_after_write, last_name};
    ghost use Rattle.stalin_outside.specs.FileShelf.{kind_of, HeldRead, HeldWrite};

    ghost files = { λ shelf. None };

    ghost left = { λ shelf. [] };

    ghost begun = { λ shelf. kind_of shelf.held };

    ghost asks = { λ shelf. shelf.asks };

    ghost faults = { λ shelf. shelf.faults };

    fn begin_read(&mut self, name: &str) -> Begun {
        if self.asks.note_read(name).is_err() {
            return Begun::NoMemory;
        }
        match OpenOptions::new().read(true).open(&self.rt, name) {
            Ok(file) => {
                self.held = Held::ToRead(file);
                Begun::Ready
            }
            Err(_) => {
                self.fail();
                Begun::Failed
            }
        }
    }

    fn read(&mut self, buf: &mut [u8]) -> Got
        requires reading { kind_of self.old.held ≡ Kind.ForReading }
        requires room { 0 < length buf.old }
        ensures count { Gives None buf.new result [] [] }
        ensures bytes { HeldRead R.File.remaining buf.new result self.old.held self.new.held }
        ensures begun { kind_of self.new.held ≡ kind_after_read result }
        ensures asks { self.new.asks ≡ self.old.asks }
        ensures cause { HasCause self.old.faults self.new.faults (result ≡ Got.Failed) }
    {
        let Held::ToRead(mut file) = mem::replace(&mut self.held, Held::Nothing) else {
            self.fail();
            return Got::Failed;
        };
        match read_some(&mut file, buf) {
            Some(0) => Got::End,
            Some(count) => {
                self.held = Held::ToRead(file);
                Got::Bytes(count)
            }
            None => {
                self.fail();
                Got::Failed
            }
        }
    }

    fn begin_write(&mut self, name: &str) -> Begun {
        if self.asks.note_write(name).is_err() {
            return Begun::NoMemory;
        }
        match create(&self.rt, name) {
            Ok(file) => {
                self.held = Held::ToWrite(file);
                Begun::Ready
            }
            Err(_) => {
                self.fail();
                Begun::Failed
            }
        }
    }

    fn write(&mut self, piece: &[u8]) -> Took
        requires writing { kind_of self.old.held ≡ Kind.ForWriting }
        requires some { 0 < length piece.now }
        ensures files { Appends (last_name self.old.asks) piece.now result None None }
        ensures bytes { HeldWrite R.File.contents piece.now result self.old.held self.new.held }
        ensures begun { kind_of self.new.held ≡ kind_after_write result }
        ensures asks { self.new.asks ≡ self.old.asks }
        ensures cause { HasCause self.old.faults self.new.faults (result ≡ Took.Failed) }
    {
        let Held::ToWrite(mut file) = mem::replace(&mut self.held, Held::Nothing) else {
            self.fail();
            return Took::Failed;
        };
        match write_some(&mut file, piece) {
            Some(count) if count > 0 => {
                self.held = Held::ToWrite(file);
                Took::Bytes(count)
            }
            _ => {
                self.fail();
                Took::Failed
            }
        }
    }
}

/// Opens a file for writing and empties it; one that is not there is created.
fn create<R: Files>(rt: &R, name: &str) -> io::Result<R::File> {
    let mut options = OpenOptions::new();
    options
        .write(true)
        .create(true)
        .truncate(true)
        .mode(CREATED_MODE);
    options.open(rt, name)
}
