ghost use Rattle.std.specs.Prelude.{◌≡◌, ◌<◌, ℕ, List, Option, length};
ghost use Rattle.stalin_outside.specs.Causes.{HasCause};
ghost use Rattle.stalin_outside.specs.Shelf.{Files, SameFiles, Empties, Appends, StartsFile, Gives, asks_after, kind_after, kind_after_read, kind_after_write, last_name, name_of};

use scheme_base::Bytes;

/// What a begin answers.
#[derive(Clone, Copy, Debug, PartialEq, Eq)]
pub enum Begun {
    /// The file is begun.
    Ready,
    /// The file cannot be begun, and none is begun now.
    Failed,
    /// No memory for the call, which did nothing.
    NoMemory,
}

/// What a read of the file that is begun for reading answers.
#[derive(Clone, Copy, Debug, PartialEq, Eq)]
pub enum Got {
    /// So many bytes, at least one, at the front of the buffer.
    Bytes(usize),
    /// Nothing is left, and no file is begun now.
    End,
    /// A fault, and no file is begun now.
    Failed,
}

/// What a write to the file that is begun for writing answers.
#[derive(Clone, Copy, Debug, PartialEq, Eq)]
pub enum Took {
    /// So many bytes from the front of the piece, at least one.
    Bytes(usize),
    /// A fault, and no file is begun now.
    Failed,
}

/// Which kind of file is begun.
#[derive(Clone, Copy, Debug, PartialEq, Eq)]
pub enum Kind {
    Nothing,
    ForReading,
    ForWriting,
}

/// A begin that answered `Ready` or `Failed`, with the name of its file.
#[derive(Debug, Drop)]
pub enum Ask {
    ToRead(Bytes),
    ToWrite(Bytes),
}

impl Ask {
    pub fn name(&self) -> &[u8]
        ensures { result.now ≡ name_of self.now }
    {
        match self {
            Ask::ToRead(name) => name.as_slice(),
            Ask::ToWrite(name) => name.as_slice(),
        }
    }
}

/// A shelf of files, of which one at most is begun for reading or for writing.
///
/// A begin that answers `Ready` ends what was begun before; one that answers `NoMemory` leaves all as it
/// was. A call that fails leaves every file as it was.
pub trait Shelf {
    ghost use Rattle.stalin_outside.specs.declared.shelf.Kind.{Kind};
    ghost use Rattle.stalin_outside.specs.declared.shelf.Ask.{Ask};

    /// The bytes of each file by its name, where the shelf tells them.
    ghost files: { Self → Option Files };

    /// What is left of the file that is begun for reading. It means something only where the shelf
    /// tells its files.
    ghost left: { Self → List ℕ };

    /// Which kind of file is begun.
    ghost begun: { Self → Kind };

    /// The begins that answered `Ready` or `Failed`, the newest first.
    ghost asks: { Self → List Ask };

    /// How many calls have failed, at least.
    ghost faults: { Self → ℕ };

    /// Begins a file for reading, from its start.
    fn begin_read(&mut self, name: &str) -> Begun
        ensures place { StartsFile (files self.old) name.now result (left self.old) (left self.new) }
        ensures files { SameFiles (files self.old) (files self.new) }
        ensures begun { begun self.new ≡ kind_after result Kind.ForReading (begun self.old) }
        ensures asks { asks self.new ≡ asks_after result (Ask.ToRead name.now) (asks self.old) }
        ensures cause { HasCause (faults self.old) (faults self.new) (result ≡ Begun.Failed) };

    /// Reads the next bytes of the file that is begun for reading into the front of `buf`.
    fn read(&mut self, buf: &mut [u8]) -> Got
        requires reading { begun self.old ≡ Kind.ForReading }
        requires room { 0 < length buf.old }
        ensures bytes { Gives (files self.old) buf.new result (left self.old) (left self.new) }
        ensures files { SameFiles (files self.old) (files self.new) }
        ensures begun { begun self.new ≡ kind_after_read result }
        ensures asks { asks self.new ≡ asks self.old }
        ensures cause { HasCause (faults self.old) (faults self.new) (result ≡ Got.Failed) };

    /// Begins a file for writing. After `Ready` it is there and empty.
    fn begin_write(&mut self, name: &str) -> Begun
        ensures files { Empties name.now result (files self.old) (files self.new) }
        ensures place { result ≡ Begun.NoMemory → left self.new ≡ left self.old }
        ensures begun { begun self.new ≡ kind_after result Kind.ForWriting (begun self.old) }
        ensures asks { asks self.new ≡ asks_after result (Ask.ToWrite name.now) (asks self.old) }
        ensures cause { HasCause (faults self.old) (faults self.new) (result ≡ Begun.Failed) };

    /// Writes bytes from the front of `piece` at the end of the file that is begun for writing, whose
    /// name is that of the last ask.
    fn write(&mut self, piece: &[u8]) -> Took
        requires writing { begun self.old ≡ Kind.ForWriting }
        requires some { 0 < length piece.now }
        ensures files { Appends (last_name (asks self.old)) piece.now result (files self.old) (files self.new) }
        ensures begun { begun self.new ≡ kind_after_write result }
        ensures asks { asks self.new ≡ asks self.old }
        ensures cause { HasCause (faults self.old) (faults self.new) (result ≡ Took.Failed) };
}
