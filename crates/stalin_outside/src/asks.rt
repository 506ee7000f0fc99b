ghost use Rattle.std.specs.Prelude.{◌≡◌, [], ◌∷◌, OnOk, OnErr};
ghost use Rattle.stalin_outside.specs.Shelf.{last_name};

use crate::shelf::Ask;
use scheme_base::Bytes;
use std::alloc::{AllocError, Global};
use std::marker::Model;

/// The asks of a shelf, of which contracts see the newest first.
#[derive(Debug, Drop)]
pub struct Asks {
    alloc: Global,
    items: Vec<Ask>,
}

impl Model for Asks {
    ghost use Rattle.std.specs.Prelude.{List, reverse};
    ghost use Rattle.stalin_outside.specs.declared.shelf.Ask.{Ask};

    ghost Value = { List Ask };

    ghost view = { λ asks. reverse asks.items.items };
}

impl Asks {
    pub fn new(alloc: Global) -> Asks
        ensures { result ≡ [] }
    {
        Asks {
            alloc,
            items: Vec::new(alloc),
        }
    }

    /// Notes a begin for reading.
    pub fn note_read(&mut self, name: &str) -> Result<(), AllocError>
        ensures ok { OnOk result (self.new ≡ Ask.ToRead name.now ∷ self.old) }
        ensures err { OnErr result (self.new ≡ self.old) }
    {
        let name = Bytes::from_slice(self.alloc, name.as_bytes())?;
        self.items.push(Ask::ToRead(name))?;
        Ok(())
    }

    /// Notes a begin for writing.
    pub fn note_write(&mut self, name: &str) -> Result<(), AllocError>
        ensures ok { OnOk result (self.new ≡ Ask.ToWrite name.now ∷ self.old) }
        ensures err { OnErr result (self.new ≡ self.old) }
    {
        let name = Bytes::from_slice(self.alloc, name.as_bytes())?;
        self.items.push(Ask::ToWrite(name))?;
        Ok(())
    }

    /// The name of the last ask, which is empty before the first.
    pub fn last_name(&self) -> &[u8]
        ensures { result.now ≡ last_name self.now }
    {
        match self.items.last() {
            Some(ask) => ask.name(),
            None => &[],
        }
    }
}
