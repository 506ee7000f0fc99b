ghost use Rattle.std.specs.Prelude.{◌≡◌, [], ◌∷◌, ◌++◌, ◌+◌, ◌^◌, ◌<◌, length, slice_get, Ok, OnOk, OnErr};
ghost use Rattle.scheme_base.specs.Words.{text_of};

use std::alloc::{AllocError, Global};
use std::marker::Model;

/// The most words that a command may have, so that the number of the first missing one is a `u32`.
const MOST: usize = 0xffff_fffe;

/// The words of a command, without the program's own name.
///
/// Contracts see the list of the words, each as its bytes.
#[derive(Debug, Drop)]
pub struct Words {
    alloc: Global,
    items: Vec<String>,
}

impl Model for Words {
    ghost use Rattle.std.specs.Prelude.{ℕ, List, map, string_bytes, length, ◌<◌, ◌+◌, ◌^◌};

    ghost Value = { List (List ℕ) };

    ghost view = { λ words. map string_bytes words.items.items };

    ghost invariant = { λ words. length words.items.items + 1 < 2 ^ 32 };
}

impl Words {
    /// No words. It takes no memory, and so always answers.
    pub fn new(alloc: Global) -> Result<Words, AllocError>
        ensures { result ≡ Ok [] }
    {
        Ok(Words {
            alloc,
            items: Vec::new(alloc),
        })
    }

    /// Puts a word at the end. The words are fewer than 2^32 - 1; one more is refused as want of memory.
    pub fn push(&mut self, word: &str) -> Result<(), AllocError>
        ensures ok { OnOk result (self.new ≡ self.old ++ word.now ∷ []) }
        ensures err { OnErr result (self.new ≡ self.old) }
    {
        if self.items.len() >= MOST {
            return Err(AllocError);
        }
        let word = String::from_str(self.alloc, word)?;
        self.items.push(word)?;
        Ok(())
    }

    pub fn len(&self) -> usize
        ensures count { result ≡ length self.now }
        ensures few { result + 1 < 2 ^ 32 }
    {
        self.items.len()
    }

    /// The word at `at`, counted from 0.
    pub fn word(&self, at: usize) -> Option<&str>
        ensures { text_of result ≡ slice_get self.now at }
    {
        self.items.get(at).map(|word| word.as_str())
    }
}
