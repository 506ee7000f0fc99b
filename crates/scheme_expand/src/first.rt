//! Names in the order in which they first stand in a text.

ghost use Rattle.std.specs.Prelude.{◌≡◌, List, ℕ, [], ◌∷◌, ◌++◌, OnOk};
ghost use Rattle.draft_form.specs.Drawn.{word_name, Names};
ghost use Rattle.scheme_expand.specs.ByWord.{flag_at, AreTaken, HaveOneWord, Marks};

use std::alloc::{AllocError, Global};

/// Names that are taken, each once.
#[derive(Drop)]
pub(crate) struct Firsts {
    pub(crate) taken: Vec<u32>,
    /// By name, whether it is listed and not taken yet.
    left: Vec<bool>,
}

impl Firsts {
    /// Of the names that are listed none is taken.
    pub(crate) fn new(alloc: Global, listed: Vec<bool>) -> Firsts
        ensures { (names : Names) (xs : List (List ℕ)) → Marks names xs listed.items → AreTaken names xs [] result }
    {
        Firsts {
            taken: Vec::new(alloc),
            left: listed,
        }
    }

    /// Takes a name, if it is left.
    pub(crate) fn take(&mut self, word: u32) -> Result<(), AllocError>
        ensures { OnOk result ((names : Names) (listed text : List (List ℕ)) → HaveOneWord names listed → AreTaken names listed text self.old → AreTaken names listed (text ++ word_name names word ∷ []) self.new) }
    {
        if !self.is_left(word) {
            return Ok(());
        }
        self.taken.push(word)?;
        self.left[word as usize] = false;
        Ok(())
    }

    fn is_left(&self, word: u32) -> bool
        ensures { result ≡ flag_at self.now.left.items word }
    {
        match self.left.get(word as usize) {
            Some(flag) => *flag,
            None => false,
        }
    }
}
