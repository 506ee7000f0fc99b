//! What a worker tells the others of what it grows and finds.

use crate::readers::Readers;
use flow_form::Give;

/// The notes of a worker. Where there is no index, nothing is noted, and what has grown is left to the next round.
#[derive(Drop)]
pub(crate) struct Notes<'a> {
    pub readers: Option<&'a Readers>,
    /// Where its search for the next row that waits begins.
    next: u32,
}

impl<'a> Notes<'a> {
    pub(crate) fn none() -> Notes<'a> {
        Notes {
            readers: None,
            next: 0,
        }
    }

    /// Those of one worker, who begins.
    pub(crate) fn new(readers: &'a Readers) -> Notes<'a> {
        if readers.parts() == 0 {
            return Notes::none();
        }
        readers.waiting.begin();
        Notes {
            readers: Some(readers),
            next: 0,
        }
    }

    /// Notes bits that were set in a word.
    pub(crate) fn grew(&self, word: u32, bits: u64) {
        if let Some(readers) = self.readers {
            readers.waiting.put(word, bits);
        }
    }

    /// Takes the next row that waits, and what has grown in it, word by word.
    pub(crate) fn take(&mut self, grown: &mut [u64]) -> Option<u32> {
        let waiting = &self.readers?.waiting;
        let row = waiting.take_row(self.next)?;
        self.next = row.saturating_add(1);
        for (at, mask) in grown.iter_mut().enumerate() {
            *mask = waiting.take_mask(row, at);
        }
        Some(row)
    }

    /// Notes that the second test of a rule holds.
    pub(crate) fn second_holds(&self, rule: usize) {
        if let Some(readers) = self.readers {
            readers.found.note_second(rule);
        }
    }

    /// Notes that both tests of a rule hold, and what it gives.
    pub(crate) fn both_hold(&self, rule: usize, give: Give) {
        if let Some(readers) = self.readers {
            readers.found.note_both(rule, give);
        }
    }
}
