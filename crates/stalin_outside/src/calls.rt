ghost use Rattle.std.specs.Prelude.{◌≡◌, ◌≤◌};
ghost use Rattle.stalin_outside.specs.Calls.{next_fails, raised};

use scheme_base::Numbers;

/// The calls of an object in memory: which of them are to fail, how many were made, and how many failed.
///
/// Calls are counted from 1. Each number stays at 2^64 - 1 once it is there.
#[derive(Debug, Drop)]
pub struct Calls {
    pub failing: Numbers,
    pub made: u64,
    pub failed: u64,
}

impl Calls {
    /// No calls so far, of which these are to fail.
    pub fn new(failing: Numbers) -> Calls
        ensures { result ≡ record { failing = failing; made = 0; failed = 0 } }
    {
        Calls {
            failing,
            made: 0,
            failed: 0,
        }
    }

    /// Counts a call, and tells whether it is to fail.
    pub fn count(&mut self) -> bool
        ensures answer { result ≡ next_fails self.old }
        ensures counted { self.new ≡ record self.old { made = raised self.old.made } }
    {
        self.made = self.made.saturating_add(1);
        self.failing.as_slice().contains(&self.made)
    }

    /// Counts a failure.
    pub fn fault(&mut self)
        ensures counted { self.new ≡ record self.old { failed = raised self.old.failed } }
        ensures later { self.old.failed ≤ self.new.failed }
    {
        self.failed = self.failed.saturating_add(1);
    }
}
