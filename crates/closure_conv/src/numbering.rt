//! Indices of the members of a list, each found at once.

ghost use Rattle.std.specs.Prelude.{◌≡◌, [], ℕ, is_some, nat_eq, if◌then◌else◌, Some, None, IfOk, OnOk};
ghost use Rattle.closure_conv.specs.Tables.{Numbers, number_of, or_else};

use std::alloc::{AllocError, Global};

/// For each number below a bound, its index in a list, where it is a member.
#[derive(Drop)]
pub(crate) struct Numbering {
    numbers: Vec<Option<u32>>,
}

impl Numbering {
    /// The numbering of a list without members, with room for members below `below`.
    pub(crate) fn new(alloc: Global, below: usize) -> Result<Numbering, AllocError>
        ensures { IfOk result (λ numbering. Numbers numbering []) }
    {
        Ok(Numbering {
            numbers: vec![in alloc; None; below]?,
        })
    }

    /// The numbering of the members of a list.
    pub(crate) fn of(alloc: Global, below: usize, members: &[u32]) -> Result<Numbering, AllocError>
        ensures { IfOk result (λ numbering. Numbers numbering members.now) }
    {
        let mut numbering = Numbering::new(alloc, below)?;
        numbering.fill(members)?;
        Ok(numbering)
    }

    /// Numbers the members of a list, where it numbered none. A member past the bound has no room.
    pub(crate) fn fill(&mut self, members: &[u32]) -> Result<(), AllocError>
        requires { Numbers self.old [] }
        ensures { OnOk result (Numbers self.new members.now) }
    {
        let mut next = 0u32;
        for member in members {
            self.give(*member, next)?;
            next = next.checked_add(1).ok_or(AllocError)?;
        }
        Ok(())
    }

    /// Gives a member its number, unless it has one.
    fn give(&mut self, member: u32, number: u32) -> Result<(), AllocError>
        ensures { OnOk result ((x : ℕ) → number_of self.new x ≡ or_else (number_of self.old x) (if nat_eq x member then Some number else None)) }
    {
        let at = member as usize;
        match self.numbers.get(at) {
            None => Err(AllocError),
            Some(Some(_)) => Ok(()),
            Some(None) => {
                self.numbers[at] = Some(number);
                Ok(())
            }
        }
    }

    /// Takes the numbers from the members of the list that it numbered.
    pub(crate) fn clear(&mut self, members: &[u32])
        requires { Numbers self.old members.now }
        ensures { Numbers self.new [] }
    {
        for member in members {
            self.take(*member);
        }
    }

    /// Takes its number from a member.
    fn take(&mut self, member: u32)
        ensures { (x : ℕ) → number_of self.new x ≡ (if nat_eq x member then None else number_of self.old x) }
    {
        let at = member as usize;
        if at < self.numbers.len() {
            self.numbers[at] = None;
        }
    }

    /// The number of a member.
    pub(crate) fn number(&self, member: u32) -> Option<u32>
        ensures { result ≡ number_of self.now member }
    {
        match self.numbers.get(member as usize) {
            None => None,
            Some(number) => *number,
        }
    }

    /// Whether it is a member.
    pub(crate) fn contains(&self, member: u32) -> bool
        ensures { result ≡ is_some (number_of self.now member) }
    {
        self.number(member).is_some()
    }
}
