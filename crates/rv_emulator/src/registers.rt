//! The registers.
ghost use Rattle.std.specs.Prelude.{◌≡◌, slice_index};

/// The 32 registers, and the slot that has 0 (`rv_words::ZERO`), from which register 0 is read.
#[derive(Clone, Copy, Debug, PartialEq, Eq)]
pub struct Registers {
    words: [u64; 33],
    ghost zero: { slice_index words 32 ≡ 0 },
}

impl Registers {
    ghost use Rattle.std.specs.Prelude.{◌<◌};
    ghost use Rattle.rv_form.specs.Machine.{with_reg};
    ghost use Rattle.rv_words.specs.Packed.{IsSource, number_of};
    ghost use Rattle.rv_emulator.specs.States.{reads, regs_of};

    pub fn new() -> Registers
        ensures { regs_of result ≡ (λ r. 0) }
    {
        Registers { words: [0; 33] }
    }

    #[inline(always)]
    pub fn read(&self, slot: u8) -> u64
        requires { IsSource slot }
        ensures { result ≡ reads self.now (number_of slot) }
    {
        self.words[usize::from(slot)]
    }

    #[inline(always)]
    pub fn put(&mut self, r: u8, value: u64)
        requires { r < 32 }
        ensures { regs_of self.new ≡ with_reg (regs_of self.old) r value }
    {
        self.words[usize::from(r)] = value;
    }
}
