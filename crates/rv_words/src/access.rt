//! Loads and stores: how many bytes they take.
ghost use Rattle.std.specs.Prelude.{◌≡◌};
ghost use Rattle.rv_words.specs.Widths.{bytes_of, half_of};

/// How many bytes a load or a store takes.
#[derive(Clone, Copy, Debug, PartialEq, Eq)]
pub enum Width {
    Byte,
    Half,
    Word,
    Double,
}

impl Width {
    #[inline(always)]
    pub fn count(self) -> u64
        ensures { result ≡ bytes_of self }
    {
        match self {
            Width::Byte => 1,
            Width::Half => 2,
            Width::Word => 4,
            Width::Double => 8,
        }
    }

    /// From here on the numbers of this width are negative, as signed ones.
    #[inline(always)]
    pub fn half(self) -> u64
        ensures { result ≡ half_of self }
    {
        match self {
            Width::Byte => 0x80,
            Width::Half => 0x8000,
            Width::Word => 0x8000_0000,
            Width::Double => 0x8000_0000_0000_0000,
        }
    }
}
