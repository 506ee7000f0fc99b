//! The regions of memory: which bytes there are, where they stand, and how they may be used.
ghost use Rattle.std.specs.Prelude.{◌≡◌, ◌<◌, ◌≤◌, ◌^◌};
ghost use Rattle.rv_emulator.specs.Memory.{AreLow, IsPlaceOf, has_flag, total_of};

/// The flags of a segment: which uses of its bytes it allows.
pub const EXECUTES: u32 = 1;

pub const WRITES: u32 = 2;

pub const READS: u32 = 4;

/// A stretch of memory, as a segment loads it.
#[derive(Clone, Copy, Debug, PartialEq, Eq)]
pub struct Region {
    pub start: u64,
    pub size: u64,
    pub flags: u32,
}

/// Where the bytes of an access stand.
#[derive(Clone, Copy, Debug, PartialEq, Eq)]
pub enum Place {
    /// Side by side in one region, from `at` on.
    Whole { at: usize, flags: u32 },
    /// In more than one region, or partly in none.
    Apart,
}

/// Whether a flag is set.
#[inline(always)]
pub fn is_set(flags: u32, flag: u32) -> bool
    requires { 0 < flag }
    ensures { result ≡ has_flag flags flag }
{
    flags / flag % 2 == 1
}

/// Where `count` bytes from `a` on stand.
#[inline(always)]
pub fn find(regions: &[Region], a: u64, count: u64) -> Place
    requires low { AreLow regions.now }
    requires total { total_of regions.now < 2 ^ 63 }
    requires some { 0 < count }
    ensures { IsPlaceOf regions.now a count result }
{
    let mut rest = regions;
    let mut from: usize = 0;
    while let Some((region, others)) = rest.split_first() {
        if region.start <= a {
            let inside = a - region.start;
            if inside < region.size {
                if count <= region.size - inside {
                    return Place::Whole {
                        at: from + inside as usize,
                        flags: region.flags,
                    };
                }
                return Place::Apart;
            }
        } else if region.start - a < count {
            return Place::Apart;
        }
        from += region.size as usize;
        rest = others;
    }
    Place::Apart
}
