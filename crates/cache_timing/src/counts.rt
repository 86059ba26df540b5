ghost use Rattle.std.specs.Prelude.{◌≡◌, ◌-◌, ◌^◌};
ghost use Rattle.cache_timing.specs.Caches.{risen};

use crate::cache::Touch;

/// What the caches of a machine counted. A count stands still at its largest value.
#[derive(Clone, Copy, Debug, PartialEq, Eq)]
pub struct CacheCounts {
    /// Accesses of the instruction cache.
    pub icache_accesses: u64,
    /// Those of them that missed.
    pub icache_misses: u64,
    /// Accesses of the data cache.
    pub dcache_accesses: u64,
    /// Those of them that missed.
    pub dcache_misses: u64,
    /// Accesses of the second level, write-backs among them.
    pub l2_accesses: u64,
    /// Those of them that missed.
    pub l2_misses: u64,
    /// Dirty lines that the data cache dropped.
    pub writebacks: u64,
}

/// Lets a count stand at its largest value.
#[inline(never)]
fn stand_still(count: &mut u64)
    ensures { count.new ≡ 2 ^ 64 - 1 }
{
    *count = u64::MAX;
}

/// Counts one more. The rare end is a call, so that what is left is an addition to memory and a
/// jump that isn't taken.
#[inline(always)]
fn rise(count: &mut u64)
    ensures { count.new ≡ risen count.old }
{
    *count = count.wrapping_add(1);
    if *count == 0 {
        stand_still(count);
    }
}

impl CacheCounts {
    ghost use Rattle.cache_timing.specs.Caches.{cold, accesses_after, misses_after, icache_counted};
    ghost use Rattle.cache_timing.specs.Caches.{dcache_counted, l2_counted, writeback_counted};

    /// Nothing was counted.
    pub(crate) fn new() -> CacheCounts
        ensures { result ≡ cold.counts }
    {
        CacheCounts {
            icache_accesses: 0,
            icache_misses: 0,
            dcache_accesses: 0,
            dcache_misses: 0,
            l2_accesses: 0,
            l2_misses: 0,
            writebacks: 0,
        }
    }

    /// The accesses of a cache after one more.
    fn accesses_after(touch: Touch, count: u64) -> u64
        ensures { result ≡ accesses_after touch count }
    {
        match touch {
            Touch::None => count,
            Touch::Hit | Touch::Miss { .. } => count.saturating_add(1),
        }
    }

    /// The misses of a cache after one more access.
    fn misses_after(touch: Touch, count: u64) -> u64
        ensures { result ≡ misses_after touch count }
    {
        match touch {
            Touch::None | Touch::Hit => count,
            Touch::Miss { .. } => count.saturating_add(1),
        }
    }

    /// Counts a hit of the instruction cache.
    #[inline(always)]
    pub(crate) fn count_icache_hit(&mut self)
        ensures { self.new ≡ icache_counted Touch.Hit self.old }
    {
        rise(&mut self.icache_accesses);
    }

    /// Counts a hit of the data cache.
    #[inline(always)]
    pub(crate) fn count_dcache_hit(&mut self)
        ensures { self.new ≡ dcache_counted Touch.Hit self.old }
    {
        rise(&mut self.dcache_accesses);
    }

    /// Counts an access to the instruction cache.
    pub(crate) fn count_icache(&mut self, touch: Touch)
        ensures { self.new ≡ icache_counted touch self.old }
    {
        self.icache_accesses = Self::accesses_after(touch, self.icache_accesses);
        self.icache_misses = Self::misses_after(touch, self.icache_misses);
    }

    /// Counts an access to the data cache.
    pub(crate) fn count_dcache(&mut self, touch: Touch)
        ensures { self.new ≡ dcache_counted touch self.old }
    {
        self.dcache_accesses = Self::accesses_after(touch, self.dcache_accesses);
        self.dcache_misses = Self::misses_after(touch, self.dcache_misses);
    }

    /// Counts an access to the second level.
    pub(crate) fn count_l2(&mut self, touch: Touch)
        ensures { self.new ≡ l2_counted touch self.old }
    {
        self.l2_accesses = Self::accesses_after(touch, self.l2_accesses);
        self.l2_misses = Self::misses_after(touch, self.l2_misses);
    }

    /// Counts a dirty line that was dropped.
    pub(crate) fn count_writeback(&mut self)
        ensures { self.new ≡ writeback_counted self.old }
    {
        self.writebacks = self.writebacks.saturating_add(1);
    }
}
