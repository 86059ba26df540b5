ghost use Rattle.std.specs.Prelude.{◌↔◌, IsTrue};

/// The sizes of a cache, and what its miss costs.
#[derive(Clone, Copy, Debug, PartialEq, Eq)]
pub struct CacheParams {
    /// How many bytes a line has: a power of two from 4 to 256.
    pub line: u32,
    /// How many sets there are: a power of two from 1 to 65,536.
    pub sets: u32,
    /// How many lines a set holds: 0 to 16. With 0 there is no cache.
    pub ways: u32,
    /// How many cycles a miss adds: 0 to 1,000.
    pub miss: u32,
}

impl CacheParams {
    ghost use Rattle.cache_timing.specs.Params.{IsInRange};

    /// Whether each number is one that a cache can have.
    pub fn is_in_range(&self) -> bool
        ensures in_range { IsTrue result ↔ IsInRange self.now }
    {
        self.line >= 4
            && self.line <= 256
            && self.line.is_power_of_two()
            && self.sets <= 65536
            && self.sets.is_power_of_two()
            && self.ways <= 16
            && self.miss <= 1000
    }
}

/// The caches of a machine.
#[derive(Clone, Copy, Debug, PartialEq, Eq)]
pub struct AllCaches {
    /// The instruction cache, of at most 4,096 sets.
    pub icache: CacheParams,
    /// The data cache, of at most 4,096 sets.
    pub dcache: CacheParams,
    /// Whether a store waits in the data cache until its line is dropped (write-back), or also goes
    /// on at once (write-through).
    pub back: bool,
    /// The second level, behind both.
    pub l2: CacheParams,
    /// How many cycles a miss of the first level adds that hits in the second: 0 to 1,000.
    pub l2_hit: u32,
}

impl AllCaches {
    ghost use Rattle.cache_timing.specs.Params.{AreInRange};

    /// Whether each number is one that these caches can have.
    pub fn are_in_range(&self) -> bool
        ensures in_range { IsTrue result ↔ AreInRange self.now }
    {
        self.icache.is_in_range()
            && self.icache.sets <= 4096
            && self.dcache.is_in_range()
            && self.dcache.sets <= 4096
            && self.l2.is_in_range()
            && self.l2_hit <= 1000
    }
}
