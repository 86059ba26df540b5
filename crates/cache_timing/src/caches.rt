use crate::cache::{Cache, Touch};
use crate::counts::CacheCounts;
use crate::last_line::LastLine;
use crate::params::AllCaches;
use fsim_base::NoMemory;
use std::alloc::Global;

/// The caches of a machine: one for instructions, one for data, and a second level behind both.
#[derive(Debug, Drop)]
pub struct Caches {
    params: AllCaches,
    icache: Cache,
    dcache: Cache,
    l2: Cache,
    counts: CacheCounts,
    /// The line of the last fetch: most fetches are of it again.
    fetched: LastLine,
}

impl Caches {
    ghost use Rattle.std.specs.Prelude.{◌≡◌, ◌≢◌, ℕ, false, IfOk};
    ghost use Rattle.cache_timing.specs.Params.{AreInRange};
    ghost use Rattle.cache_timing.specs.Caches.{CachesState, cold, icache_touched, dcache_touched};
    ghost use Rattle.cache_timing.specs.Caches.{l2_touched, missed, drained, followed, fetched};
    ghost use Rattle.cache_timing.specs.Caches.{loaded, stored};
    ghost use Rattle.cache_timing.specs.Cache.{touched};
    ghost use Rattle.cache_timing.specs.CachesStandFor.{CachesStandFor};

    /// Caches that hold nothing. They take their memory here and none later.
    pub fn new(alloc: Global, p: &AllCaches) -> Result<Caches, NoMemory>
        requires in_range { AreInRange p.now }
        ensures cold { IfOk result (λ it. CachesStandFor it p.now cold) }
    {
        Ok(Caches {
            params: *p,
            icache: Cache::new(alloc, p.icache, false)?,
            dcache: Cache::new(alloc, p.dcache, p.back)?,
            l2: Cache::new(alloc, p.l2, false)?,
            counts: CacheCounts::new(),
            fetched: LastLine::none(),
        })
    }

    /// What was counted so far.
    pub fn counts(&self) -> CacheCounts
        ensures counts { (p : AllCaches) (s : CachesState) → CachesStandFor self.now p s →
            result ≡ s.counts }
    {
        self.counts
    }

    /// An access to the instruction cache alone, where there is one.
    fn touch_icache(&mut self, addr: u32) -> Touch
        requires some_way { self.old.icache.params.ways ≢ 0 }
        ensures touch { (p : AllCaches) (s : CachesState) → CachesStandFor self.old p s →
            result ≡ (touched p.icache false s.icache addr false).touch }
        ensures state { (p : AllCaches) (s : CachesState) → CachesStandFor self.old p s →
            CachesStandFor self.new p
            (icache_touched s (touched p.icache false s.icache addr false)) }
    {
        let touch = self.icache.access(addr, false);
        self.fetched = self.icache.line_around(addr);
        self.counts.count_icache(touch);
        touch
    }

    /// An access to the data cache alone.
    fn touch_dcache(&mut self, addr: u32, write: bool) -> Touch
        ensures touch { (p : AllCaches) (s : CachesState) → CachesStandFor self.old p s →
            result ≡ (touched p.dcache p.back s.dcache addr write).touch }
        ensures state { (p : AllCaches) (s : CachesState) → CachesStandFor self.old p s →
            CachesStandFor self.new p
            (dcache_touched s (touched p.dcache p.back s.dcache addr write)) }
    {
        let touch = self.dcache.access(addr, write);
        self.counts.count_dcache(touch);
        touch
    }

    /// An access to the second level alone.
    fn touch_l2(&mut self, addr: u32) -> Touch
        ensures touch { (p : AllCaches) (s : CachesState) → CachesStandFor self.old p s →
            result ≡ (touched p.l2 false s.l2 addr false).touch }
        ensures state { (p : AllCaches) (s : CachesState) → CachesStandFor self.old p s →
            CachesStandFor self.new p (l2_touched s (touched p.l2 false s.l2 addr false)) }
    {
        let touch = self.l2.access(addr, false);
        self.counts.count_l2(touch);
        touch
    }

    /// Sends a miss of the first level on to the second. The result is the cycles that it adds:
    /// `own` without a second level.
    fn miss(&mut self, own: u32, addr: u32) -> u32
        ensures cycles { (p : AllCaches) (s : CachesState) → CachesStandFor self.old p s →
            result ≡ (missed p own s addr).cycles }
        ensures state { (p : AllCaches) (s : CachesState) → CachesStandFor self.old p s →
            CachesStandFor self.new p (missed p own s addr).state }
    {
        match self.touch_l2(addr) {
            Touch::None => own,
            Touch::Hit => self.params.l2_hit,
            Touch::Miss { .. } => self.params.l2.miss,
        }
    }

    /// Writes back the dirty line that was dropped, if one was: it starts at this address.
    fn drain(&mut self, dropped: Option<u32>)
        ensures { (p : AllCaches) (s : CachesState) → CachesStandFor self.old p s →
            CachesStandFor self.new p (drained p dropped s) }
    {
        if let Some(first) = dropped {
            self.counts.count_writeback();
            self.miss(0, first);
        }
    }

    /// What follows in the second level after an access of the first.
    fn follow(&mut self, own: u32, addr: u32, touch: Touch) -> u32
        ensures cycles { (p : AllCaches) (s : CachesState) → CachesStandFor self.old p s →
            result ≡ (followed p own addr touch s).cycles }
        ensures state { (p : AllCaches) (s : CachesState) → CachesStandFor self.old p s →
            CachesStandFor self.new p (followed p own addr touch s).state }
    {
        match touch {
            Touch::None | Touch::Hit => 0,
            Touch::Miss { dropped } => {
                let cycles = self.miss(own, addr);
                self.drain(dropped);
                cycles
            }
        }
    }

    /// The fetch of an instruction. The result is the cycles that it adds. It goes inline: most
    /// fetches are of the line fetched last, and a machine without the cache makes no call.
    #[inline(always)]
    #[tactic(auto, unfolding(crate::specs::Caches::fetched))]
    pub fn fetch(&mut self, addr: u32) -> u32
        ensures cycles { (p : AllCaches) (s : CachesState) → CachesStandFor self.old p s →
            result ≡ (fetched p s addr).cycles }
        ensures state { (p : AllCaches) (s : CachesState) → CachesStandFor self.old p s →
            CachesStandFor self.new p (fetched p s addr).state }
    {
        if self.fetched.holds(addr) {
            self.counts.count_icache_hit();
            return 0;
        }
        if self.icache.is_absent() {
            return 0;
        }
        self.fetch_elsewhere(addr)
    }

    /// The same, of another line than the last, which may be the one used last in its set. It stays
    /// a call: few fetches come to it.
    #[inline(never)]
    #[tactic(auto, unfolding(crate::specs::Caches::fetched))]
    fn fetch_elsewhere(&mut self, addr: u32) -> u32
        requires some_way { self.old.icache.params.ways ≢ 0 }
        ensures cycles { (p : AllCaches) (s : CachesState) → CachesStandFor self.old p s →
            result ≡ (fetched p s addr).cycles }
        ensures state { (p : AllCaches) (s : CachesState) → CachesStandFor self.old p s →
            CachesStandFor self.new p (fetched p s addr).state }
    {
        if self.icache.is_latest(addr) {
            self.fetched = self.icache.line_around(addr);
            self.counts.count_icache_hit();
            return 0;
        }
        self.fetch_by_search(addr)
    }

    /// The same, with the search through a set.
    #[inline(never)]
    #[tactic(auto, unfolding(crate::specs::Caches::fetched))]
    fn fetch_by_search(&mut self, addr: u32) -> u32
        requires some_way { self.old.icache.params.ways ≢ 0 }
        ensures cycles { (p : AllCaches) (s : CachesState) → CachesStandFor self.old p s →
            result ≡ (fetched p s addr).cycles }
        ensures state { (p : AllCaches) (s : CachesState) → CachesStandFor self.old p s →
            CachesStandFor self.new p (fetched p s addr).state }
    {
        let touch = self.touch_icache(addr);
        self.follow(self.params.icache.miss, addr, touch)
    }

    /// A load from RAM. The result is the cycles that it adds. It goes inline, as a fetch does.
    #[inline(always)]
    #[tactic(auto, unfolding(crate::specs::Caches::loaded))]
    pub fn load(&mut self, addr: u32) -> u32
        ensures cycles { (p : AllCaches) (s : CachesState) → CachesStandFor self.old p s →
            result ≡ (loaded p s addr).cycles }
        ensures state { (p : AllCaches) (s : CachesState) → CachesStandFor self.old p s →
            CachesStandFor self.new p (loaded p s addr).state }
    {
        if self.dcache.is_latest(addr) {
            self.counts.count_dcache_hit();
            return 0;
        }
        if self.dcache.is_absent() {
            return 0;
        }
        self.load_by_search(addr)
    }

    /// The same, with the search through a set.
    #[inline(never)]
    #[tactic(auto, unfolding(crate::specs::Caches::loaded))]
    fn load_by_search(&mut self, addr: u32) -> u32
        ensures cycles { (p : AllCaches) (s : CachesState) → CachesStandFor self.old p s →
            result ≡ (loaded p s addr).cycles }
        ensures state { (p : AllCaches) (s : CachesState) → CachesStandFor self.old p s →
            CachesStandFor self.new p (loaded p s addr).state }
    {
        let touch = self.touch_dcache(addr, false);
        self.follow(self.params.dcache.miss, addr, touch)
    }

    /// A store to RAM, which adds no cycles. Without the data cache nothing is done.
    #[tactic(auto, unfolding(crate::specs::Caches::stored))]
    pub fn store(&mut self, addr: u32)
        ensures state { (p : AllCaches) (s : CachesState) → CachesStandFor self.old p s →
            CachesStandFor self.new p (stored p s addr) }
    {
        if self.dcache.is_absent() {
            return;
        }
        let touch = self.touch_dcache(addr, true);
        self.follow(self.params.dcache.miss, addr, touch);
    }
}
