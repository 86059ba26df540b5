ghost use Rattle.std.specs.Prelude.{◌≡◌, ℕ};
ghost use Rattle.mono_model.specs.Ranges.{is_between, is_power_between, is_ram, is_unit, is_cache};

use branch_predictor::PredKind;
use fsim_base::RamRange;

fn is_between(low: u32, high: u32, number: u32) -> bool
    ensures between { result ≡ is_between low high number }
{
    low <= number && number <= high
}

fn is_power_between(low: u32, high: u32, number: u32) -> bool
    ensures power { result ≡ is_power_between low high number }
{
    is_between(low, high, number) && number.is_power_of_two()
}

fn is_ram(base: u32, size: u32) -> bool
    ensures ram { result ≡ is_ram base size }
{
    is_between(0x2000_0000, 0xffff_f000, base)
        && base % 4096 == 0
        && is_between(4096, 67_108_864, size)
        && size % 4096 == 0
        && u64::from(base) + u64::from(size) <= 1 << 32
}

fn is_unit(count: u32, latency: u32) -> bool
    ensures unit { result ≡ is_unit count latency }
{
    is_between(1, 8, count) && is_between(1, 64, latency)
}

fn is_cache(most_sets: u32, line: u32, sets: u32, ways: u32, miss: u32) -> bool
    ensures cache { result ≡ is_cache most_sets line sets ways miss }
{
    is_power_between(4, 256, line)
        && is_power_between(1, most_sets, sets)
        && ways <= 16
        && miss <= 1000
}

/// The parameters of the machine: one field for each key of a machine file, the dot written as an
/// underscore.
///
/// `docs/MACHINE-FILE.md` has the meaning, range and default of each.
#[derive(Clone, Copy, Debug, PartialEq, Eq)]
pub struct Params {
    /// The version of the machine file, 1 or 2. Version 1 has no second level of caches and writes
    /// nothing back.
    pub version: u32,
    /// The first address of RAM.
    pub ram_base: u32,
    /// How many bytes RAM has.
    pub ram_size: u32,
    /// How many instructions are fetched in a cycle, at most.
    pub core_fetch: u32,
    /// How many instructions are committed in a cycle, at most.
    pub core_commit: u32,
    /// Cycles from fetch to the first issue.
    pub core_front: u32,
    /// How many records the window has room for.
    pub core_window: u32,
    /// Reservation stations: how many records may wait.
    pub core_stations: u32,
    /// Units for the classes Alu and Serial.
    pub alu_count: u32,
    /// Their cycles from issue to done.
    pub alu_latency: u32,
    /// Units for multiplications.
    pub mul_count: u32,
    /// Their cycles from issue to done.
    pub mul_latency: u32,
    /// Units for divisions.
    pub div_count: u32,
    /// Their cycles from issue to done.
    pub div_latency: u32,
    /// Units for loads and stores.
    pub mem_count: u32,
    /// Their cycles from issue to done.
    pub mem_latency: u32,
    /// How the direction of a conditional branch is predicted.
    pub predictor_kind: PredKind,
    /// How many two-bit counters there are.
    pub predictor_counters: u32,
    /// How many committed branch outcomes `gshare` looks back at.
    pub predictor_history: u32,
    /// How many places the target buffer has.
    pub predictor_targets: u32,
    /// Bytes in a line of the instruction cache.
    pub icache_line: u32,
    /// Its sets.
    pub icache_sets: u32,
    /// Lines in a set; with 0 there is no such cache.
    pub icache_ways: u32,
    /// Cycles that its miss adds where there is no second level.
    pub icache_miss: u32,
    /// Bytes in a line of the data cache.
    pub dcache_line: u32,
    /// Its sets.
    pub dcache_sets: u32,
    /// Lines in a set; with 0 there is no such cache.
    pub dcache_ways: u32,
    /// Cycles that its miss adds where there is no second level.
    pub dcache_miss: u32,
    /// The policy of the data cache: write back, or else write through, as under version 1.
    pub dcache_back: bool,
    /// Bytes in a line of the second level.
    pub l2_line: u32,
    /// Its sets.
    pub l2_sets: u32,
    /// The ways of the second level of caches; 0 where there is none, as under version 1.
    pub l2_ways: u32,
    /// Cycles that a miss of the first level adds where the second level hits.
    pub l2_hit: u32,
    /// Cycles that it adds where the second level misses too.
    pub l2_miss: u32,
}

impl Params {
    ghost use Rattle.std.specs.Prelude.{true};
    ghost use Rattle.mono_model.specs.Plain.{plain_params};
    ghost use Rattle.mono_model.specs.Setup.{are_core, are_units, is_predictor, are_caches};
    ghost use Rattle.mono_model.specs.Setup.{is_version, are_params, ram_range};

    /// The plain machine: that of a machine file with no keys, and of a run without one.
    pub fn plain() -> Params
        ensures plain { result ≡ plain_params }
        ensures in_range { are_params result ≡ true }
    {
        Params {
            version: 1,
            ram_base: 0x8000_0000,
            ram_size: 0x0100_0000,
            core_fetch: 1,
            core_commit: 1,
            core_front: 1,
            core_window: 1,
            core_stations: 256,
            alu_count: 1,
            alu_latency: 1,
            mul_count: 1,
            mul_latency: 1,
            div_count: 1,
            div_latency: 1,
            mem_count: 1,
            mem_latency: 1,
            predictor_kind: PredKind::Static,
            predictor_counters: 1024,
            predictor_history: 8,
            predictor_targets: 0,
            icache_line: 64,
            icache_sets: 64,
            icache_ways: 0,
            icache_miss: 20,
            dcache_line: 64,
            dcache_sets: 64,
            dcache_ways: 0,
            dcache_miss: 20,
            dcache_back: false,
            l2_line: 64,
            l2_sets: 512,
            l2_ways: 0,
            l2_hit: 10,
            l2_miss: 100,
        }
    }

    /// The addresses of RAM.
    pub fn ram_range(&self) -> RamRange
        ensures range { result ≡ ram_range self.now }
    {
        RamRange {
            base: self.ram_base,
            size: self.ram_size,
        }
    }

    /// Whether each parameter is in the range of its key in a machine file.
    #[tactic(auto, unfolding(crate::specs::Setup::are_params))]
    pub fn in_range(&self) -> bool
        ensures in_range { result ≡ are_params self.now }
    {
        self.is_version_in_range()
            && is_ram(self.ram_base, self.ram_size)
            && self.is_core_in_range()
            && self.are_units_in_range()
            && self.is_predictor_in_range()
            && self.are_caches_in_range()
    }

    fn is_version_in_range(&self) -> bool
        ensures version { result ≡ is_version self.now }
    {
        match self.version {
            1 => self.l2_ways == 0 && !self.dcache_back,
            version => version == 2,
        }
    }

    fn is_core_in_range(&self) -> bool
        ensures core { result ≡ are_core self.now }
    {
        is_between(1, 8, self.core_fetch)
            && is_between(1, 8, self.core_commit)
            && is_between(1, 32, self.core_front)
            && is_between(1, 256, self.core_window)
            && is_between(1, 256, self.core_stations)
    }

    fn are_units_in_range(&self) -> bool
        ensures units { result ≡ are_units self.now }
    {
        is_unit(self.alu_count, self.alu_latency)
            && is_unit(self.mul_count, self.mul_latency)
            && is_unit(self.div_count, self.div_latency)
            && is_unit(self.mem_count, self.mem_latency)
    }

    fn is_predictor_in_range(&self) -> bool
        ensures predictor { result ≡ is_predictor self.now }
    {
        is_power_between(1, 65_536, self.predictor_counters)
            && self.predictor_history <= 16
            && (self.predictor_targets == 0 || is_power_between(1, 65_536, self.predictor_targets))
    }

    fn are_caches_in_range(&self) -> bool
        ensures caches { result ≡ are_caches self.now }
    {
        is_cache(
            4096,
            self.icache_line,
            self.icache_sets,
            self.icache_ways,
            self.icache_miss,
        ) && is_cache(
            4096,
            self.dcache_line,
            self.dcache_sets,
            self.dcache_ways,
            self.dcache_miss,
        ) && is_cache(
            65_536,
            self.l2_line,
            self.l2_sets,
            self.l2_ways,
            self.l2_miss,
        ) && self.l2_hit <= 1000
    }
}
