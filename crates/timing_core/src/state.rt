ghost use Rattle.std.specs.Prelude.{◌≡◌};

use crate::counts::Counts;
use crate::sizes::{caches_params, predictor_params};
use branch_predictor::Predictor;
use cache_timing::Caches;
use fsim_base::NoMemory;
use in_flight::InFlight;
use mono_model::{End, Params, Setup, Stats};
use std::alloc::Global;
use timer_irq::IrqView;

/// The state of the timing side: what it knows of the instructions in flight, the predictor, the
/// caches and the counts (Chiou et al., FPGA-Accelerated Simulation Technologies, MICRO 2007, the
/// timing model).
#[derive(Debug, Drop)]
pub struct TimingCore {
    pub(crate) params: Params,
    /// The run ends after so many cycles.
    pub(crate) cycle_limit: u64,
    /// How many bytes of output have room.
    pub(crate) output_limit: u32,
    pub(crate) flight: InFlight,
    pub(crate) predictor: Predictor,
    pub(crate) caches: Caches,
    pub(crate) cycle: u64,
    /// The number of the next instruction to commit.
    pub(crate) to_commit: u64,
    /// The cycle from which on fetch goes on after a miss.
    pub(crate) resume: u64,
    /// The miss of the instruction to fetch next was counted: at `resume` it is fetched without a
    /// further access.
    pub(crate) paid: bool,
    pub(crate) counts: Counts,
    /// How many instructions retired.
    pub(crate) retired: u64,
    /// How many bytes were sent.
    pub(crate) output: u64,
    /// The timer interrupt as the next instruction to commit meets it.
    pub(crate) irq: IrqView,
    pub(crate) end: End,
}

impl TimingCore {
    ghost use Rattle.std.specs.Prelude.{ℕ, ◌+◌, ◌<◌, ◌^◌, true, take, length, IfOk};
    ghost use Rattle.mono_model.specs.declared.setup.Setup.{Setup as RunSetup};
    ghost use Rattle.mono_model.specs.Setup.{is_setup};
    ghost use Rattle.mono_model.specs.Final.{has_ended};
    ghost use Rattle.timing_side.specs.Timing.{Timing, timing_start, cut_to, timing_stats};
    ghost use Rattle.timing_core.specs.CoreStandsFor.{CoreStandsFor};

    /// The timing side before the first cycle of a run of this setup. It takes its memory here and
    /// none later.
    pub fn new(alloc: Global, setup: &Setup) -> Result<TimingCore, NoMemory>
        requires sound { is_setup setup.now ≡ true }
        ensures opening { IfOk result (λ core. CoreStandsFor setup.now timing_start core) }
    {
        let params = setup.params;
        Ok(TimingCore {
            params,
            cycle_limit: setup.cycles,
            output_limit: setup.output,
            flight: InFlight::new(alloc, params.core_window)?,
            predictor: Predictor::new(alloc, predictor_params(&params))?,
            caches: Caches::new(alloc, &caches_params(&params))?,
            cycle: 0,
            to_commit: 0,
            resume: 0,
            paid: false,
            counts: Counts::new(),
            retired: 0,
            output: 0,
            irq: IrqView {
                on: false,
                cmp: u64::MAX,
            },
            end: End::Running,
        })
    }

    /// The number of the cycle, counted from 0.
    pub fn cycle(&self) -> u64
        ensures cycle { (s : RunSetup) (t : Timing) → CoreStandsFor s t self.now
            → result ≡ t.cycle }
        ensures value { result ≡ self.now.cycle }
    {
        self.cycle
    }

    /// The number of the next instruction to commit.
    pub fn to_commit(&self) -> u64
        ensures number { (s : RunSetup) (t : Timing) → CoreStandsFor s t self.now
            → result ≡ t.to_commit }
    {
        self.to_commit
    }

    /// The number of the next instruction to fetch.
    pub fn next_number(&self) -> u64
        requires small { self.now.to_commit < 2 ^ 63 }
        ensures next { (s : RunSetup) (t : Timing) → CoreStandsFor s t self.now
            → result ≡ t.to_commit + length t.slots }
    {
        self.to_commit + u64::from(self.flight.len())
    }

    /// The instructions in flight.
    pub fn flight(&self) -> &InFlight
        ensures flight { result.now ≡ self.now.flight }
    {
        &self.flight
    }

    /// The machine's parameters.
    pub fn params(&self) -> &Params
        ensures params { result.now ≡ self.now.params }
    {
        &self.params
    }

    /// How the run stands or ended.
    pub fn end(&self) -> End
        ensures end { (s : RunSetup) (t : Timing) → CoreStandsFor s t self.now → result ≡ t.end }
        ensures value { result ≡ self.now.end }
    {
        self.end
    }

    /// Whether the run has ended.
    pub fn has_ended(&self) -> bool
        ensures ended { (s : RunSetup) (t : Timing) → CoreStandsFor s t self.now
            → result ≡ has_ended t.end }
    {
        self.end != End::Running
    }

    /// How many instructions may be fetched in a cycle.
    pub fn fetch_width(&self) -> u32
        ensures width { (s : RunSetup) (t : Timing) → CoreStandsFor s t self.now
            → result ≡ s.params.core_fetch }
    {
        self.params.core_fetch
    }

    /// The counts of the run so far.
    pub fn stats(&self) -> Stats
        ensures stats { (s : RunSetup) (t : Timing) → CoreStandsFor s t self.now
            → result ≡ timing_stats s t }
    {
        let caches = self.caches.counts();
        Stats {
            version: self.params.version,
            cycles: self.cycle,
            instructions: self.retired,
            exceptions: self.counts.exceptions,
            interrupts: self.counts.interrupts,
            replays: self.counts.replays,
            fetched: self.counts.fetched,
            squashed: self.counts.squashed,
            branches: self.counts.branches,
            mispredicted: self.counts.mispredicted,
            icache_accesses: caches.icache_accesses,
            icache_misses: caches.icache_misses,
            dcache_accesses: caches.dcache_accesses,
            dcache_misses: caches.dcache_misses,
            l2_accesses: caches.l2_accesses,
            l2_misses: caches.l2_misses,
            writebacks: caches.writebacks,
            output: self.output,
        }
    }

    /// A flush: the slots from this place on are removed, and fetch waits for nothing.
    pub(crate) fn flush(&mut self, place: u32)
        ensures kept { (s : RunSetup) (t : Timing) → CoreStandsFor s t self.old
            → t.counts.squashed < 2 ^ 63 + 2 ^ 32 →
            CoreStandsFor s (cut_to (take place t.slots) t) self.new }
    {
        let squashed = self.flight.cut_to(place);
        self.counts.squashed = self.counts.squashed.wrapping_add(u64::from(squashed));
        self.resume = 0;
        self.paid = false;
    }
}
