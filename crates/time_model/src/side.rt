ghost use Rattle.std.specs.Prelude.{◌≡◌, ◌↔◌, ◌&&◌, ℕ, true, Some, None, IfOk, is_none};

use crate::at::At;
use crate::pipeline::Pipeline;
use crate::state::{STRIDES, TimingState};
use crate::turn::Turn;
use fsim_base::NoMemory;
use mono_model::{End, Setup, Stats};
use std::alloc::Global;
use std::marker::Model;
use timing_core::TimingCore;
use trace_entry::Entry;

/// What became of an entry that was handed over.
#[derive(Clone, Copy, Debug, PartialEq, Eq)]
pub enum Taken {
    /// It is of the side's epoch: held for the next try, or tried at once where it is fed.
    Used,
    /// It is of another epoch, and of no use.
    Dropped,
}

/// The timing side. It stands for a setup and a number of steps of its demand run: it makes the
/// steps, tells their orders, and is handed the entries that they need (Chiou et al.,
/// FPGA-Accelerated Simulation Technologies, MICRO 2007, the timing model).
#[derive(Drop)]
pub struct TimingSide<P: Pipeline> {
    pub(crate) state: TimingState<P, P::At>,
}

/// The timing side of the monolithic machine.
pub type TimeSide = TimingSide<TimingCore>;

impl<P: Pipeline> Model for TimingSide<P> {
    ghost use Rattle.time_model.specs.declared.state.TimingState.{TimingState};
    ghost use Rattle.time_model.specs.Standing.{IsStanding};

    ghost Value = { TimingState P P.At };

    ghost view = { λ side. side.state };

    ghost invariant = { λ side. IsStanding P.piped side.state };
}

impl<P: Pipeline> TimingSide<P> {
    ghost use Rattle.mono_model.specs.declared.setup.Setup.{Setup as RunSetup};
    ghost use Rattle.mono_model.specs.Machine.{stats_of};
    ghost use Rattle.mono_model.specs.Demand.{next, needs_entry, needed_entry};
    ghost use Rattle.mono_model.specs.Split.{is_place_boundary};
    ghost use Rattle.time_model.specs.Running.{IsRun, Steps};
    ghost use Rattle.time_model.specs.Feeding.{IsFed, holding};
    ghost use Rattle.time_model.specs.Piped.{place_of};
    ghost use Rattle.time_model.specs.Standing.{SideStandsFor, IsStep, IsRight, wants_in};

    /// The timing side before the first step of a run. It takes all its memory here, and want of it
    /// is the one refusal.
    pub fn new(alloc: Global, setup: &Setup) -> Result<TimingSide<P>, NoMemory>
        requires sound { P.piped.allows setup.now }
        ensures stands { IfOk result (λ side. SideStandsFor P.piped setup.now 0 side) }
        ensures empty { IfOk result (λ side. side.telling.held ≡ None) }
    {
        let state = TimingState::new(alloc, setup)?;
        Ok(TimingSide { state })
    }

    /// Makes one step of the demand run, and tells the one order of it, if it has one. It does
    /// nothing where the step needs an entry that isn't held, and where the run is over.
    pub fn step(&mut self) -> Turn
        ensures made { (s : RunSetup) (k : ℕ) → P.piped.allows s → SideStandsFor P.piped s k self.old
            → IsStep P.piped s k self.old self.new result }
    {
        self.state.run(0)
    }

    /// Makes steps of the demand run, up to the first that tells an order, needs an entry that
    /// isn't held, or finds the run over; and at most 64 strides, behind each of them one step at
    /// most, or cycles in which nothing happens. The result is what the last step did.
    #[inline(always)]
    pub fn run(&mut self) -> Turn
        ensures made { IsRun (Steps P.piped) self.old self.new result }
        ensures waiting { result ≡ Turn.Want → wants_in P.piped self.new ≡ true }
    {
        self.state.run(STRIDES)
    }

    /// Whether the next step needs the entry of the instruction to fetch next, and none is held.
    pub fn wants(&self) -> bool
        ensures wants { result ≡ wants_in P.piped self.now }
        ensures needs { (s : RunSetup) (k : ℕ) → SideStandsFor P.piped s k self.now
            → result ≡ (needs_entry (place_of P.piped s k) && is_none self.now.telling.held) }
    {
        self.state.wants()
    }

    /// Takes the entry that arrives next, where one is needed. An entry of the side's epoch is held
    /// for the next try; any other is dropped.
    pub fn take(&mut self, entry: &Entry) -> Taken
        requires wants { wants_in P.piped self.old ≡ true }
        requires right { IsRight P.piped entry.now self.old }
        ensures stands { (s : RunSetup) (k : ℕ) → SideStandsFor P.piped s k self.old
            → (entry.now.epoch ≡ self.old.telling.epoch → entry.now ≡ needed_entry s (place_of P.piped s k))
            → SideStandsFor P.piped s k self.new }
        ensures used { result ≡ Taken.Used → self.new ≡ holding entry.now self.old }
        ensures dropped { result ≡ Taken.Dropped → self.new ≡ self.old }
        ensures by_epoch { (result ≡ Taken.Used) ↔ (entry.now.epoch ≡ self.old.telling.epoch) }
    {
        if entry.epoch != self.state.telling.epoch {
            return Taken::Dropped;
        }
        self.state.telling.held = Some(*entry);
        Taken::Used
    }

    /// Takes the entry that arrives next, where one is needed, and makes the try that needs it: a
    /// [`TimingSide::take`], and steps after it. The result is what the last step did: where the
    /// entry was dropped, [`Turn::Want`].
    #[inline(always)]
    pub fn feed(&mut self, entry: &Entry) -> Turn
        requires wants { wants_in P.piped self.old ≡ true }
        requires right { IsRight P.piped entry.now self.old }
        ensures fed { IsFed P.piped entry.now self.old self.new result }
        ensures waiting { result ≡ Turn.Want → wants_in P.piped self.new ≡ true }
    {
        if entry.epoch == self.state.telling.epoch {
            self.feed_own(entry)
        } else {
            Turn::Want
        }
    }

    /// The same of an entry of the side's epoch: no other comes where nothing is under way to the
    /// side.
    #[inline(always)]
    pub fn feed_own(&mut self, entry: &Entry) -> Turn
        requires wants { wants_in P.piped self.old ≡ true }
        requires right { IsRight P.piped entry.now self.old }
        requires own { entry.now.epoch ≡ self.old.telling.epoch }
        ensures fed { IsFed P.piped entry.now self.old self.new result }
        ensures waiting { result ≡ Turn.Want → wants_in P.piped self.new ≡ true }
    {
        self.state.feed(entry)
    }

    /// The number of the cycle, counted from 0.
    pub fn cycle(&self) -> u64
        ensures cycle { (s : RunSetup) (k : ℕ) → SideStandsFor P.piped s k self.now
            → result ≡ (place_of P.piped s k).run.demand.machine.cycle }
    {
        self.state.pipeline.core().cycle()
    }

    /// The number of the next instruction to commit, counted from 0 along the path.
    pub fn committed(&self) -> u64
        ensures committed { (s : RunSetup) (k : ℕ) → SideStandsFor P.piped s k self.now
            → result ≡ (place_of P.piped s k).run.demand.to_commit }
    {
        self.state.pipeline.core().to_commit()
    }

    /// The number of the next instruction to fetch, whose entry a try needs.
    pub fn next_number(&self) -> u64
        ensures number { (s : RunSetup) (k : ℕ) → SideStandsFor P.piped s k self.now
            → result ≡ next (place_of P.piped s k).run.demand }
    {
        self.state.pipeline.core().next_number()
    }

    /// How the run stands or ended.
    pub fn end(&self) -> End
        ensures end { (s : RunSetup) (k : ℕ) → SideStandsFor P.piped s k self.now
            → result ≡ (place_of P.piped s k).run.demand.machine.end }
    {
        self.state.pipeline.core().end()
    }

    /// What was counted so far.
    pub fn stats(&self) -> Stats
        ensures stats { (s : RunSetup) (k : ℕ) → SideStandsFor P.piped s k self.now
            → result ≡ stats_of s (place_of P.piped s k).run.demand.machine }
    {
        self.state.pipeline.core().stats()
    }

    /// Whether all orders are told where a cycle starts or the run has ended.
    pub fn at_boundary(&self) -> bool
        ensures boundary { (s : RunSetup) (k : ℕ) → SideStandsFor P.piped s k self.now
            → result ≡ is_place_boundary (place_of P.piped s k) }
    {
        self.state.at_boundary()
    }
}
