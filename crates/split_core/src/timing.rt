ghost use Rattle.std.specs.Prelude.{◌≡◌, ◌↔◌, ◌&&◌, ℕ, true, Some, None, IfOk, is_none};

use crate::bounds;
use fsim_base::NoMemory;
use mono_model::{End, Setup, Stats};
use std::alloc::Global;
use time_model::{Pipeline, Taken, TimingSide, Turn};
use timing_core::TimingCore;
use trace_entry::Entry;

/// A timing side, as the split machine takes it: it makes the steps of a demand run, tells their
/// orders, and is handed the entries that they need.
pub trait Timing: Drop {
    ghost use Rattle.mono_model.specs.declared.setup.Setup.{Setup as RunSetup};
    ghost use Rattle.mono_model.specs.Machine.{stats_of};
    ghost use Rattle.mono_model.specs.Demand.{needs_entry, needed_entry};
    ghost use Rattle.mono_model.specs.Split.{is_place_boundary};
    ghost use Rattle.time_model.specs.Running.{IsRun};
    ghost use Rattle.split_core.specs.Timed.{Timed, IsTimed, StepsOn, IsRightOn, IsFedOn};
    ghost use Rattle.split_core.specs.Timed.{IsRunInCycleOn};

    ghost timed: { Timed Self };

    /// The timing side before the first step of a run. It takes all its memory here, and want of it
    /// is the one refusal.
    fn new(alloc: Global, setup: &Setup) -> Result<Self, NoMemory>
        requires sound { timed.allows setup.now }
        ensures stands { IfOk result (λ side. timed.stands setup.now 0 side) }
        ensures empty { IfOk result (λ side. timed.held side ≡ None) };

    /// A boundary is never further than so many rounds.
    fn most_rounds(setup: &Setup) -> u32
        requires sound { timed.allows setup.now }
        ensures rounds { result ≡ timed.rounds setup.now };

    /// No run has more steps.
    fn most_steps(setup: &Setup) -> u64
        requires sound { timed.allows setup.now }
        ensures steps { result ≡ (timed.run setup.now).bound };

    /// Makes one step, and tells the one order of it, if it has one. It does nothing where the step
    /// needs an entry that isn't held, and where the run is over.
    fn step(&mut self) -> Turn
        ensures made { StepsOn timed self.old self.new result };

    /// Makes steps up to one that tells an order, needs an entry that isn't held or finds the run
    /// over; or fewer. The result is what the last one did.
    fn run(&mut self) -> Turn
        ensures made { IsRun (StepsOn timed) self.old self.new result }
        ensures waiting { result ≡ Turn.Want → timed.wants self.new ≡ true };

    /// The same, but none after the end of a cycle.
    fn run_in_cycle(&mut self) -> Turn
        ensures made { IsRunInCycleOn timed self.old self.new result }
        ensures waiting { result ≡ Turn.Want → timed.wants self.new ≡ true };

    /// Whether the next step needs the entry of the instruction to fetch next, and none is held.
    fn wants(&self) -> bool
        ensures wants { result ≡ timed.wants self.now }
        ensures needs { (s : RunSetup) (k : ℕ) → timed.stands s k self.now
            → result ≡ (needs_entry ((timed.run s).places k) && is_none (timed.held self.now)) };

    /// Takes the entry that arrives next, where one is needed. An entry of the side's epoch is held
    /// for the next try; any other is dropped.
    fn take(&mut self, entry: &Entry) -> Taken
        requires wants { timed.wants self.old ≡ true }
        requires right { IsRightOn timed entry.now self.old }
        ensures stands { (s : RunSetup) (k : ℕ) → timed.stands s k self.old
            → (entry.now.epoch ≡ timed.epoch self.old
            → entry.now ≡ needed_entry s ((timed.run s).places k))
            → timed.stands s k self.new }
        ensures used { result ≡ Taken.Used → timed.held self.new ≡ Some entry.now }
        ensures dropped { result ≡ Taken.Dropped → self.new ≡ self.old }
        ensures by_epoch { (result ≡ Taken.Used) ↔ (entry.now.epoch ≡ timed.epoch self.old) };

    /// Takes an entry of the side's epoch, where one is needed, and makes the steps behind it: a
    /// [`Timing::take`] and a [`Timing::run`]. The result is what the last step did.
    fn feed_own(&mut self, entry: &Entry) -> Turn
        requires wants { timed.wants self.old ≡ true }
        requires right { IsRightOn timed entry.now self.old }
        requires own { entry.now.epoch ≡ timed.epoch self.old }
        ensures fed { IsFedOn timed entry.now self.old self.new result }
        ensures waiting { result ≡ Turn.Want → timed.wants self.new ≡ true };

    /// How the run stands or ended.
    fn end(&self) -> End
        ensures end { (s : RunSetup) (k : ℕ) → timed.stands s k self.now
            → result ≡ ((timed.run s).places k).run.demand.machine.end };

    /// What was counted so far.
    fn stats(&self) -> Stats
        ensures stats { (s : RunSetup) (k : ℕ) → timed.stands s k self.now
            → result ≡ stats_of s ((timed.run s).places k).run.demand.machine };

    /// Whether all orders are told where a cycle starts or the run has ended.
    fn at_boundary(&self) -> bool
        ensures boundary { (s : RunSetup) (k : ℕ) → timed.stands s k self.now
            → result ≡ is_place_boundary ((timed.run s).places k) };

    ghost laws: { IsTimed timed };
}

/// A pipeline whose demand run the split machine can follow.
pub trait Bounded: Pipeline {
    ghost use Rattle.mono_model.specs.declared.setup.Setup.{Setup as RunSetup};
    ghost use Rattle.split_core.specs.Timed.{IsSplit};

    ghost rounds: { RunSetup → ℕ };

    /// A boundary is never further than so many rounds.
    fn most_rounds(setup: &Setup) -> u32
        requires sound { Self.piped.allows setup.now }
        ensures rounds { result ≡ rounds setup.now };

    /// No run has more steps of the timing side.
    fn most_steps(setup: &Setup) -> u64
        requires sound { Self.piped.allows setup.now }
        ensures steps { result ≡ (Self.piped.run setup.now).bound };

    ghost splits: { IsSplit Self.piped.allows Self.piped.run rounds };
}

impl Bounded for TimingCore {
    ghost use Rattle.mono_model.specs.Split.{boundary_rounds};
    ghost use Rattle.split_core.specs.TimeSideLaws.{mono_splits};

    ghost rounds = { boundary_rounds };

    ghost splits = { mono_splits };

    fn most_rounds(setup: &Setup) -> u32 {
        bounds::most_rounds(setup)
    }

    fn most_steps(setup: &Setup) -> u64 {
        bounds::most_steps(setup)
    }
}

impl<P: Bounded> Timing for TimingSide<P> {
    ghost use Rattle.split_core.specs.Timed.{timed_of};
    ghost use Rattle.split_core.specs.TimedLaws.{timed_laws};

    ghost timed = { timed_of P.piped P.rounds };

    ghost laws = { timed_laws P.piped P.laws P.rounds P.splits };

    fn new(alloc: Global, setup: &Setup) -> Result<TimingSide<P>, NoMemory> {
        TimingSide::new(alloc, setup)
    }

    fn most_rounds(setup: &Setup) -> u32 {
        P::most_rounds(setup)
    }

    fn most_steps(setup: &Setup) -> u64 {
        P::most_steps(setup)
    }

    fn step(&mut self) -> Turn {
        TimingSide::step(self)
    }

    #[inline(always)]
    fn run(&mut self) -> Turn {
        TimingSide::run(self)
    }

    #[inline(always)]
    fn run_in_cycle(&mut self) -> Turn {
        TimingSide::run_in_cycle(self)
    }

    fn wants(&self) -> bool {
        TimingSide::wants(self)
    }

    fn take(&mut self, entry: &Entry) -> Taken {
        TimingSide::take(self, entry)
    }

    #[inline(always)]
    fn feed_own(&mut self, entry: &Entry) -> Turn {
        TimingSide::feed_own(self, entry)
    }

    fn end(&self) -> End {
        TimingSide::end(self)
    }

    fn stats(&self) -> Stats {
        TimingSide::stats(self)
    }

    fn at_boundary(&self) -> bool {
        TimingSide::at_boundary(self)
    }
}
