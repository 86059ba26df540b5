ghost use Rattle.std.specs.Prelude.{◌≡◌, true, false, IfOk, IfSome, IfNone};

use crate::fetched::Fetched;
use fsim_base::NoMemory;
use mono_model::Setup;
use std::alloc::Global;
use timing_core::{Orders, TimingCore};
use trace_entry::Entry;

/// A pipeline that makes the turns of a demand run, one by one. A timing side is of one: it tells
/// the turns' orders and keeps the entries that its tries need.
pub trait Pipeline: Drop {
    ghost use Rattle.mono_model.specs.Demand.{is_try};
    ghost use Rattle.mono_model.specs.Split.{is_halted, is_cycle_start};
    ghost use Rattle.time_model.specs.Turns.{is_ending};
    ghost use Rattle.time_model.specs.Piped.{Piped, IsPiped, IsTurned, MayTry, IsFetched, IsGone};
    ghost use Rattle.time_model.specs.Piped.{IsStridden, IsInnerStride, IsQuiet};

    /// Which turn comes next.
    type At: Copy;

    ghost piped: { Piped Self Self.At };

    /// The pipeline before the first cycle of a run. All memory is taken here.
    fn new(alloc: Global, setup: &Setup) -> Result<Self, NoMemory>
        requires sound { piped.allows setup.now }
        ensures stands { IfOk result (λ pipeline. piped.stands setup.now 0 pipeline piped.first) };

    /// The first turn of a run.
    fn first() -> Self::At
        ensures first { result ≡ piped.first };

    /// The parts that each pipeline has.
    fn core(&self) -> &TimingCore
        ensures core { result.now ≡ piped.core self.now };

    /// Whether the turn is a try of fetch.
    fn is_try(at: Self::At) -> bool
        ensures tries { result ≡ is_try (piped.seen at) };

    /// Whether the run is over.
    fn is_halted(at: Self::At) -> bool
        ensures halted { result ≡ is_halted (piped.seen at) };

    /// Whether the turn starts a cycle, or the run has ended.
    fn is_cycle_start(at: Self::At) -> bool
        ensures start { result ≡ is_cycle_start (piped.seen at) };

    /// Whether the turn ends a cycle.
    fn ends_cycle(at: Self::At) -> bool
        ensures ends { result ≡ is_ending (piped.seen at) };

    /// Makes the turn that comes next, which is no try of fetch.
    fn turn(&mut self, next: &mut Self::At) -> Orders
        requires plain { is_try (piped.seen next.old) ≡ false }
        ensures made { IsTurned piped self.old next.old self.new next.new result };

    /// Tries to fetch the instruction of this entry. The result is None if it was appended without
    /// an order and another try comes next.
    fn fetch(&mut self, next: &mut Self::At, entry: &Entry) -> Option<Fetched>
        requires tries { MayTry piped self.old next.old entry.now }
        ensures fetched { IfSome result
            (IsFetched piped entry.now self.old next.old self.new next.new) }
        ensures gone { IfNone result
            (IsGone piped entry.now self.old next.old self.new next.new) };

    /// Makes the end of a cycle and the phases after it, as far as they come next, up to the first
    /// that makes an order. Which turns they are is known where they stand.
    fn stride(&mut self, next: &mut Self::At) -> Orders
        ensures strode { IsStridden piped self.old next.old self.new next.new result };

    /// Makes the phases that come next, as far as they stand in their order, up to the first that
    /// makes an order: none ends a cycle.
    fn phases(&mut self, next: &mut Self::At) -> Orders
        ensures strode { IsInnerStride piped self.old next.old self.new next.new result };

    /// Passes over cycles after this one in which nothing happens. Which it passes no clause says.
    fn pass_idle(&mut self, at: Self::At)
        requires ends { is_ending (piped.seen at) ≡ true }
        ensures quiet { IsQuiet piped self.old at self.new at };

    ghost laws: { IsPiped piped };
}
