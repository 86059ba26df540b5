ghost use Rattle.std.specs.Prelude.{◌≡◌, true, false, map, IfOk};

use crate::event::Event;
use crate::state::SplitState;
use device_bus::Device;
use fsim_base::NoMemory;
use mono_model::{Final, Setup};
use std::alloc::Global;
use std::marker::Model;
use time_model::TimeSide;

/// The split machine on one thread: a functional and a timing side, and the entries and orders
/// under way between them.
///
/// It stands for a state of the split run of its setup. In whatever order its events come, at each
/// boundary that state has the cycle, the counts and the committed state of the monolithic machine.
/// What it has committed stays. Once [`SplitCore::committed`] was called, nothing may be played any
/// more: it stands for no state of the run then, and only its output is still of use.
#[derive(Drop)]
pub struct SplitCore<D: Device> {
    pub(crate) state: SplitState<D, TimeSide>,
}

impl<D: Device> Model for SplitCore<D> {
    ghost use Rattle.std.specs.Prelude.{◌≡◌, false};
    ghost use Rattle.split_core.specs.declared.state.SplitState.{SplitState};
    ghost use Rattle.time_model.specs.OutOfOrder.{TimeState};
    ghost use Rattle.split_core.specs.TimeSide.{mono_timed};
    ghost use Rattle.split_core.specs.Standing.{IsStandingOn};

    ghost Value = { SplitState D TimeState };

    ghost view = { λ core. core.state };

    ghost invariant = { λ core. core.state.is_reported ≡ false
        → IsStandingOn mono_timed core.state };
}

impl<D: Device> SplitCore<D> {
    ghost use Rattle.mono_model.specs.declared.setup.Setup.{Setup as RunSetup};
    ghost use Rattle.device_bus.specs.Bus.{device_order};
    ghost use Rattle.mono_model.specs.Setup.{is_setup};
    ghost use Rattle.mono_model.specs.Split.{Split, split_start, played, to_boundary};
    ghost use Rattle.func_model.specs.Contents.{output_in};
    ghost use Rattle.split_core.specs.Events.{event_in};
    ghost use Rattle.split_core.specs.Standing.{SplitStandsFor, Leads, LeadsToEnd, TellsBoundary};
    ghost use Rattle.split_core.specs.Standing.{IsAtBoundary, Reports, GoesBack, Keeps, KeepsToEnd};
    ghost use Rattle.split_core.specs.Standing.{PlaysOn, TellsCommitted};

    /// The core at the start of a run: nothing was computed, and nothing is under way. All memory
    /// of the run is taken here; a refusal drops what it was given.
    pub fn new(alloc: Global, setup: &Setup, devices: Vec<D>) -> Result<SplitCore<D>, NoMemory>
        requires sound { is_setup setup.now ≡ true }
        requires order { map D.kind devices.items ≡ device_order }
        ensures stands { IfOk result (λ core. SplitStandsFor setup.now
            (split_start setup.now) core) }
    {
        let state = SplitState::new(alloc, setup, devices)?;
        Ok(SplitCore { state })
    }

    /// Plays events, the first in front. One that can't happen changes nothing.
    pub fn play(&mut self, events: &[Event])
        requires going { self.old.is_reported ≡ false }
        ensures played { Leads (λ s. played s (map event_in events.now)) self.old self.new }
        ensures kept { Keeps (λ s. played s (map event_in events.now)) self.old self.new }
        ensures going { self.new.is_reported ≡ false }
    {
        self.state.play(events);
    }

    /// Whether it is at a boundary: the start of a cycle, or the end of the run, with no order in
    /// hand or under way. If so, [`SplitCore::committed`] may be called, unless it was.
    pub fn at_boundary(&self) -> bool
        ensures boundary { TellsBoundary self.now result }
        ensures here { result ≡ true → self.now.is_reported ≡ false → IsAtBoundary self.now }
    {
        self.state.at_boundary()
    }

    /// Plays rounds of events until it is at a boundary; none where it is at one. A round leaves
    /// out the step of the timing side where that stands at a boundary already.
    pub fn to_boundary(&mut self)
        requires going { self.old.is_reported ≡ false }
        ensures stands { Leads to_boundary self.old self.new }
        ensures kept { Keeps to_boundary self.old self.new }
        ensures boundary { IsAtBoundary self.new }
    {
        self.state.to_boundary();
    }

    /// Plays so many turns on the way to the end, as [`SplitCore::to_end`] plays them all, or fewer
    /// where the run is over before. A turn is at least one step of the timing side.
    pub fn go_on(&mut self, turns: u64)
        requires going { self.old.is_reported ≡ false }
        ensures played { PlaysOn self.old self.new }
        ensures going { self.new.is_reported ≡ false }
    {
        self.state.play_on_demand(turns);
    }

    /// Whether the functional side was stopped, by the last order of the run.
    pub fn is_over(&self) -> bool
        ensures over { result ≡ self.now.func.is_stopped }
    {
        self.state.func.stopped()
    }

    /// What is committed of the output: the first bytes of the run's output, none of which is ever
    /// taken back.
    pub fn committed_output(&self) -> &[u8]
        ensures committed { TellsCommitted self.now result.now }
    {
        self.state.committed_output()
    }

    /// Plays events until the run is over: the timing side has told its last order, and the
    /// functional side has obeyed it. Entries are computed on demand; whatever state that leaves,
    /// the rounds behind it come to the end.
    pub fn to_end(&mut self)
        requires going { self.old.is_reported ≡ false }
        ensures ended { LeadsToEnd self.old self.new }
        ensures kept { KeepsToEnd self.old self.new }
        ensures boundary { IsAtBoundary self.new }
    {
        let turns = self.state.steps;
        self.state.play_on_demand(turns);
        self.state.to_end();
    }

    /// What is reported at a boundary: the end, the counts, and the committed registers. The
    /// functional side goes back to what is committed for it and stays there; its output can still
    /// be read, and nothing can be played any more.
    pub fn committed(&mut self) -> Final
        requires boundary { IsAtBoundary self.old }
        ensures reported { Reports self.old result }
        ensures contents { GoesBack self.old self.new }
        ensures over { self.new.is_reported ≡ true }
    {
        self.state.committed()
    }

    /// The output of the functional side: where [`SplitCore::committed`] was called, that of the
    /// run so far; before, it may have bytes that run ahead.
    pub fn output(&self) -> &[u8]
        ensures output { result.now ≡ output_in self.now.func.contents }
    {
        self.state.func.output()
    }

    /// The number of the cycle that the timing side is in, counted from 0.
    pub fn cycle(&self) -> u64
        ensures cycle { (s : RunSetup) (x : Split) → SplitStandsFor s x self.now
            → result ≡ x.place.run.demand.machine.cycle }
    {
        self.state.time.cycle()
    }
}
