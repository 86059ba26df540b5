ghost use Rattle.std.specs.Prelude.{◌≡◌, true, false, map, IfOk};

use crate::in_order::InorderSide;
use device_bus::Device;
use fsim_base::NoMemory;
use mono_model::{Final, Setup};
use split_core::{Event, SplitState};
use std::alloc::Global;
use std::marker::Model;

/// The split machine on one thread, with the in-order machine's timing side: a functional and a
/// timing side, and the entries and orders under way between them.
///
/// It stands for a state of the in-order machine's split run of its setup. In whatever order its
/// events come, at each boundary that state has the cycle, the counts and the committed state of
/// the in-order machine. What it has committed stays. Once [`InorderCore::committed`] was called,
/// nothing may be played any more: it stands for no state of the run then, and only its output is
/// still of use.
#[derive(Drop)]
pub struct InorderCore<D: Device> {
    pub(crate) state: SplitState<D, InorderSide>,
}

impl<D: Device> Model for InorderCore<D> {
    ghost use Rattle.std.specs.Prelude.{◌≡◌, false};
    ghost use Rattle.split_core.specs.declared.state.SplitState.{SplitState};
    ghost use Rattle.split_core.specs.Standing.{IsStandingOn};
    ghost use Rattle.inorder_model.specs.Standing.{InorderState};
    ghost use Rattle.inorder_model.specs.InorderTimed.{inorder_timed};

    ghost Value = { SplitState D InorderState };

    ghost view = { λ core. core.state };

    ghost invariant = { λ core. core.state.is_reported ≡ false
        → IsStandingOn inorder_timed core.state };
}

impl<D: Device> InorderCore<D> {
    ghost use Rattle.device_bus.specs.Bus.{device_order};
    ghost use Rattle.func_model.specs.Contents.{output_in};
    ghost use Rattle.split_core.specs.Events.{event_in};
    ghost use Rattle.inorder_machine.specs.Split.{inorder_split_start, inorder_played};
    ghost use Rattle.inorder_laws.specs.Rounds.{inorder_to_boundary};
    ghost use Rattle.inorder_machine.specs.Setup.{IsInorder};
    ghost use Rattle.inorder_model.specs.Core.{InorderSplitStandsFor, InorderLeads};
    ghost use Rattle.inorder_model.specs.Core.{InorderLeadsToEnd};
    ghost use Rattle.inorder_model.specs.Core.{TellsInorderBoundary, IsAtInorderBoundary};
    ghost use Rattle.inorder_model.specs.Core.{InorderReports};
    ghost use Rattle.inorder_model.specs.Core.{InorderGoesBack, InorderKeeps, InorderKeepsToEnd};
    ghost use Rattle.inorder_model.specs.Core.{InorderPlaysOn, TellsInorderCommitted};

    /// The core at the start of a run: nothing was computed, and nothing is under way. All memory
    /// of the run is taken here; a refusal drops what it was given.
    pub fn new(alloc: Global, setup: &Setup, devices: Vec<D>) -> Result<InorderCore<D>, NoMemory>
        requires sound { IsInorder setup.now }
        requires order { map D.kind devices.items ≡ device_order }
        ensures stands { IfOk result (λ core. InorderSplitStandsFor setup.now
            (inorder_split_start setup.now) core) }
    {
        let state = SplitState::new(alloc, setup, devices)?;
        Ok(InorderCore { state })
    }

    /// Plays events, the first in front. One that can't happen changes nothing.
    pub fn play(&mut self, events: &[Event])
        requires going { self.old.is_reported ≡ false }
        ensures played { InorderLeads (λ s. inorder_played s (map event_in events.now)) self.old
            self.new }
        ensures kept { InorderKeeps (λ s. inorder_played s
            (map event_in events.now)) self.old self.new }
        ensures going { self.new.is_reported ≡ false }
    {
        self.state.play(events);
    }

    /// Whether it is at a boundary: the start of a cycle, or the end of the run, with no order in
    /// hand or under way. If so, [`InorderCore::committed`] may be called, unless it was.
    pub fn at_boundary(&self) -> bool
        ensures boundary { TellsInorderBoundary self.now result }
        ensures here { result ≡ true → self.now.is_reported ≡ false
            → IsAtInorderBoundary self.now }
    {
        self.state.at_boundary()
    }

    /// Plays rounds of events until it is at a boundary; none where it is at one. A round leaves
    /// out the step of the timing side where that stands at a boundary already.
    pub fn to_boundary(&mut self)
        requires going { self.old.is_reported ≡ false }
        ensures stands { InorderLeads inorder_to_boundary self.old self.new }
        ensures kept { InorderKeeps inorder_to_boundary self.old self.new }
        ensures boundary { IsAtInorderBoundary self.new }
    {
        self.state.to_boundary();
    }

    /// Plays so many turns on the way to the end, as [`InorderCore::to_end`] plays them all, or
    /// fewer where the run is over before. A turn is at least one step of the timing side.
    pub fn go_on(&mut self, turns: u64)
        requires going { self.old.is_reported ≡ false }
        ensures played { InorderPlaysOn self.old self.new }
        ensures going { self.new.is_reported ≡ false }
    {
        self.state.play_on_demand(turns);
    }

    /// Whether the functional side was stopped, by the last order of the run.
    pub fn is_over(&self) -> bool
        ensures over { result ≡ self.now.func.is_stopped }
    {
        self.state.func.stopped()
    }

    /// What is committed of the output: the first bytes of the run's output, none of which is ever
    /// taken back.
    pub fn committed_output(&self) -> &[u8]
        ensures committed { TellsInorderCommitted self.now result.now }
    {
        self.state.committed_output()
    }

    /// Plays events until the run is over: the timing side has told its last order, and the
    /// functional side has obeyed it. Entries are computed on demand; whatever state that leaves,
    /// the rounds behind it come to the end.
    pub fn to_end(&mut self)
        requires going { self.old.is_reported ≡ false }
        ensures ended { InorderLeadsToEnd self.old self.new }
        ensures kept { InorderKeepsToEnd self.old self.new }
        ensures boundary { IsAtInorderBoundary self.new }
    {
        let turns = self.state.steps;
        self.state.play_on_demand(turns);
        self.state.to_end();
    }

    /// What is reported at a boundary: the end, the counts, and the committed registers. The
    /// functional side goes back to what is committed for it and stays there; its output can still
    /// be read, and nothing can be played any more.
    pub fn committed(&mut self) -> Final
        requires boundary { IsAtInorderBoundary self.old }
        ensures reported { InorderReports self.old result }
        ensures contents { InorderGoesBack self.old self.new }
        ensures over { self.new.is_reported ≡ true }
    {
        self.state.committed()
    }

    /// The output of the functional side: where [`InorderCore::committed`] was called, that of the
    /// run so far; before, it may have bytes that run ahead.
    pub fn output(&self) -> &[u8]
        ensures output { result.now ≡ output_in self.now.func.contents }
    {
        self.state.func.output()
    }
}
