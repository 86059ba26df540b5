ghost use Rattle.std.specs.Prelude.{◌≡◌};
ghost use Rattle.split_core.specs.Plays.{Plays, IsClear};
ghost use Rattle.split_core.specs.InCycle.{CyclesOn, ComesOut};
ghost use Rattle.split_core.specs.Standing.{IsStandingOn, IsAtBoundaryOn};

use crate::state::SplitState;
use crate::timing::Timing;
use device_bus::Device;
use time_model::Turn;
use trace_entry::Entry;

/// The run cycle by cycle, on demand.
impl<D: Device, T: Timing> SplitState<D, T> {
    ghost use Rattle.std.specs.Prelude.{true, false};
    ghost use Rattle.split_core.specs.InCycle.{StaysIn};

    /// Plays on from the start of a cycle to that of the next, if the run goes on; and else to the
    /// next boundary.
    pub fn cycle_on(&mut self)
        requires standing { IsStandingOn T.timed self.old }
        ensures plays { Plays T.timed self.old self.new }
        ensures next { CyclesOn T.timed self.old self.new }
        ensures boundary { IsAtBoundaryOn T.timed self.new }
    {
        if self.is_clear() {
            self.leave_cycle();
        } else {
            self.tick();
        }
        self.to_boundary();
    }

    /// Plays on, with nothing under way between the sides, to the end of the cycle or beyond what
    /// the run needs for it.
    fn leave_cycle(&mut self)
        requires standing { IsStandingOn T.timed self.old }
        requires clear { IsClear self.old }
        ensures plays { Plays T.timed self.old self.new }
        ensures out { ComesOut T.timed self.old self.new }
    {
        if self.play_in_cycle() {
            return;
        }
        self.tick();
    }

    /// Plays steps until one ends a cycle. The result is false where none did.
    fn play_in_cycle(&mut self) -> bool
        requires standing { IsStandingOn T.timed self.old }
        requires clear { IsClear self.old }
        ensures plays { Plays T.timed self.old self.new }
        ensures out { result ≡ true → ComesOut T.timed self.old self.new }
        ensures stays { result ≡ false → StaysIn T.timed self.old self.new }
        ensures clear { IsClear self.new }
    {
        let mut entry = Entry::BLANK;
        for _ in 0..self.steps {
            self.play_on_in_cycle(&mut entry);
            if self.time.at_boundary() {
                return true;
            }
        }
        false
    }

    /// Plays steps up to the first that tells an order, wants an entry or ends a cycle, and answers
    /// it.
    #[inline(always)]
    fn play_on_in_cycle(&mut self, entry: &mut Entry)
        requires standing { IsStandingOn T.timed self.old }
        requires clear { IsClear self.old }
        ensures plays { Plays T.timed self.old self.new }
        ensures out { ComesOut T.timed self.old self.new }
        ensures clear { IsClear self.new }
    {
        match self.time.run_in_cycle() {
            Turn::Want => self.hand_over_wanted(entry),
            Turn::Ordered(order) => self.func.obey(order),
            Turn::Moved | Turn::CycleEnd | Turn::Halted => {}
        }
    }
}
