ghost use Rattle.std.specs.Prelude.{◌≡◌, false};
ghost use Rattle.split_core.specs.Standing.{IsAtBoundary, PlaysOn, GoesToNextCycle};

use crate::split::SplitCore;
use device_bus::Device;
use time_model::TimeSide;

/// The machine as it is watched, cycle by cycle.
impl<D: Device> SplitCore<D> {
    /// Plays on from the start of a cycle to that of the next, if the run goes on; and else to the
    /// next boundary.
    pub fn cycle_on(&mut self)
        requires going { self.old.is_reported ≡ false }
        ensures plays { PlaysOn self.old self.new }
        ensures next { GoesToNextCycle self.old self.new }
        ensures boundary { IsAtBoundary self.new }
        ensures going { self.new.is_reported ≡ false }
    {
        self.state.cycle_on();
    }

    /// The timing side.
    pub fn side(&self) -> &TimeSide
        ensures side { result.now ≡ self.now.time }
    {
        &self.state.time
    }
}
