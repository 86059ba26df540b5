ghost use Rattle.std.specs.Prelude.{◌≡◌, false};
ghost use Rattle.inorder_model.specs.Core.{IsAtInorderBoundary, InorderPlaysOn};
ghost use Rattle.inorder_model.specs.Core.{GoesToNextInorderCycle};

use crate::in_order::InorderSide;
use crate::split::InorderCore;
use device_bus::Device;

/// The machine as it is watched, cycle by cycle.
impl<D: Device> InorderCore<D> {
    /// Plays on from the start of a cycle to that of the next, if the run goes on; and else to the
    /// next boundary.
    pub fn cycle_on(&mut self)
        requires going { self.old.is_reported ≡ false }
        ensures plays { InorderPlaysOn self.old self.new }
        ensures next { GoesToNextInorderCycle self.old self.new }
        ensures boundary { IsAtInorderBoundary self.new }
        ensures going { self.new.is_reported ≡ false }
    {
        self.state.cycle_on();
    }

    /// The timing side.
    pub fn side(&self) -> &InorderSide
        ensures side { result.now ≡ self.now.time }
    {
        &self.state.time
    }
}
