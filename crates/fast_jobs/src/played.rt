//! The machines as they are played cycle by cycle.
ghost use Rattle.std.specs.Prelude.{◌≡◌, ℕ};
ghost use Rattle.mono_model.specs.declared.setup.Setup.{Setup};
ghost use Rattle.mono_model.specs.Final.{has_ended};
ghost use Rattle.fast_jobs.specs.Played.{sight_at};

use cycle_watch::Watched;
use device_bus::Device;
use inorder_model::{InorderCore, InorderSide};
use mono_model::{End, Final};
use split_core::SplitCore;
use time_model::TimeSide;

/// A machine that is played cycle by cycle, and then to its end.
pub trait Played {
    ghost use Rattle.std.specs.Prelude.{◌≡◌, ◌+◌, ℕ, false};
    ghost use Rattle.mono_model.specs.declared.setup.Setup.{Setup};
    ghost use Rattle.mono_model.specs.Final.{has_ended};
    ghost use Rattle.fast_jobs.specs.Played.{Plays, IsPlaying, IsPlayedOut};
    ghost use Rattle.fast_jobs.specs.Played.{final_of, output_of, sight_at};

    type Side: Watched;

    ghost plays: { Plays Self };

    /// Plays on to the start of the next cycle.
    fn cycle_on(&mut self)
        requires playing { IsPlaying plays self.old }
        ensures next { (s : Setup) (n : ℕ) → plays.starts s n self.old
            → has_ended (sight_at plays.pipeline s n).end ≡ false
            → plays.starts s (n + 1) self.new };

    /// What is seen of it.
    fn side(&self) -> &Self::Side
        ensures seen { (s : Setup) (n : ℕ) → plays.starts s n self.now
            → Self.Side.sight result.now ≡ sight_at plays.pipeline s n };

    /// Plays to the end of the run.
    fn to_end(&mut self)
        requires playing { IsPlaying plays self.old }
        ensures ended { (s : Setup) (n : ℕ) → plays.starts s n self.old
            → plays.ended s self.new };

    /// What is reported of it then. Nothing can be played any more.
    fn committed(&mut self) -> Final
        requires ended { IsPlayedOut plays self.old }
        ensures last { (s : Setup) → plays.ended s self.old → result ≡ final_of plays.pipeline s }
        ensures reported { (s : Setup) → plays.ended s self.old → plays.reported s self.new };

    /// The output of the run, after that.
    fn output(&self) -> &[u8]
        ensures output { (s : Setup) → plays.reported s self.now
            → result.now ≡ output_of plays.pipeline s };
}

/// Whether a machine has ended its run.
pub fn has_ended<M: Played>(core: &M) -> bool
    ensures ended { (s : Setup) (n : ℕ) → M.plays.starts s n core.now
        → result ≡ has_ended (sight_at M.plays.pipeline s n).end }
{
    core.side().end() != End::Running
}

impl<D: Device> Played for SplitCore<D> {
    ghost use Rattle.fast_jobs.specs.Played.{window_plays};

    type Side = TimeSide;

    ghost plays = { window_plays };

    fn cycle_on(&mut self) {
        SplitCore::cycle_on(self);
    }

    fn side(&self) -> &TimeSide {
        SplitCore::side(self)
    }

    fn to_end(&mut self) {
        SplitCore::to_end(self);
    }

    fn committed(&mut self) -> Final {
        SplitCore::committed(self)
    }

    fn output(&self) -> &[u8] {
        SplitCore::output(self)
    }
}

impl<D: Device> Played for InorderCore<D> {
    ghost use Rattle.fast_jobs.specs.Played.{inorder_plays};

    type Side = InorderSide;

    ghost plays = { inorder_plays };

    fn cycle_on(&mut self) {
        InorderCore::cycle_on(self);
    }

    fn side(&self) -> &InorderSide {
        InorderCore::side(self)
    }

    fn to_end(&mut self) {
        InorderCore::to_end(self);
    }

    fn committed(&mut self) -> Final {
        InorderCore::committed(self)
    }

    fn output(&self) -> &[u8] {
        InorderCore::output(self)
    }
}
