//! A timing side cycle by cycle, and what is seen of it as one begins.
ghost use Rattle.std.specs.Prelude.{◌≡◌, true};

use crate::pipeline::Pipeline;
use crate::side::TimingSide;
use crate::turn::Turn;

impl<P: Pipeline> TimingSide<P> {
    ghost use Rattle.time_model.specs.Running.{IsRunInCycle};
    ghost use Rattle.time_model.specs.Missing.{missing_in};
    ghost use Rattle.time_model.specs.Standing.{wants_in};

    /// The pipeline.
    pub fn pipeline(&self) -> &P
        ensures pipeline { result.now ≡ self.now.pipeline }
    {
        &self.state.pipeline
    }

    /// The address to fetch next, if its miss was counted.
    pub fn missing(&self) -> Option<u32>
        ensures missing { result
            ≡ missing_in (P.piped.core self.now.pipeline).paid self.now.telling.held }
    {
        if !self.state.pipeline.core().paid() {
            return None;
        }
        match &self.state.telling.held {
            Some(entry) => Some(entry.addr),
            None => None,
        }
    }

    /// Makes steps as [`TimingSide::run`] does, but none after the end of a cycle. The result is
    /// what the last step did: the others neither told an order nor ended a cycle.
    #[inline(always)]
    pub fn run_in_cycle(&mut self) -> Turn
        ensures made { IsRunInCycle P.piped self.old self.new result }
        ensures waiting { result ≡ Turn.Want → wants_in P.piped self.new ≡ true }
    {
        self.state.run_in_cycle()
    }
}
