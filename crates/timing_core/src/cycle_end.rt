ghost use Rattle.std.specs.Prelude.{◌≡◌, if◌then◌else◌};
ghost use Rattle.mono_model.specs.declared.final_state.End.TheVariants.{Limit};
ghost use Rattle.mono_model.specs.Final.{has_ended};

use crate::state::TimingCore;
use mono_model::End;

impl TimingCore {
    ghost use Rattle.mono_model.specs.declared.setup.Setup.{Setup};
    ghost use Rattle.timing_side.specs.Timing.{Timing};
    ghost use Rattle.timing_side.specs.Turn.{timing_end_of_cycle};
    ghost use Rattle.timing_core.specs.Small.{IsSmall};
    ghost use Rattle.timing_core.specs.CoreStandsFor.{CoreStandsFor};

    /// The end of a cycle. A run that has not ended ends at its limit of cycles.
    #[inline(always)]
    pub fn end_cycle(&mut self)
        ensures kept { (s : Setup) (t : Timing) → CoreStandsFor s t self.old → IsSmall t
            → CoreStandsFor s (timing_end_of_cycle s t) self.new }
    {
        self.cycle = self.cycle.wrapping_add(1);
        if self.cycle == self.cycle_limit {
            self.end = end_at_limit(self.end);
        }
    }
}

/// How a run has ended behind its last cycle: as it had before, or at the limit.
fn end_at_limit(end: End) -> End
    ensures end { result ≡ (if has_ended end then end else Limit) }
{
    match end {
        End::Running => End::Limit,
        _ => end,
    }
}
