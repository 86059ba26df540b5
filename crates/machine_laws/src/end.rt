//! The end of a run.
#![tactic(auto)]

ghost use Rattle.std.specs.Prelude.{ℕ, ◌≤◌};
ghost use Rattle.mono_model.specs.declared.setup.Setup.{Setup};
ghost use Rattle.mono_model.specs.Cycle.{final};
ghost use Rattle.machine_laws.specs.FirstEnd.{EndsOnce};

/// A run ends behind exactly one number of cycles, the one that is reported. It doesn't end before,
/// and from there on the machine stands still.
#[tactic(auto, using(crate::proofs::FirstEnd::run_ends_once))]
pub fn run_ends_once()
    ensures ends { (s : Setup) → 1 ≤ s.cycles → EndsOnce s (final s s.cycles).stats.cycles }
{}
