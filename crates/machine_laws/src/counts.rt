//! What a run counts.
#![tactic(auto)]

ghost use Rattle.std.specs.Prelude.{ℕ};
ghost use Rattle.mono_model.specs.declared.setup.Setup.{Setup};
ghost use Rattle.mono_model.specs.Demand.{place};
ghost use Rattle.machine_laws.specs.Counts.{AreCounted};

/// Each fetched record is committed, squashed or in the window, and no count passes the number of
/// steps or of commits.
#[tactic(auto, using(crate::proofs::Counting::run_counted))]
pub fn counts_of_a_run_agree()
    ensures counted { (s : Setup) (k : ℕ) → AreCounted k (place s k).run.demand }
{}
