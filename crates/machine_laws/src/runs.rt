//! The demand run beside the monolithic run.
#![tactic(auto)]

ghost use Rattle.std.specs.Prelude.{◌≡◌, ℕ, ◌≤◌, true};
ghost use Rattle.mono_model.specs.declared.setup.Setup.{Setup};
ghost use Rattle.mono_model.specs.Demand.{place};
ghost use Rattle.mono_model.specs.Split.{is_cycle_start};
ghost use Rattle.machine_laws.specs.Runs.{IsMono, Reaches, Halts};

/// Where a cycle starts, and at the end, the demand run has the machine of the monolithic run
/// behind as many cycles.
#[tactic(auto, using(crate::proofs::DemandRun::is_mono))]
pub fn machines_of_the_demand_run_are_the_monolithic_ones()
    ensures machine { (s : Setup) (k : ℕ) → is_cycle_start (place s k).run.at ≡ true
        → IsMono s (place s k) }
{}

/// The demand run comes to the start of each cycle, up to its end.
#[tactic(auto, using(crate::proofs::Reaching::cycle_reached))]
pub fn each_cycle_is_reached()
    ensures reached { (s : Setup) (c : ℕ) → (steps : ℕ) × Reaches s c steps }
{}

/// The demand run tells its last order within the bound of its steps.
#[tactic(auto, using(crate::proofs::Halting::run_halts))]
pub fn demand_run_halts()
    ensures halts { (s : Setup) → 1 ≤ s.cycles → Halts s }
{}
