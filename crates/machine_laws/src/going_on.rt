//! How the path goes on.
#![tactic(auto)]

ghost use Rattle.std.specs.Prelude.{ℕ};
ghost use Rattle.mono_model.specs.declared.setup.Setup.{Setup};
ghost use Rattle.mono_model.specs.Demand.{place};
ghost use Rattle.machine_laws.specs.Onward.{GoesOnward};

/// From the next instruction to commit on the path is executed: the orders made so far bend no more
/// of it than addresses, and these no further than the record to fetch next.
#[tactic(auto, using(crate::proofs::Onward::place_onward))]
pub fn path_goes_on_by_execution()
    ensures onward { (s : Setup) (k : ℕ) → GoesOnward s (place s k).run.demand }
{}
