//! What the monolithic machine has to do with the path of the functional side.
#![tactic(auto)]

ghost use Rattle.std.specs.Prelude.{◌≡◌, ℕ, true};
ghost use Rattle.mono_model.specs.declared.setup.Setup.{Setup as RunSetup};
ghost use Rattle.mono_model.specs.Setup.{is_setup};
ghost use Rattle.mono_model.specs.Demand.{place};
ghost use Rattle.machine_laws.specs.Relation.{Related};
ghost use Rattle.machine_laws.specs.Served.{AreServed};

/// At every place of the demand run the monolithic machine is on the path of the functional side.
#[tactic(auto, using(crate::proofs::Places::place_related))]
pub fn machine_is_on_the_path()
    ensures related { (s : RunSetup) (k : ℕ) → Related s (place s k).run.demand }
{}

/// No record executes that reads the time and was given none.
#[tactic(auto, using(crate::proofs::Serving::place_served))]
pub fn time_reads_are_served()
    ensures served { (s : RunSetup) (k : ℕ) → is_setup s ≡ true
        → AreServed (place s k).run.demand.machine.window }
{}
