ghost use Rattle.std.specs.Prelude.{◌≡◌, true};
ghost use Rattle.mono_model.specs.Setup.{is_setup};
ghost use Rattle.mono_model.specs.Demand.{step_bound};
ghost use Rattle.mono_model.specs.Split.{boundary_rounds};

use mono_model::Setup;

/// A boundary is never further than so many rounds.
pub fn most_rounds(setup: &Setup) -> u32
    requires sound { is_setup setup.now ≡ true }
    ensures rounds { result ≡ boundary_rounds setup.now }
{
    (setup.ring + 128) * (setup.params.core_fetch + 8)
}

/// No run has more steps of the timing side.
pub fn most_steps(setup: &Setup) -> u64
    requires sound { is_setup setup.now ≡ true }
    ensures steps { result ≡ step_bound setup.now }
{
    setup.cycles * (u64::from(setup.params.core_fetch) + 6) + 2
}
