ghost use Rattle.std.specs.Prelude.{◌≡◌, true};
ghost use Rattle.mono_model.specs.Setup.{is_setup};
ghost use Rattle.inorder_machine.specs.Demand.{inorder_step_bound};
ghost use Rattle.inorder_laws.specs.Rounds.{inorder_boundary_rounds};

use mono_model::Setup;

/// A boundary is never further than so many rounds.
pub(crate) fn most_rounds(setup: &Setup) -> u32
    requires sound { is_setup setup.now ≡ true }
    ensures rounds { result ≡ inorder_boundary_rounds setup.now }
{
    (setup.ring + 128) * 10
}

/// No run has more steps of the timing side.
pub(crate) fn most_steps(setup: &Setup) -> u64
    requires sound { is_setup setup.now ≡ true }
    ensures steps { result ≡ inorder_step_bound setup.now }
{
    setup.cycles * 8 + 2
}
