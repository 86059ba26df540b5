//! When a run ends.
#![tactic(auto)]

ghost use Rattle.std.specs.Prelude.{◌≤◌};
ghost use Rattle.mono_model.specs.declared.setup.Setup.{Setup};
ghost use Rattle.inorder_machine.specs.Cycle.{inorder_final};
ghost use Rattle.inorder_laws.specs.FirstEnd.{InorderEndsOnce};

/// A run with a limit of at least one cycle ends behind exactly one number of cycles, the one that
/// its report shows.
pub fn run_in_order_ends_once()
    ensures ends { (s : Setup) → 1 ≤ s.cycles →
        InorderEndsOnce s (inorder_final s s.cycles).stats.cycles }
{}
