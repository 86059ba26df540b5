//! The cycles of a run.
#![tactic(auto)]

ghost use Rattle.std.specs.Prelude.{◌≡◌, ◌≤◌, length};
ghost use Rattle.mono_model.specs.declared.setup.Setup.{Setup};
ghost use Rattle.mono_model.specs.Cycle.{final};
ghost use Rattle.inorder_machine.specs.Cycle.{inorder_final};
ghost use Rattle.insight_model.specs.declared.pipeline.Pipeline.TheVariants.{Window, Inorder};
ghost use Rattle.insight_model.specs.Cycles.{cycles};

use inorder_laws::run_in_order_ends_once;
use machine_laws::run_ends_once;

/// As many cycles are told of a run as its report counts.
pub fn each_cycle_is_told()
    ensures window { (s : Setup) → 1 ≤ s.cycles
        → length (cycles Window s s.cycles) ≡ (final s s.cycles).stats.cycles }
    ensures inorder { (s : Setup) → 1 ≤ s.cycles
        → length (cycles Inorder s s.cycles) ≡ (inorder_final s s.cycles).stats.cycles }
{
    run_ends_once();
    run_in_order_ends_once();
}
