//! What is seen of a run, cycle after cycle.
#![tactic(auto)]

ghost use Rattle.std.specs.Prelude.{◌≡◌, ◌+◌, ◌≤◌, ℕ, true, false};
ghost use Rattle.mono_model.specs.declared.setup.Setup.{Setup};
ghost use Rattle.mono_model.specs.Setup.{is_setup};
ghost use Rattle.mono_model.specs.Final.{has_ended};
ghost use Rattle.mono_model.specs.Cycle.{mono};
ghost use Rattle.inorder_machine.specs.Setup.{IsInorder};
ghost use Rattle.inorder_machine.specs.Cycle.{inorder};
ghost use Rattle.insight_model.specs.OfState.{inorder_sight, sight};
ghost use Rattle.insight_model.specs.Following.{Follows};

use inorder_laws::run_in_order_ends_once;

/// What is seen of a run as a cycle begins follows what was seen a cycle before: nothing that is
/// counted falls, and the instructions that stayed are the same.
pub fn sights_follow_one_another()
    ensures window { (s : Setup) (n : ℕ) → is_setup s ≡ true
        → Follows (sight (mono s n)) (sight (mono s (n + 1))) }
    ensures inorder { (s : Setup) (n : ℕ) → IsInorder s
        → Follows (inorder_sight (inorder s n)) (inorder_sight (inorder s (n + 1))) }
{
    run_in_order_ends_once();
}

/// No cycle is seen with a number above the limit of the run.
pub fn cycles_are_seen_within_the_limit()
    ensures window { (s : Setup) (n : ℕ) → 1 ≤ s.cycles
        → (sight (mono s n)).cycle ≤ s.cycles }
    ensures inorder { (s : Setup) (n : ℕ) → 1 ≤ s.cycles
        → (inorder_sight (inorder s n)).cycle ≤ s.cycles }
{
    run_in_order_ends_once();
}

/// Until the run has ended, each cycle is seen with the next number.
pub fn cycles_are_seen_one_after_another()
    ensures window { (s : Setup) (n : ℕ) → 1 ≤ s.cycles → has_ended (sight (mono s n)).end ≡ false
        → (sight (mono s (n + 1))).cycle ≡ (sight (mono s n)).cycle + 1 }
    ensures inorder { (s : Setup) (n : ℕ) → 1 ≤ s.cycles
        → has_ended (inorder_sight (inorder s n)).end ≡ false
        → (inorder_sight (inorder s (n + 1))).cycle
        ≡ (inorder_sight (inorder s n)).cycle + 1 }
{
    run_in_order_ends_once();
}
