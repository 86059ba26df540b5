//! The demand run of the in-order machine beside its run by cycles.
#![tactic(auto)]

ghost use Rattle.std.specs.Prelude.{◌≡◌, ℕ, ◌≤◌, true};
ghost use Rattle.mono_model.specs.declared.setup.Setup.{Setup};
ghost use Rattle.mono_model.specs.Path.{has_stop};
ghost use Rattle.mono_model.specs.Demand.{told};
ghost use Rattle.mono_model.specs.Split.{is_halted};
ghost use Rattle.inorder_machine.specs.Cycle.{inorder};
ghost use Rattle.inorder_machine.specs.Demand.{inorder_in, inorder_place, inorder_step_bound, seen};
ghost use Rattle.inorder_laws.specs.Runs.{starts_cycle, IsInorderPlace, InorderHalts};

/// Where a cycle starts, and at the end, the demand run has the state of the in-order machine
/// behind as many cycles.
#[tactic(auto, using(crate::proofs::Leading::is_inorder))]
pub fn states_of_the_demand_run_are_those_of_the_cycles()
    ensures state { (s : Setup) (k : ℕ) → starts_cycle (inorder_place s k).run.at ≡ true
        → IsInorderPlace s (inorder_place s k) }
{}

/// The demand run tells its last order within the bound of its steps.
#[tactic(auto, using(crate::proofs::Halting::run_halts))]
pub fn demand_run_in_order_halts()
    ensures halts { (s : Setup) → 1 ≤ s.cycles → InorderHalts s }
{}

/// Stop is told by the last step of a run, and behind it the run stands still.
#[tactic(auto, using(crate::proofs::Stopping::inorder_stop_told, crate::proofs::Stopping::inorder_halted_last, crate::proofs::Stopping::inorder_halted_state))]
pub fn stop_in_order_is_told_last()
    ensures halts { (s : Setup) (k : ℕ) →
        has_stop (told (seen s k)) ≡ is_halted (seen s k).run.at }
    ensures halted { (s : Setup) (k : ℕ) → 1 ≤ s.cycles → is_halted (seen s k).run.at ≡ true
        → inorder_place s k ≡ inorder_place s (inorder_step_bound s) }
    ensures state { (s : Setup) (k : ℕ) → 1 ≤ s.cycles → is_halted (seen s k).run.at ≡ true
        → inorder_in (inorder_place s k).run.demand (inorder_place s k).run.memory
        ≡ inorder s s.cycles }
{}
