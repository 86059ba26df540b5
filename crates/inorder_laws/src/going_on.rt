//! How the path goes on.
#![tactic(auto)]

ghost use Rattle.std.specs.Prelude.{ℕ, ◌≤◌};
ghost use Rattle.mono_model.specs.declared.setup.Setup.{Setup};
ghost use Rattle.machine_laws.specs.Onward.{GoesOnward};
ghost use Rattle.inorder_machine.specs.Demand.{inorder_place};

/// From the next instruction to commit on the path is executed, as under the monolithic machine's
/// orders: those made so far bend no more of it than addresses, and these no further than the
/// record to fetch next.
#[tactic(auto, using(crate::proofs::Onward::place_onward))]
pub fn path_in_order_goes_on_by_execution()
    ensures onward { (s : Setup) (k : ℕ) → 4 ≤ s.params.core_window
        → GoesOnward s (inorder_place s k).run.demand }
{}
