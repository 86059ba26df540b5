//! What a run counts.
#![tactic(auto)]

ghost use Rattle.std.specs.Prelude.{ℕ};
ghost use Rattle.mono_model.specs.declared.setup.Setup.{Setup};
ghost use Rattle.machine_laws.specs.Counts.{AreCounted};
ghost use Rattle.inorder_machine.specs.Demand.{inorder_place};

/// Each record that was fetched was committed, was squashed or is in the window, and no count is
/// above how many steps were made or how many records left.
#[tactic(auto, using(crate::proofs::Counting::run_counted))]
pub fn counts_in_order_agree()
    ensures counted { (s : Setup) (k : ℕ) → AreCounted k (inorder_place s k).run.demand }
{}
