//! What stands in the stages.
#![tactic(auto)]

ghost use Rattle.std.specs.Prelude.{ℕ};
ghost use Rattle.mono_model.specs.declared.setup.Setup.{Setup};
ghost use Rattle.inorder_machine.specs.Demand.{inorder_place};
ghost use Rattle.inorder_laws.specs.Stages.{IsPipeline};

/// Each stage behind Fetch has at most one record, and a record of a later stage is older. So there
/// are never more than four.
pub fn each_stage_has_at_most_one_record()
    ensures stages { (s : Setup) (k : ℕ) → IsPipeline (inorder_place s k) }
{}
