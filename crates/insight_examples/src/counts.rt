//! Counts of runs without a pipeline, to the byte.
#![tactic(auto, unfolding(crate::proofs::Computing::insight_computing))]

ghost use Rattle.std.specs.Prelude.{◌≡◌};
ghost use Rattle.worked_examples.specs.Setups.{code_image, plain_machine, setup_of};
ghost use Rattle.worked_examples.specs.Pipeline.{backward_branch_loop};
ghost use Rattle.worked_examples.specs.Traps.{speculative_misaligned_jump};
ghost use Rattle.insight_model.specs.Count.{count_text, count_header};
ghost use Rattle.insight_examples.specs.Rows.{loop_count, trap_count};
ghost use Rattle.insight_examples.specs.Written.{with_header};

/// Nine of the ten branches go back.
pub fn count_of_a_loop()
    ensures text { count_text (setup_of (code_image backward_branch_loop) plain_machine) 1000
        ≡ with_header count_header loop_count }
{}

/// An instruction that traps is counted apart.
pub fn count_of_a_trap()
    ensures text { count_text (setup_of (code_image speculative_misaligned_jump) plain_machine) 1000
        ≡ with_header count_header trap_count }
{}
