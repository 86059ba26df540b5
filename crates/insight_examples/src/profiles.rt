//! Profiles to the byte.
#![tactic(auto, unfolding(crate::proofs::Computing::insight_computing))]

ghost use Rattle.std.specs.Prelude.{◌≡◌};
ghost use Rattle.worked_examples.specs.Setups.{code_image, setup_of};
ghost use Rattle.worked_examples.specs.Machines.{window_of_eight, bimodal_window_of_eight};
ghost use Rattle.worked_examples.specs.Machines.{one_line_cache};
ghost use Rattle.worked_examples.specs.Pipeline.{backward_branch_loop};
ghost use Rattle.worked_examples.specs.Memory.{load_on_a_wrong_path};
ghost use Rattle.worked_examples.specs.Time.{timer_interrupt_between};
ghost use Rattle.inorder_examples.specs.Machines.{one_line_cache_in_order};
ghost use Rattle.insight_model.specs.declared.pipeline.Pipeline.TheVariants.{Window, Inorder};
ghost use Rattle.insight_model.specs.Profile.{profile_text, profile_header};
ghost use Rattle.insight_examples.specs.Rows.{loads_that_miss_profile, loop_profile};
ghost use Rattle.insight_examples.specs.Rows.{interrupt_profile, loads_that_miss_profile_in_order};
ghost use Rattle.insight_examples.specs.Written.{with_header};

/// The load on the wrong path misses and costs nothing.
pub fn profile_of_loads_that_miss()
    ensures text { profile_text Window
        (setup_of (code_image load_on_a_wrong_path) one_line_cache) 1000
        ≡ with_header profile_header loads_that_miss_profile }
{}

/// The branch holds the cycles of both mispredictions.
pub fn profile_of_a_loop()
    ensures text { profile_text Window
        (setup_of (code_image backward_branch_loop) bimodal_window_of_eight) 1000
        ≡ with_header profile_header loop_profile }
{}

/// The handler holds the cycles of the interrupt, and the time read those of its replay.
pub fn profile_of_an_interrupt()
    ensures text { profile_text Window
        (setup_of (code_image timer_interrupt_between) window_of_eight) 1000
        ≡ with_header profile_header interrupt_profile }
{}

/// In order the load on the wrong path is never made.
pub fn profile_of_loads_that_miss_in_order()
    ensures text { profile_text Inorder
        (setup_of (code_image load_on_a_wrong_path) one_line_cache_in_order) 1000
        ≡ with_header profile_header loads_that_miss_profile_in_order }
{}
