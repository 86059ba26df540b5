//! Pipeline traces to the byte.
#![tactic(auto, unfolding(crate::proofs::Computing::insight_computing))]

ghost use Rattle.std.specs.Prelude.{◌≡◌};
ghost use Rattle.worked_examples.specs.Setups.{code_image, setup_of};
ghost use Rattle.worked_examples.specs.Machines.{window_of_eight, one_line_cache};
ghost use Rattle.worked_examples.specs.Pipeline.{smallest_pass};
ghost use Rattle.worked_examples.specs.Memory.{load_on_a_wrong_path};
ghost use Rattle.worked_examples.specs.Traps.{speculative_misaligned_jump};
ghost use Rattle.inorder_examples.specs.Machines.{in_order_machine};
ghost use Rattle.insight_model.specs.declared.pipeline.Pipeline.TheVariants.{Window, Inorder};
ghost use Rattle.insight_model.specs.Trace.{trace_text};
ghost use Rattle.insight_examples.specs.Traces.{smallest_pass_trace, late_trace};
ghost use Rattle.insight_examples.specs.Traces.{misprediction_trace, trap_trace};
ghost use Rattle.insight_examples.specs.Traces.{smallest_pass_trace_in_order};
ghost use Rattle.insight_examples.specs.Written.{with_tabs};

/// Each line of a trace, from the first fetch to the cycle in which the last record left.
pub fn trace_of_the_smallest_pass()
    ensures text { trace_text Window
        (setup_of (code_image smallest_pass) window_of_eight) 1000 0 10000
        ≡ with_tabs smallest_pass_trace }
{}

/// A range after the end shows the window as the run left it.
pub fn trace_after_the_end()
    ensures text { trace_text Window
        (setup_of (code_image smallest_pass) window_of_eight) 1000 100 200
        ≡ with_tabs late_trace }
{}

/// The cycle of a misprediction: one record leaves, one is squashed, one is fetched.
pub fn trace_of_a_misprediction()
    ensures text { trace_text Window
        (setup_of (code_image load_on_a_wrong_path) one_line_cache) 1000 14 15
        ≡ with_tabs misprediction_trace }
{}

/// The cycle of a trap: it leaves with a note, and all younger records are squashed.
pub fn trace_of_a_trap()
    ensures text { trace_text Window
        (setup_of (code_image speculative_misaligned_jump) window_of_eight) 1000 7 8
        ≡ with_tabs trap_trace }
{}

/// The same program in five stages.
pub fn trace_of_the_smallest_pass_in_order()
    ensures text { trace_text Inorder
        (setup_of (code_image smallest_pass) in_order_machine) 1000 0 10000
        ≡ with_tabs smallest_pass_trace_in_order }
{}
