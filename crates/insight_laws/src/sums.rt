//! What adds up to the cycles of a run.
#![tactic(auto)]

ghost use Rattle.std.specs.Prelude.{◌≡◌, List, length, sum_by};
ghost use Rattle.mono_model.specs.declared.params.Params.{Params};
ghost use Rattle.insight_model.specs.declared.pipeline.Pipeline.{Pipeline};
ghost use Rattle.insight_model.specs.Cause.{causes};
ghost use Rattle.insight_model.specs.Cycles.{Cycle};
ghost use Rattle.insight_model.specs.Fetch.{fetch_ends};
ghost use Rattle.insight_model.specs.Stack.{head_count, fetch_count};

/// The counts of all causes add up to the number of cycles, whichever cycles these are.
pub fn causes_add_up()
    ensures spent { (run : List Cycle) → sum_by (head_count run) causes ≡ length run }
{}

/// So do the counts of why fetch ended.
pub fn ends_of_fetch_add_up()
    ensures ended { (pipeline : Pipeline) (p : Params) (run : List Cycle)
        → sum_by (fetch_count pipeline p run) fetch_ends ≡ length run }
{}
