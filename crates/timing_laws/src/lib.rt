//! The law that the timing side makes the steps of the demand run.
//!
//! Each function does nothing: its clauses are the laws.
#![tactic(auto)]

mod steps;
mod turns;

pub use steps::{
    step_reads_parameters_and_limits_alone, step_without_a_try_needs_no_entry,
    timing_side_makes_the_steps_of_the_demand_run, timing_side_shows_the_run,
};
pub use turns::{fetch_stands_at_the_entry, timing_side_makes_the_turns_of_the_demand_run};
