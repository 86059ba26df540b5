//! The law of the in-order machine's timing side: it makes the steps of that machine's demand run.
//!
//! Each function does nothing: its clauses are the laws.
#![tactic(auto)]

mod steps;
mod turns;

pub use steps::{
    in_order_step_without_a_try_needs_no_entry, in_order_timing_side_makes_the_steps_of_its_run,
    in_order_timing_side_shows_its_run,
};
pub use turns::{fetch_stands_at_the_entry, in_order_timing_side_makes_the_turns_of_its_run};
