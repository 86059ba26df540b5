//! Laws of the in-order machine: what holds of its demand run, of its run by cycles and of the path
//! under its orders, for every setup.
//!
//! Each function does nothing: its clauses are the laws.
#![tactic(auto)]

mod counts;
mod end;
mod going_on;
mod numbers;
mod on_path;
mod orders;
mod pipeline;
mod runs;
mod split_run;
mod stays;

pub use counts::counts_in_order_agree;
pub use end::run_in_order_ends_once;
pub use going_on::path_in_order_goes_on_by_execution;
pub use numbers::{
    numbers_of_a_run_in_order_are_bounded, orders_in_order_are_numbered_within_the_window,
    output_in_order_stays_within_its_limit,
};
pub use on_path::{in_order_machine_is_on_the_path, time_reads_in_order_are_served};
pub use orders::step_in_order_tells_one_order_at_most;
pub use pipeline::each_stage_has_at_most_one_record;
pub use runs::{
    demand_run_in_order_halts, states_of_the_demand_run_are_those_of_the_cycles,
    stop_in_order_is_told_last,
};
pub use split_run::{
    boundaries_in_order_are_reached, committed_number_in_order_never_falls,
    split_core_runs_as_the_in_order_machine, split_states_in_order_are_reached,
    what_the_split_core_commits_in_order_stays,
};
pub use stays::{
    committed_in_order_stays, committed_output_in_order_begins_that_of_the_run,
    output_in_order_only_grows, output_told_in_order_stays_within_its_limit,
    what_orders_in_order_commit_has_room,
};
