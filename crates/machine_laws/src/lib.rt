//! Laws of the machines: what holds of the monolithic run, of the demand run beside it and of the
//! path under its orders, for every setup.
//!
//! Each function does nothing: its clauses are the laws.
#![tactic(auto)]

mod counts;
mod end;
mod going_on;
mod last_order;
mod numbers;
mod on_path;
mod orders;
mod runs;
mod split_run;
mod stays;
mod told;

pub use counts::counts_of_a_run_agree;
pub use end::run_ends_once;
pub use going_on::path_goes_on_by_execution;
pub use last_order::{list_of_orders_ends_in_stop, stop_is_told_last};
pub use numbers::{
    numbers_of_a_run_are_bounded, orders_are_numbered_within_the_window,
    window_stays_within_its_size,
};
pub use on_path::{machine_is_on_the_path, time_reads_are_served};
pub use orders::{
    epochs_go_by_the_orders_told, orders_told_begin_those_of_the_run, step_tells_one_order_at_most,
};
pub use runs::{
    demand_run_halts, each_cycle_is_reached, machines_of_the_demand_run_are_the_monolithic_ones,
};
pub use split_run::{
    boundaries_are_reached, committed_number_never_falls, split_core_runs_as_the_machine,
    split_states_are_reached, what_the_split_core_commits_stays,
};
pub use stays::{
    committed_output_begins_that_of_the_run, committed_stays, output_only_grows,
    output_stays_within_its_limit, output_told_stays_within_its_limit, what_orders_commit_has_room,
};
pub use told::{
    each_order_is_told_by_a_step, needed_entry_goes_by_epoch_and_number, next_order_may_be_obeyed,
    orders_obeyed_are_those_told,
};
