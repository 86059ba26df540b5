//! Small programs whose ends, counts and registers the checker computes from the definition of the
//! in-order machine.
//!
//! Each function does nothing: its clauses are the examples. The numbers come from an independent
//! simulator.
#![tactic(auto)]

mod orders;
mod pipeline;
mod traps;

pub use orders::{
    entries_of_an_older_epoch_are_dropped_in_order, orders_of_a_loop_in_order,
    orders_of_a_trap_and_a_fence_in_order, orders_of_an_interrupt_in_order,
    split_runs_in_order_to_its_end,
};
pub use pipeline::{
    later_use_of_a_load_does_not_wait, loop_in_order, slow_memory_holds_what_needs_it,
    smallest_pass_in_order, units_are_taken_in_order, use_of_a_load_waits,
    wrong_path_load_never_comes_to_memory,
};
pub use traps::{environment_call_in_order, fence_i_in_order, vectored_interrupt_in_order};
