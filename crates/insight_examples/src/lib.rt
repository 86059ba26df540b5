//! Small programs whose stacks, profiles, traces and counts the checker computes from their
//! definitions.
//!
//! Each function does nothing: its clauses are the examples. The numbers come from an independent
//! simulator.
#![tactic(auto)]

mod counts;
mod inorder;
mod profiles;
mod stacks;
mod traces;

pub use counts::{count_of_a_loop, count_of_a_trap};
pub use inorder::{
    console_driver_in_order, interrupt_in_order, loads_that_miss_in_order, loop_in_order,
    smallest_pass_in_order, trap_in_order,
};
pub use profiles::{
    profile_of_a_loop, profile_of_an_interrupt, profile_of_loads_that_miss,
    profile_of_loads_that_miss_in_order,
};
pub use stacks::{
    console_driver_on_a_wide_machine, division_holds_all_after_it, environment_call_is_a_trap,
    interrupt_before_a_replay, interrupt_is_charged_to_its_handler, loads_that_miss,
    loop_in_a_window_of_eight, loop_on_the_plain_machine, output_full_after_a_division,
    replays_of_time_reads, smallest_pass_in_a_window_of_eight, smallest_pass_on_the_plain_machine,
    smallest_pass_with_an_instruction_cache, trap_after_a_jump,
};
pub use traces::{
    trace_after_the_end, trace_of_a_misprediction, trace_of_a_trap, trace_of_the_smallest_pass,
    trace_of_the_smallest_pass_in_order,
};
