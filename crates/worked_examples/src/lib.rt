//! Small programs whose ends, counts and registers the checker computes from the definitions of the
//! machines.
//!
//! Each function does nothing: its clauses are the examples. The numbers come from an independent
//! simulator.
#![tactic(auto)]

mod alone;
mod devices;
mod fences;
mod memory;
mod orders;
mod pipeline;
mod time;
mod traps;

pub use alone::{
    cycle_counter_alone, failure_code_alone, fence_i_alone, interrupts_in_a_loop_alone,
    limit_inside_a_run_alone, load_fault_alone, output_full_alone, smallest_pass_alone,
    time_registers_alone, trap_storm_alone, uart_driver_alone, vectored_interrupt_alone,
};
pub use devices::{
    console_gives_each_byte_once, console_load_on_a_wrong_path_takes_no_input,
    exact_room_for_the_output, failure_code_ends_the_run, finisher_ends_by_a_word_alone,
    limit_of_one_cycle, no_room_for_any_output, output_full_ends_before_the_byte,
    uart_driver_prints, uart_driver_prints_on_a_wide_machine,
};
pub use fences::{
    fence_i_flushes, fence_i_on_the_plain_machine, fence_without_i_fetches_the_old_word,
};
pub use memory::{
    dirty_line_is_written_back, instruction_cache_misses_once,
    instructions_and_data_share_the_second_level, least_recently_used_way_goes,
    load_with_a_fault_accesses_no_cache, one_line_cache_on_the_plain_machine,
    overlapping_stores_on_a_wide_machine, stores_partly_cover_a_load, two_loads_a_cycle,
    write_through_drops_nothing_dirty, written_back_lines_access_the_second_level,
    wrong_path_load_evicts, wrong_path_load_evicts_before_a_second_level,
    youngest_older_store_wins,
};
pub use orders::{
    entries_of_an_older_epoch_are_dropped, held_entry_is_dropped_by_an_order, orders_bend_the_path,
    orders_of_a_trap_a_fence_and_time_reads, orders_of_the_interrupt,
};
pub use pipeline::{
    a_multiplication_begins_each_cycle, bimodal_counter_alternates, bimodal_counter_learns_a_loop,
    bimodal_counter_learns_a_loop_on_the_plain_machine, branch_to_the_next_is_not_taken,
    division_corner_cases_are_defined, fetch_of_four_takes_three_a_cycle,
    fetch_stops_at_a_predicted_jump, finisher_store_on_a_wrong_path_ends_nothing,
    flush_ends_the_wait_for_a_miss, gshare_goes_by_committed_outcomes,
    jumps_are_predicted_from_the_second_time_on, limit_inside_a_run,
    limit_of_one_cycle_on_the_plain_machine, next_address_is_always_wrong_in_a_loop,
    one_target_is_tagged, pass_in_the_last_cycle_is_no_limit, register_zero_is_never_waited_for,
    smallest_pass_in_a_window_of_eight, smallest_pass_on_the_plain_machine,
    two_divisions_at_a_time, two_records_wait, wide_fetch_runs_a_loop,
    wrong_path_word_that_is_no_instruction,
};
pub use time::{
    interrupt_comes_before_the_replay, interrupt_takes_the_time_away, interrupts_in_a_loop,
    interrupts_on_a_wide_machine, pending_bit_is_a_time_read,
    swap_without_a_destination_reads_no_time, time_read_on_a_wrong_path_is_not_replayed,
    time_reads_are_replayed, time_reads_on_the_plain_machine, timer_interrupt_flushes,
    vectored_interrupt_then_time_read,
};
pub use traps::{
    commit_width_is_for_faults_too, environment_call_in_a_window_of_eight,
    environment_call_on_the_plain_machine, fault_is_no_misprediction,
    fault_leaves_with_the_records_before_it, fetch_without_text_faults,
    handler_returns_behind_the_breakpoint, jump_through_a_value_that_never_comes,
    load_fault_on_the_plain_machine, misaligned_target_faults_at_the_jump,
    store_fault_flushes_what_is_behind, trap_storm_takes_three_cycles_a_trap,
};
