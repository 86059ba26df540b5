//! Laws of what is told of a run: each of its cycles is told, is spent on one cause, and has one
//! reason for which fetch ended; the rows of a profile add up; and what is seen as a cycle begins
//! follows what was seen a cycle before.
//!
//! Each function does nothing: its clauses are the laws.
#![tactic(auto)]

mod cycles;
mod following;
mod rows;
mod sums;

pub use cycles::each_cycle_is_told;
pub use following::{
    cycles_are_seen_one_after_another, cycles_are_seen_within_the_limit, sights_follow_one_another,
};
pub use rows::rows_add_up;
pub use sums::{causes_add_up, ends_of_fetch_add_up};
