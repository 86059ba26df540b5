//! Runs on many machines at once, each in a thread of its own where one can be made.
#![tactic(auto)]

mod job;
mod runs;

pub use job::Job;
pub use runs::{MOST_JOBS, sweep, sweep_in_order};
