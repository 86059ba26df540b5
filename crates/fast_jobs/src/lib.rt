//! What a line asks for: its files are read and tested, it is played, and what comes of it is
//! written.
#![tactic(auto)]

mod counting;
mod debugging;
mod early;
mod files;
mod finish;
mod grow;
mod image;
mod inorder;
mod job;
mod load;
mod machine;
mod opening;
mod plan;
mod played;
mod profiling;
mod read;
mod refusal;
mod running;
mod script;
mod setup;
mod stacking;
mod sweep;
mod sweep_files;
mod sweep_setup;
mod timed_image;
mod tracing;

pub use debugging::run_gdb;
pub use job::{Job, SingleJob};
pub use opening::open;
pub use refusal::{Refusal, tell_want_of_memory};
pub use running::{first_set, run, run_in_threads};
