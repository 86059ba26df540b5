//! What each cycle of a run was spent on: an observer that looks at a timing side as each cycle
//! begins, and computes from two successive looks what the cycle did.
#![tactic(auto)]

mod cell;
mod charge;
mod facts;
mod heads;
mod holes;
mod last;
mod laws;
mod mark;
mod profile;
mod profile_row;
mod shown;
mod stack;
mod timed_text;
mod trace;
mod trace_items;
mod trace_lines;
mod trace_mark;
mod trace_notes;
mod watched;

pub use laws::sides_show_the_machines;
pub use profile::Profiling;
pub use shown::{Progress, Shown};
pub use stack::Stacking;
pub use trace::Tracing;
pub use watched::Watched;
