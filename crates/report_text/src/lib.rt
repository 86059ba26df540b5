//! What the program writes: the reports of its runs and the lines of its faults, none of which
//! takes memory.
#![tactic(auto)]

mod buffered;
mod debugging;
mod fault;
mod keyed;
mod line;
mod put;
mod report_lines;
mod rows;
mod stack;
mod status;
mod sweep;
mod timed;
mod untimed;

pub use buffered::TextBuffer;
pub use debugging::{Arrival, machine_lines, position_line};
pub use fault::fault_line;
pub use line::Line;
pub use put::WriteFault;
pub use report_lines::end_words;
pub use rows::{count_header, number_row, profile_header};
pub use stack::{StackCounts, cause_name, stack_lines};
pub use status::{Role, Status};
pub use sweep::{sweep_line, sweep_refusal};
pub use timed::report;
pub use untimed::{ends_open, func_report};
