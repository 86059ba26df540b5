//! How often each instruction of a program was executed, by its address, in a run without a
//! pipeline.
#![tactic(auto)]

mod counts;
mod row;
mod totals;

pub use counts::InstructionCounts;
pub use totals::columns_add_up;
