//! What each cycle of a run was spent on, by its definition: what is seen of a state, what a cycle
//! did, the head of a cycle, and the texts that tell of them: trace, stack, profile and count.
//!
//! No call of this crate computes a cycle: what is told stands in `specs/`, in the order of
//! `specs/Lib.antt`.
#![tactic(auto)]

mod cycle_cause;
mod fetch_end;
mod pipeline;

pub use cycle_cause::CycleCause;
pub use fetch_end::FetchEnd;
pub use pipeline::Pipeline;
