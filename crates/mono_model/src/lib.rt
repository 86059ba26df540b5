//! The definitions of the simulated machine, sequential and cycle by cycle, and the plain types
//! that they speak of.
//!
//! No call of this crate computes a cycle: what the machine is stands in `specs/`, in the order of
//! `specs/Lib.antt`.
#![tactic(auto)]

mod final_state;
mod params;
mod setup;

pub use device_bus::INPUT_LIMIT;
pub use final_state::{End, Final, Stats, end_of};
pub use params::Params;
pub use setup::{CYCLE_LIMIT, OUTPUT_LIMIT, RING_LIMIT, Setup};
