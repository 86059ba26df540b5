//! The timing side of the in-order machine by its definition: a machine on entries that holds no
//! value of an instruction.
//!
//! No call of this crate computes a cycle: what the timing side is stands in `specs/`, in the order
//! of `specs/Lib.antt`.
#![tactic(auto)]
