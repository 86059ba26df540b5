//! The in-order machine by its definition: five stages behind the same entries and orders as the
//! monolithic machine, and the demand run and the split state that belong to it.
//!
//! No call of this crate computes a cycle: what the machine is stands in `specs/`, in the order of
//! `specs/Lib.antt`.
#![tactic(auto)]
