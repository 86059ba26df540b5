//! A session of GDB over the run alone: definitions of what is seen at a position, where a run
//! stops, and what is written of the bytes that a debugger sends. Its functions do nothing: their
//! clauses are examples.
#![tactic(auto)]

pub mod examples;
