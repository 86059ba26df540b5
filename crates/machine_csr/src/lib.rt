//! The control and status registers of a hart with machine mode alone: CSR instructions, trap entry
//! and return.
#![tactic(auto)]

pub mod address;
mod csrs;
pub mod flags;
mod form;

pub use csrs::{CsrWrite, Csrs, TIMER_INTERRUPT};
pub use form::reads_time;

#[cfg(test)]
mod tests;
