//! The branch predictor of the timing side: two-bit counters, a global history and a buffer of
//! branch targets.
#![tactic(auto)]

mod number;
mod params;
mod predictor;
#[cfg(test)]
mod tests;

pub use params::{PredKind, PredParams, Target};
pub use predictor::Predictor;
