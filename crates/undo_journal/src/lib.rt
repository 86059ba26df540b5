//! A bounded journal of what takes instructions back.
#![tactic(auto)]

mod journal;
mod past;
mod place;

pub use journal::Journal;
pub use past::{Change, OldCsr, OldTrap, Past};

#[cfg(test)]
mod tests;
