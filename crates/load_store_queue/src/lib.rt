//! The stores in the window, in order, and which of them are done.
#![tactic(auto)]

mod queue;
mod queued;

pub use queue::StoreQueue;
pub use queued::Queued;

#[cfg(test)]
mod tests;
