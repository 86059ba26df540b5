//! The reorder buffer: the instructions in the window, in order.
#![tactic(auto)]

mod held;
mod slot;
mod window;

pub use slot::{Slot, SlotState};
pub use window::Window;

#[cfg(test)]
mod tests;
