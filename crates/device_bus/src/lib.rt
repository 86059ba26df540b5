//! The console, the timer and the finisher behind one trait, and the bus that owns the three.
#![tactic(auto)]

mod any_device;
mod bus;
mod console;
mod device;
mod finisher;
mod kind;
pub mod law;
mod place;
mod timer;
mod undo;

pub use any_device::AnyDevice;
pub use bus::{Bus, SET_SIZE, SETS_LIMIT, in_order, sets_in_order};
pub use console::Console;
pub use device::{Device, INPUT_LIMIT};
pub use finisher::Finisher;
pub use kind::DeviceKind;
pub use place::Place;
pub use timer::Timer;
pub use undo::{DevUndo, Note};

#[cfg(test)]
mod tests;
