//! The instructions in flight on the timing side: the window, the reservation stations and the
//! store queue, kept in step.
#![tactic(auto)]

mod appending;
mod dividing;
mod flight;
mod queueing;
mod reading;
mod registers;

pub use flight::InFlight;
pub use reservation_stations::{PlaceSet, Sought};
