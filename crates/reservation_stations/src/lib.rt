//! The reservation stations of the timing side: which instructions of the window wait for an
//! operand, and which can begin.
#![tactic(auto)]

mod destination;
mod place_set;
mod producer;
mod row;
mod sets;
mod sought;
mod source;
mod station;
mod stations;
mod tables;
#[cfg(test)]
mod tests;
mod turn_set;

pub use destination::Destination;
pub use place_set::PlaceSet;
pub use sought::Sought;
pub use source::Source;
pub use station::{Mark, Registers, Station};
pub use stations::Stations;
