//! The timing side: it makes the steps of the demand run on the entries that it is handed, and
//! tells the orders.
#![tactic(auto)]

mod at;
mod cycle;
mod fetched;
mod out_of_order;
mod phase;
mod pipeline;
mod side;
mod state;
mod telling;
mod turn;

pub use fetched::Fetched;
pub use phase::{Phase, over};
pub use pipeline::Pipeline;
pub use side::{Taken, TimeSide, TimingSide};
pub use telling::Telling;
pub use turn::Turn;
