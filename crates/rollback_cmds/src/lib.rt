//! What the timing side orders of the functional side.
#![tactic(auto)]

mod order;

pub use order::{ORDER_ROOM, Order};
