//! The in-order machine's timing side, a pipeline of five stages that tells what it needs of the
//! functional side and never computes a value; and both sides together on one thread.
#![tactic(auto)]

mod at;
mod bounds;
mod in_order;
mod split;
mod stages;
mod timing;
mod watched;

pub use in_order::InorderSide;
pub use split::InorderCore;
