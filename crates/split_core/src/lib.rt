//! The functional and the timing side together on one thread, with the entries and orders under way
//! between them: whatever order their events come in, at each boundary they stand where the
//! monolithic machine stands.
#![tactic(auto)]

mod bounds;
mod cycle;
mod demand;
mod event;
mod split;
mod state;
mod timing;
mod watched;

pub use event::Event;
pub use split::SplitCore;
pub use state::SplitState;
pub use timing::{Bounded, Timing};
