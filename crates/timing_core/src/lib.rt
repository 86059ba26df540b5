//! The phases of a cycle on the timing side, each exact against its definition.
#![tactic(auto)]

mod commit;
mod complete;
mod counts;
mod cycle_end;
mod fetch;
mod idle;
mod interrupt;
mod issue;
mod loads;
mod orders;
mod retire;
mod seen;
mod sizes;
mod state;
mod units;

pub use counts::Counts;
pub use fetch::Tried;
pub use orders::Orders;
pub use retire::flow_of;
pub use sizes::{caches_params, predictor_params};
pub use state::TimingCore;
pub use units::latency_of;
