//! The caches of the timing side: which accesses hit, what a miss costs, and what is written back.
#![tactic(auto)]

mod ages;
mod cache;
mod caches;
mod counts;
mod last_line;
mod number;
mod params;
#[cfg(test)]
mod tests;

pub use cache::{Cache, Line, Touch};
pub use caches::Caches;
pub use counts::CacheCounts;
pub use params::{AllCaches, CacheParams};
