//! The two bounded queues between the functional and the timing thread: entries one way, orders the
//! other.
//!
//! What is handed over is told by its name: an entry is the one that the machine's definitions give
//! for its epoch and number, an order the one for its place. No other thread's schedule can change
//! that (`specs/Line.antt`, `specs/Ring.antt`, `specs/Orders.antt`).
#![tactic(auto)]

mod count;
mod counting;
mod ends;
mod func_end;
mod group;
mod inlet;
mod laws;
mod line;
mod outlet;
mod role;
mod time_end;

pub use ends::rings;
pub use func_end::FuncEnd;
pub use time_end::TimeEnd;

#[cfg(test)]
mod tests;
