//! The functional and the timing side in two threads, with the entries and orders between them in
//! two bounded queues.
#![tactic(auto)]

mod foresight;
mod func_worker;
mod lookahead;
mod rounds;
mod session;
mod time_worker;
mod worker;

pub use session::Session;

#[cfg(test)]
mod tests;
