//! A session of GDB over the run alone: the bytes of a debugger are taken one by one, and what
//! they ask for is done and answered. Nothing here takes memory once the run is opened.
#![tactic(auto)]

mod description;
mod lines;
mod memory;
mod monitor;
mod play;
mod points;
mod range;
mod registers;
mod runs;
mod serving;
mod session;
mod stops;
mod stub;
mod told;

pub use serving::{ServeFault, serve};
pub use stub::Stub;
