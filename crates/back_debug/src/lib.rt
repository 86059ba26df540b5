//! A debugger over a run without a timing side: it makes steps, takes steps back, and runs to an
//! address. Its state is always that of the run after as many steps as its position says. A script
//! of its commands is played with a line written of each.
#![tactic(auto)]

mod debugger;
mod looking;
mod script;
mod session;

pub use debugger::{Backed, Debugger, RunTo, Stepped};
pub use script::{Command, Script, ScriptFault};
pub use session::play;
