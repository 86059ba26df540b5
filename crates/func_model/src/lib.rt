//! The functional side: it executes instructions along the path that the timing side's orders bend,
//! goes back by undoing and forwards by executing, or runs alone without a timing side, also step
//! by step with a history to go back over.
#![tactic(auto)]

mod alone;
mod contents;
mod found;
mod hart;
mod looking;
mod memory;
mod performed;
mod side;
mod take_back;
mod told;
mod trail;
mod walk;

pub use alone::AloneRun;
pub use looking::Ahead;
pub use side::{Arch, FuncSide};
pub use told::{Executed, ToldRun};
pub use trail::Trail;
