//! Machine files: which bytes are one, and the parameters that they give.
#![tactic(auto)]

mod cause;
mod fault;
mod given;
mod held;
mod held_value;
mod names;
mod numbers;
mod params;
mod range;
mod reader;
mod rows;
mod table;
#[cfg(test)]
mod tests;

pub use fault::MachineFault;
pub use reader::read;
