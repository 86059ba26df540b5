//! What an instruction does with its operands: its value, its next address, its access and its
//! cause.
#![tactic(auto)]

mod alu;
mod bare;
mod branch;
mod evaluation;
mod law;
mod muldiv;
mod outcome;
mod transfer;

pub use bare::{BareInsn, Operation};
pub use evaluation::eval;
pub use law::{division_law, product_law};
pub use outcome::{Outcome, Reach};
pub use transfer::extend;

#[cfg(test)]
mod tests;
