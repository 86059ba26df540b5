//! Instruction words of RV32IM_Zicsr: what each word means, and back.
#![tactic(auto)]

mod decoding;
mod encoding;
mod field;
mod insn;
#[cfg(test)]
mod tests;

pub use decoding::{decode, one_row};
pub use encoding::encode;
pub use insn::Insn;
