//! Numbers of 32 bits and the small types that the simulator's crates share.
#![tactic(auto)]

mod access;
mod bytes;
mod cause;
mod instruction;
mod number;
mod text;

pub use access::{Access, RamRange, Spot, Width};
pub use bytes::Bytes;
pub use cause::Cause;
pub use instruction::{Class, Flow, Halt};
pub use number::{bits, sign_extend, wrap_add};
pub use text::Text;

/// Memory was wanted and not found: the one refusal that no clause ties to a cause.
#[derive(Clone, Copy, Debug, PartialEq, Eq)]
pub struct NoMemory;
