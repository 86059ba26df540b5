//! The timer interrupt as an instruction meets it: enabled or not, and from which cycle on it is
//! due.
#![tactic(auto)]

mod view;

pub use view::IrqView;

#[cfg(test)]
mod tests;
