//! The image of the soak program, and the machine that it runs on.
#![tactic(auto)]

mod assembly;
mod blocks;
mod draws;
mod machine;
mod soak;
#[cfg(test)]
mod tests;

pub use machine::soak_params;
pub use soak::soak_image;
