//! RAM as a map of bytes, and the text that fetch reads: RAM's executable bytes as they were when
//! the text was last set to memory.
#![tactic(auto)]

mod page;
mod pages;
mod ram;
#[cfg(test)]
mod tests;
mod text;

pub use ram::Ram;
