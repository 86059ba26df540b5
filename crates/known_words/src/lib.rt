//! Words with what is told of each, so that a word that comes again isn't taken apart again.
#![tactic(auto)]

mod words;

pub use words::{KnownWords, OfWord};

#[cfg(test)]
mod tests;
