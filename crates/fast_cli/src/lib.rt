//! The command lines of the program: which words make a line, and the line that they make.
#![tactic(auto)]

mod command;
mod examples;
mod form;
mod line;
mod lines;
mod number;
mod own;
mod read;
mod table;
mod texts;
mod values;

pub use line::{Line, Options, Pipeline, UsageFault};
pub use read::read_words;
pub use texts::Texts;
pub use values::default_options;
