//! Which words of memory are text, and a row for each of them: where a count by address stands.
#![tactic(auto)]

mod rows;
mod text;

pub use rows::TextRows;
pub use text::{MOST_PAGES, text_pages};
